//! What a command ends with.
use meter_table::MeterLog;
use qos_base::Sequence;
use qos_pcap::Stop;
use qos_profile::ProfileFault;
use run_journal::PortEnd;

/// What a command ended with.
#[derive(Debug, Drop)]
pub struct Ended {
    /// The program's exit status: 0 fine, 2 usage, 3 profile, 4 read, 5 write, 6 capture, 7 memory.
    pub status: u8,
    /// One for each port; none where nothing was scheduled.
    pub ports: Sequence<PortEnd>,
    /// The log of each meter, by number; none where nothing was scheduled.
    pub meters: Sequence<MeterLog>,
    /// One for each input; none where nothing was scheduled.
    pub inputs: Sequence<InputEnd>,
    /// One for each port: whether the creation, a put or the closing of its output failed.
    pub write_fault: Sequence<bool>,
    /// Why the profile was not had, where it was not.
    pub note: Note,
}

/// Why the profile of a command was not had.
#[derive(Clone, Copy, Debug, PartialEq, Eq)]
pub enum Note {
    /// Nothing: it was had, or not asked for.
    Nothing,
    /// Its file could not be opened or read.
    ProfileRead,
    /// Its text has this fault.
    Profile(ProfileFault),
}

/// What an input ended with. Each number is a number of records.
#[derive(Debug, Drop)]
pub struct InputEnd {
    /// Whole records that were read.
    pub read: u64,
    /// Those that were sent, and put whole.
    pub sent: u64,
    /// Those that still waited at the end.
    pub left: u64,
    /// Those that were lost under each reason, by the reason's number less one.
    pub reasons: [u64; 7],
    /// Those that were sent, and not put whole.
    pub unwritten: u64,
    /// The places of those for which no slot was free.
    pub unslotted: Sequence<u32>,
    /// How its reading ended.
    pub stopped: Stop,
}
