//! How a command ends.
ghost use Rattle.std.specs.Prelude.{◌≡◌};
ghost use Rattle.run_report.specs.Status.{any_true};

use qos_pcap::{PcapFault, Stop};

/// How a command ends.
#[derive(Clone, Copy, Debug, PartialEq, Eq)]
pub enum Status {
    /// Nothing went wrong.
    Fine,
    /// The words ask for no command.
    Usage,
    /// The profile's text is no profile.
    Profile,
    /// The profile or an input could not be opened or read.
    Read,
    /// An output or the report could not be written.
    Write,
    /// An input is no whole capture.
    Capture,
    /// Memory was refused.
    Memory,
}

fn any_true(faults: &[bool]) -> bool
    ensures { result ≡ any_true faults.now }
{
    faults.iter().any(|fault| *fault)
}

impl Status {
    ghost use Rattle.run_report.specs.Status.{status_number, status_for, after_fault};

    /// The program's exit status: 0 fine, 2 usage, 3 profile, 4 read, 5 write, 6 capture, 7 memory.
    pub fn number(self) -> u8
        ensures { result ≡ status_number self }
    {
        match self {
            Status::Fine => 0,
            Status::Usage => 2,
            Status::Profile => 3,
            Status::Read => 4,
            Status::Write => 5,
            Status::Capture => 6,
            Status::Memory => 7,
        }
    }

    /// The status of a run whose input stopped so, and whose outputs have such write faults.
    pub fn of_run(stopped: Stop, write_faults: &[bool]) -> Status
        ensures { result ≡ status_for stopped write_faults.now }
    {
        match stopped {
            Stop::NotOpened | Stop::Fault(PcapFault::Read) => Status::Read,
            Stop::Fault(_) => Status::Capture,
            Stop::End if any_true(write_faults) => Status::Write,
            Stop::End => Status::Fine,
        }
    }

    /// The status after a report that failed.
    pub fn after_fault(self) -> Status
        ensures { result ≡ after_fault self }
    {
        match self {
            Status::Fine => Status::Write,
            _ => self,
        }
    }
}
