//! Why a capture is not read on.

/// A fault of a capture (pcap-savefile), or of reading it.
#[derive(Clone, Copy, Debug, PartialEq, Eq)]
pub enum PcapFault {
    /// It has fewer than 24 bytes; how many.
    CutHeader(u32),
    /// It does not begin with a magic number of the format.
    BadMagic,
    /// Its major version is not 2.
    BadVersion,
    /// The low 16 bits of its link type are not 1, which is Ethernet.
    BadLink,
    /// It has more records than the limit; the byte at which the first of these begins.
    TooMany(u64),
    /// A record's head or body ends early; the byte at which the record begins.
    CutRecord(u64),
    /// A captured length is above `MAX_CAP`; the byte at which the record begins, and that length.
    HugeRecord(u64, u32),
    /// The source failed, and has counted it.
    Read,
}

impl PcapFault {
    ghost use Rattle.std.specs.Prelude.{◌≡◌};
    ghost use Rattle.qos_pcap.specs.Faults.{number_of, offset_of};

    /// The fault's number in a report, 1 to 8.
    pub fn number(&self) -> u32
        ensures { result ≡ number_of self.now }
    {
        match *self {
            PcapFault::BadMagic => 1,
            PcapFault::BadVersion => 2,
            PcapFault::BadLink => 3,
            PcapFault::CutHeader(_) => 4,
            PcapFault::CutRecord(_) => 5,
            PcapFault::HugeRecord(..) => 6,
            PcapFault::Read => 7,
            PcapFault::TooMany(_) => 8,
        }
    }

    /// The byte at which it is, as a report gives it: that at which its record begins, or the length of a
    /// header that is cut; 0 for the other faults.
    pub fn offset(&self) -> u64
        ensures { result ≡ offset_of self.now }
    {
        match *self {
            PcapFault::CutHeader(length) => u64::from(length),
            PcapFault::CutRecord(at) | PcapFault::HugeRecord(at, _) | PcapFault::TooMany(at) => at,
            PcapFault::BadMagic | PcapFault::BadVersion | PcapFault::BadLink | PcapFault::Read => 0,
        }
    }
}

/// How the reading of an input stopped.
#[derive(Clone, Copy, Debug, PartialEq, Eq)]
pub enum Stop {
    /// It was read to its end.
    End,
    /// It was not opened.
    NotOpened,
    /// It has a fault, or could not be read.
    Fault(PcapFault),
}
