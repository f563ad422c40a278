//! Why a packet is lost.
ghost use Rattle.std.specs.Prelude.{◌≡◌};

/// The one reason under which a packet that is lost is counted.
#[derive(Clone, Copy, Debug, PartialEq, Eq)]
pub enum Reason {
    /// Its bytes are no frame that can be classified.
    Unparsed,
    /// No rule of the profile matches it.
    Unmatched,
    /// It is longer on the line than its port's mtu.
    Oversize,
    /// More of its bytes were captured than a slot holds.
    TooLong,
    /// No slot was free when it was read.
    NoSlot,
    /// Its meter's colour is one that the profile drops.
    Policed,
    /// Its queue was full (tail drop).
    TailFull,
}

impl Reason {
    ghost use Rattle.qos_base.specs.Reason.{reason_number};

    /// The number of the reason, from 1 to 7 in the order of the variants.
    pub fn number(&self) -> u32
        ensures { result ≡ reason_number self.now }
    {
        match self {
            Reason::Unparsed => 1,
            Reason::Unmatched => 2,
            Reason::Oversize => 3,
            Reason::TooLong => 4,
            Reason::NoSlot => 5,
            Reason::Policed => 6,
            Reason::TailFull => 7,
        }
    }
}
