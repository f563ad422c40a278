//! How many records were lost when they were received.
ghost use Rattle.std.specs.Prelude.{◌≡◌};

use qos_base::Reason;

/// How many records of an input were lost when they were received, by their reasons.
#[derive(Clone, Copy, Debug, PartialEq, Eq)]
pub struct Losses {
    /// What was captured of them is no frame that can be classified.
    pub unparsed: u64,
    /// No rule of the profile matches them.
    pub unmatched: u64,
    /// They are longer on the line than the longest frame of their port.
    pub oversize: u64,
    /// More of them was captured than a slot holds.
    pub too_long: u64,
    /// A meter gave them a colour that the profile drops.
    pub policed: u64,
}

impl Losses {
    ghost use Rattle.std.specs.Prelude.{◌≡◌, ◌<◌, ◌^◌};
    ghost use Rattle.pkt_receive.specs.declared.fate.Fate.TheVariants.{Lost};
    ghost use Rattle.pkt_receive.specs.Losses.{counted, lost_total, no_losses};

    // None.
    pub(crate) fn none() -> Losses
        ensures { result ≡ no_losses }
    {
        Losses {
            unparsed: 0,
            unmatched: 0,
            oversize: 0,
            too_long: 0,
            policed: 0,
        }
    }

    // Counts a record that is lost.
    pub(crate) fn count(&mut self, reason: Reason)
        requires few { lost_total self.old < 2 ^ 33 }
        ensures { self.new ≡ counted self.old (Lost reason) }
    {
        match reason {
            Reason::Unparsed => self.unparsed += 1,
            Reason::Unmatched => self.unmatched += 1,
            Reason::Oversize => self.oversize += 1,
            Reason::TooLong => self.too_long += 1,
            Reason::Policed => self.policed += 1,
            _ => {}
        }
    }
}
