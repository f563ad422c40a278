//! What a table holds for one code.
ghost use Rattle.std.specs.Prelude.{◌≡◌, ◌<◌, ◌↔◌, IsTrue};

use qos_base::Colour;

/// A traffic class, a queue in it, and a colour.
///
/// It is valid where the class is at most 12, and the queue is 0 below class 12 and at most 3 at class
/// 12, which is best effort.
#[derive(Clone, Copy, Debug, PartialEq, Eq)]
pub struct Entry {
    /// The traffic class, from 0 to 12.
    pub class: u8,
    /// The queue within the class.
    pub queue: u8,
    /// The colour that the packet has before it is metered.
    pub colour: Colour,
}

impl Entry {
    ghost use Rattle.code_table.specs.Entry.{IsValid, queue_number_of};

    /// Whether the entry is valid.
    pub fn is_valid(&self) -> bool
        ensures { IsTrue result ↔ IsValid self.now }
    {
        self.class < 12 && self.queue == 0 || self.class == 12 && self.queue <= 3
    }

    /// The number of its queue among the 16 of a pipe: the class below class 12, `12 + queue` at class 12.
    pub fn queue_number(&self) -> u32
        ensures value { result ≡ queue_number_of self.now }
        ensures within { IsValid self.now → result < 16 }
    {
        if self.class == 12 {
            12 + u32::from(self.queue)
        } else {
            u32::from(self.class)
        }
    }
}
