//! Marks, and the logs that they form.
use qos_base::{Colour, Sequence};

/// A mark: what a meter was asked about a packet, and the colour that it replied.
#[derive(Clone, Copy, Debug, PartialEq, Eq)]
pub struct Mark {
    /// The number of the meter.
    pub meter: u32,
    /// How many marks of that meter were made before it.
    pub turn: u64,
    /// The number of the packet's input.
    pub input: u32,
    /// The place of its record in that input.
    pub index: u32,
    /// Its moment, in nanoseconds since the origin.
    pub at: u64,
    /// Its length in bytes.
    pub len: u32,
    /// The colour that it had.
    pub pre: Colour,
    /// The colour that it was given.
    pub colour: Colour,
}

/// The marks of a meter, by turn.
#[derive(Debug, Drop)]
pub struct MeterLog {
    /// The number of the meter.
    pub meter: u32,
    /// Its marks.
    pub marks: Sequence<Mark>,
}
