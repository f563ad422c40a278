//! The head of a record.

/// What the head of a record says (pcap-savefile, per-packet header).
#[derive(Clone, Copy, Debug, PartialEq, Eq)]
pub struct Head {
    /// The place of the record in the capture, from 0.
    pub index: u32,
    /// The byte of the capture at which the record begins.
    pub offset: u64,
    /// When the packet was captured, in nanoseconds.
    pub stamp: u64,
    /// How many of its bytes were captured; at most `MAX_CAP`.
    pub cap: u32,
    /// Its length on the line in bytes: the greater of the record's two lengths.
    pub wire: u32,
}
