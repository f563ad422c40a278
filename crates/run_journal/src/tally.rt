//! The numbers that a port's run counts.

/// How many packets arrived at a port, how many of them were turned away and how many were sent, and how many dequeues were
/// made. Those that are left wait.
#[derive(Clone, Copy, Debug, PartialEq, Eq)]
pub struct Tally {
    /// Packets that arrived.
    pub arrived: u64,
    /// Those that a full queue turned away.
    pub dropped: u64,
    /// Those that were sent.
    pub sent: u64,
    /// Dequeues.
    pub dequeues: u64,
}
