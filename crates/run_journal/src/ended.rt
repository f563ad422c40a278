//! What a port ends with.
use crate::entry::Entry;
use qos_base::Sequence;

/// What a port ended with.
#[derive(Debug, Drop)]
pub struct PortEnd {
    /// Every arrival and dequeue, in order.
    pub journal: Sequence<Entry>,
    /// The port's numbers.
    pub counts: PortCounts,
}

/// The numbers of a port. But for `time` each is a number of packets or of dequeues.
#[derive(Clone, Copy, Debug, PartialEq, Eq)]
pub struct PortCounts {
    /// Packets that arrived.
    pub arrived: u64,
    /// Packets that were sent, and whose records were put whole.
    pub sent: u64,
    /// Packets that still waited at the end.
    pub left: u64,
    /// Packets that a full queue turned away.
    pub tailfull: u64,
    /// Packets that were sent, and whose records were not put whole.
    pub unwritten: u64,
    /// Dequeues.
    pub dequeues: u64,
    /// Port time at the end, in byte times of the line.
    pub time: u64,
}
