//! The journal of a port.
use qos_base::Pkt;

/// One entry of a port's journal: all that its scheduler is driven by.
#[derive(Clone, Copy, Debug, PartialEq, Eq)]
pub enum Entry {
    /// A packet arrives.
    Arrive(Pkt),
    /// A dequeue at a byte time of the line, with room for so many packets.
    Dequeue { now: u64, room: u32 },
}
