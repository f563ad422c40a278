//! The pool of slots, a port, and a subport.

use crate::shaping::CLASSES;
use qos_base::Sequence;

/// The slots in which packets wait.
#[derive(Clone, Copy, Debug, PartialEq, Eq)]
pub struct PoolPlan {
    /// How many slots there are, 1 to 1,048,576.
    pub slots: u32,
    /// The bytes of a slot, 64 to 262,144. All slots together have at most 2^31 bytes.
    pub slot_bytes: u32,
    /// The packets that a ring between two stages holds, 1 to 65,536.
    pub ring: u32,
}

/// A port, and the one line that it sends on.
#[derive(Debug, Drop)]
pub struct PortPlan {
    /// The line's rate, 1,000,000 to 12,500,000,000 bytes per second.
    pub line: u64,
    /// The bytes of the line that a frame takes beside its own, 0 to 255.
    pub overhead: u32,
    /// The longest frame that the port sends, 60 to 262,144 bytes.
    pub mtu: u32,
    /// The most packets of one dequeue, 1 to 256.
    pub burst: u32,
    /// The longest step of the port's clock while packets wait, 1 to 10^9 byte times.
    pub quantum: u64,
    /// How long the port goes on after the last arrival.
    pub drain: Span,
    /// The subports by number, 1 to 8.
    pub subports: Sequence<SubportPlan>,
}

/// A span of time at a port.
#[derive(Clone, Copy, Debug, PartialEq, Eq)]
pub enum Span {
    /// Byte times of the line, at most 2^40.
    Bytes(u64),
    /// Milliseconds, at most 100,000.
    Ms(u64),
}

/// A subport of a port.
#[derive(Debug, Drop)]
pub struct SubportPlan {
    /// The number of its subport profile.
    pub kind: u32,
    /// The packets that a queue of each class holds, at most 65,536; the last is that of each of the four
    /// best effort queues.
    pub sizes: [u32; CLASSES],
    /// For each pipe, the number of its pipe profile; 1 to 4,096 pipes.
    pub pipes: Sequence<u32>,
    /// Whether the best effort class is shared out when the pipes' rates are more than the subport has.
    pub oversub: bool,
}
