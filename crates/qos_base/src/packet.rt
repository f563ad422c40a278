//! A packet as the scheduler sees it, and what carries one.
ghost use Rattle.std.specs.Prelude.{◌≡◌};

/// The colour of a packet, which is its drop precedence (RFC 2697, RFC 2698).
#[derive(Clone, Copy, Debug, PartialEq, Eq)]
pub enum Colour {
    Green,
    Yellow,
    Red,
}

/// A packet: where it comes from, how long it is, when it was captured and where it goes.
#[derive(Clone, Copy, Debug, PartialEq, Eq)]
pub struct Pkt {
    /// The number of its input, from 0.
    pub input: u32,
    /// Its place among the records of that input, from 0.
    pub index: u32,
    /// Its length on the line without preamble, checksum and gap, in bytes.
    pub wire: u32,
    /// How many of its bytes were captured; at most `wire`.
    pub cap: u32,
    /// When it was captured, in nanoseconds.
    pub stamp: u64,
    /// The port that sends it.
    pub port: u32,
    /// The subport of that port.
    pub subport: u32,
    /// The pipe of that subport.
    pub pipe: u32,
    /// The queue of that pipe, from 0 to 15: classes 0 to 11, then the four best effort queues.
    pub queue: u32,
    /// Its colour.
    pub colour: Colour,
}

/// Anything that carries a packet through the scheduler.
pub trait Parcel: Drop {
    ghost use Rattle.qos_base.specs.declared.packet.Pkt.{Pkt};

    /// The packet that it carries.
    ghost packet: { Self → Pkt };

    /// The packet that it carries.
    fn pkt(&self) -> Pkt
        ensures { result ≡ packet self.now };
}

impl Parcel for Pkt {
    ghost packet = { λ p. p };

    fn pkt(&self) -> Pkt {
        *self
    }
}

/// A parcel that was sent.
#[derive(Drop)]
pub struct Departure<T> {
    /// The very parcel that arrived.
    pub parcel: T,
    /// The port time at which its first byte goes out, in byte times of the line.
    pub time: u64,
}

/// The parcel that a full queue turned away.
#[derive(Drop)]
pub struct TailFull<T> {
    /// The very parcel that arrived.
    pub parcel: T,
}
