//! What goes through a ring.
use mbuf_pool::Mbuf;

/// A message of a ring.
#[derive(Drop)]
pub enum Msg {
    /// A parcel.
    Parcel(Mbuf),
    /// The sender of this number has ended.
    Fin(u32),
}

/// A message with the number of its sender.
#[derive(Drop)]
pub struct Posted {
    pub from: u32,
    pub msg: Msg,
}

/// The parcel that a full ring turned away.
#[derive(Drop)]
pub struct Full {
    /// The very parcel that was pushed.
    pub parcel: Mbuf,
}
