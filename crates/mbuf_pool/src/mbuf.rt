//! A slot of the pool, with the packet that it carries.
ghost use Rattle.std.specs.Prelude.{◌≡◌};

use qos_base::{Parcel, Pkt};

/// A slot of the pool. In a slot just taken the packet, the due time and the contents of the bytes are
/// open.
#[derive(Drop)]
pub struct Mbuf {
    /// Its number, from 0.
    pub slot: u32,
    /// Always the slot's whole length; the first `pkt.cap` are the frame.
    pub bytes: Vec<u8>,
    /// The packet that it carries.
    pub pkt: Pkt,
    /// On a send ring the time of the send, in byte times of the line; before that it means nothing.
    pub due: u64,
}

impl Parcel for Mbuf {
    ghost packet = { λ m. m.pkt };

    fn pkt(&self) -> Pkt {
        self.pkt
    }
}
