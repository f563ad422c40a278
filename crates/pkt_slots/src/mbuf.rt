//! A packet in its slot.
ghost use Rattle.std.specs.Prelude.{◌≡◌, ◌≤◌, length};
ghost use Rattle.profile_plan.specs.declared.limits.TheConstants.{MAX_SLOT_BYTES};

use qos_base::{Parcel, Pkt};

/// A packet in a slot. The first `pkt.cap` bytes of the slot are what was captured of it.
#[derive(Drop)]
pub struct Mbuf {
    /// The whole slot.
    pub bytes: Vec<u8>,
    /// The packet.
    pub pkt: Pkt,
    ghost fits: { pkt.cap ≤ length bytes.items },
    ghost captured: { pkt.cap ≤ pkt.wire },
    ghost limit: { pkt.cap ≤ MAX_SLOT_BYTES },
}

impl Parcel for Mbuf {
    ghost packet = { λ m. m.pkt };

    fn pkt(&self) -> Pkt {
        self.pkt
    }
}

impl Mbuf {
    ghost use Rattle.pkt_slots.specs.Mbuf.{captured_in};

    /// What was captured of the packet.
    pub fn frame(&self) -> &[u8]
        ensures value { result.now ≡ captured_in self.now }
        ensures length { length result.now ≡ self.now.pkt.cap }
    {
        &self.bytes[..self.pkt.cap as usize]
    }
}
