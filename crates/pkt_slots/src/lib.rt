//! Packets in slots, and the slots that are used again. It stands on `qos_base` for packets and on `profile_plan` for the
//! places that a profile has.
//!
//! It promises that a slot has the pool's length and that a packet's captured bytes are the first of its slot.
#![tactic(auto)]

mod mbuf;
mod slots;

pub use mbuf::Mbuf;
pub use slots::Slots;
