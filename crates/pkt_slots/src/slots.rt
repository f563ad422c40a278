//! Slots for packets, which are used again.
ghost use Rattle.std.specs.Prelude.{◌≡◌, [], IfOk, length, vec_capacity};

use crate::mbuf::Mbuf;
use qos_base::{Departure, NoMemory};
use std::alloc::Global;

/// The slots of one length that no packet is in. One more is made where none is free, and the one that was given back
/// last is taken first, since it is warm.
#[derive(Drop)]
pub struct Slots {
    free: Vec<Vec<u8>>,
    slot_bytes: u32,
    alloc: Global,
}

impl Slots {
    /// No slot yet; each will have so many bytes.
    pub fn new(alloc: Global, slot_bytes: u32) -> Slots
        ensures { result.slot_bytes ≡ slot_bytes }
    {
        Slots {
            free: Vec::new(alloc),
            slot_bytes,
            alloc,
        }
    }

    /// A slot, which holds anything. One that was given back with another length is let go.
    ///
    /// `NoMemory`: none is free, and one more was refused memory.
    pub fn take(&mut self) -> Result<Vec<u8>, NoMemory>
        ensures length { IfOk result (λ bytes. length bytes.items ≡ self.old.slot_bytes) }
        ensures stays { self.new.slot_bytes ≡ self.old.slot_bytes }
    {
        if let Some(bytes) = self.free.pop() {
            if bytes.len() == self.slot_bytes as usize {
                return Ok(bytes);
            }
        }
        Ok(vec![in self.alloc; 0; self.slot_bytes as usize]?)
    }

    /// Gives a slot back. Where memory is refused to keep it, it is let go.
    pub fn give_bytes(&mut self, bytes: Vec<u8>)
        ensures { self.new.slot_bytes ≡ self.old.slot_bytes }
    {
        let _ = self.free.push(bytes);
    }

    /// Gives the slot of a packet back.
    pub fn give(&mut self, mbuf: Mbuf)
        ensures { self.new.slot_bytes ≡ self.old.slot_bytes }
    {
        let Mbuf { bytes, pkt: _ } = mbuf;
        self.give_bytes(bytes);
    }

    /// Gives the slot of a packet back, if there is one.
    pub fn give_if(&mut self, away: Option<Mbuf>)
        ensures { self.new.slot_bytes ≡ self.old.slot_bytes }
    {
        if let Some(mbuf) = away {
            self.give(mbuf);
        }
    }

    /// Gives back the slots of packets that were sent.
    pub fn give_all(&mut self, sent: &mut Vec<Departure<Mbuf>>)
        ensures empty { sent.new.items ≡ [] }
        ensures capacity { vec_capacity sent.new ≡ vec_capacity sent.old }
        ensures stays { self.new.slot_bytes ≡ self.old.slot_bytes }
    {
        while let Some(departure) = sent.pop() {
            self.give(departure.parcel);
        }
    }
}
