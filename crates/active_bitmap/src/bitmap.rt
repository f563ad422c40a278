//! The bitmap of active queues or pipes.
ghost use Rattle.std.specs.Prelude.{◌≡◌, ◌+◌, ◌<◌, ◌≤◌, true, false, length, replicate, slice_set, IfOk};
ghost use Rattle.active_bitmap.specs.NextActive.{next_active};

use crate::words::Words;
use qos_base::{NoMemory, Steps};
use std::alloc::Global;
use std::marker::Model;
use std::sync::ledger::Ledger;

/// The most bits that a bitmap has: 16 queues for each of the 4,096 pipes of a subport.
pub const MAX_BITS: u32 = 65_536;

/// The most probes that a search makes, where a probe reads one word of 64 bits.
pub const MAX_PROBES: u32 = 20;

/// A row of bits, numbered from 0: one for each queue or pipe that may hold a packet.
///
/// The bits lie in words of 64, and above them lies a summary with one bit a word, which is set where
/// that word has a set bit (Programmer's Guide, Quality of Service Framework, the bitmap of active
/// queues).
#[derive(Drop)]
pub struct ActiveBitmap {
    size: u32,
    bits: Words,
    summary: Words,
}

// Contracts see the bits, and no summary.
impl Model for ActiveBitmap {
    ghost use Rattle.std.specs.Prelude.{List, Bool, take};
    ghost use Rattle.active_bitmap.specs.Levels.{IsSound};

    ghost Value = { List Bool };

    ghost view = { λ b. take b.size b.bits };

    ghost invariant = { λ b. IsSound b.size b.bits b.summary };
}

impl ActiveBitmap {
    /// So many bits, from 1 to 65,536, all clear. All memory is taken here, and no later call takes any.
    pub fn new(alloc: Global, bits: u32) -> Result<ActiveBitmap, NoMemory>
        requires some { 1 ≤ bits }
        requires limit { bits ≤ MAX_BITS }
        ensures { IfOk result (λ b. b ≡ replicate bits false) }
    {
        let words = (bits as usize).div_ceil(64);
        Ok(ActiveBitmap {
            size: bits,
            bits: Words::new(alloc, words)?,
            summary: Words::new(alloc, words.div_ceil(64))?,
        })
    }

    /// Sets a bit: its queue or pipe is active.
    pub fn set(&mut self, bit: u32)
        requires { bit < length self.old }
        ensures { self.new ≡ slice_set self.old bit true }
    {
        let bit = bit as usize;
        self.bits.set(bit);
        self.summary.set(bit / 64);
    }

    /// Clears a bit: its queue or pipe is empty.
    pub fn clear(&mut self, bit: u32)
        requires { bit < length self.old }
        ensures { self.new ≡ slice_set self.old bit false }
    {
        let bit = bit as usize;
        if !self.bits.clear(bit) {
            self.summary.clear(bit / 64);
        }
    }

    /// The set bit at the least distance `(bit - pos) mod bits` ahead of `pos`, distance 0 included;
    /// None exactly where all bits are clear. Each word that it reads counts one step.
    pub fn next_from<L: Ledger>(&self, pos: u32, steps: &mut Steps<L>) -> Option<u32>
        requires { pos < length self.now }
        ensures nearest { result ≡ next_active pos self.now }
        ensures probes { steps.new ≤ steps.old + MAX_PROBES }
        ensures counted { steps.old < steps.new }
    {
        let pos = pos as usize;
        if let Some(bit) = self.bits.probe(pos, steps) {
            return Some(bit as u32);
        }
        let word = self.summary.next_after(pos / 64, steps)?;
        let bit = self.bits.probe(64 * word, steps)?;
        Some(bit as u32)
    }
}
