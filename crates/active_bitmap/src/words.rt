//! Bits in words of 64, one level of the bitmap.
ghost use Rattle.std.specs.Prelude.{◌≡◌, ◌+◌, ◌-◌, ◌*◌, ◌/◌, ◌^◌, ◌<◌, ◌≤◌, true, false, length, replicate, slice_set, IfOk, MatchOption};
ghost use Rattle.active_bitmap.specs.Words.{IsFirstSet, IsNextSet, has_set};

use qos_base::{NoMemory, Steps};
use std::alloc::Global;
use std::marker::Model;
use std::sync::ledger::Ledger;

/// A row of 64-bit words, seen as the list of its bits. A search reads a word by [`Words::probe`] alone,
/// which counts.
#[derive(Drop)]
pub struct Words {
    words: Vec<u64>,
}

impl Model for Words {
    ghost use Rattle.std.specs.Prelude.{List, Bool};
    ghost use Rattle.active_bitmap.specs.Words.{bits_of};

    ghost Value = { List Bool };

    ghost view = { λ w. bits_of w.words.items };
}

impl Words {
    /// So many words, all of whose bits are clear.
    pub fn new(alloc: Global, words: usize) -> Result<Words, NoMemory>
        ensures { IfOk result (λ w. w ≡ replicate (64 * words) false) }
    {
        Ok(Words {
            words: vec![in alloc; 0; words]?,
        })
    }

    /// How many words there are.
    pub fn len(&self) -> usize
        ensures { 64 * result ≡ length self.now }
    {
        self.words.len()
    }

    /// Sets a bit.
    pub fn set(&mut self, bit: usize)
        requires { bit < length self.old }
        ensures { self.new ≡ slice_set self.old bit true }
    {
        self.words[bit / 64] |= 1 << (bit % 64);
    }

    /// Clears a bit, and tells whether its word still has a set one.
    pub fn clear(&mut self, bit: usize) -> bool
        requires { bit < length self.old }
        ensures cleared { self.new ≡ slice_set self.old bit false }
        ensures left { result ≡ has_set self.new (bit / 64) }
    {
        let word = &mut self.words[bit / 64];
        *word &= !(1 << (bit % 64));
        *word != 0
    }

    /// The first set bit from `from` to the end of its word. One probe.
    pub fn probe<L: Ledger>(&self, from: usize, steps: &mut Steps<L>) -> Option<usize>
        requires { from < length self.now }
        ensures first { IsFirstSet self.now from (64 * (from / 64) + 64) result }
        ensures counted { steps.new ≡ steps.old + 1 }
    {
        steps.tick();
        let left = self.words[from / 64] & (u64::MAX << (from % 64));
        if left == 0 {
            return None;
        }
        Some(from / 64 * 64 + left.trailing_zeros() as usize)
    }

    /// The first set bit from `from` up to word `end`, which is not looked at. One probe a word.
    pub fn first<L: Ledger>(&self, from: usize, end: usize, steps: &mut Steps<L>) -> Option<usize>
        requires from { from ≤ 64 * end }
        requires end { 64 * end ≤ length self.now }
        requires small { end ≤ 1024 }
        ensures first { IsFirstSet self.now from (64 * end) result }
        ensures counted { MatchOption result
            (steps.new ≡ steps.old + (end - from / 64))
            (λ bit. steps.new ≡ steps.old + (bit / 64 + 1 - from / 64)) }
    {
        for word in from / 64..end {
            let found = self.probe(from.max(64 * word), steps);
            if found.is_some() {
                return found;
            }
        }
        None
    }

    /// The first set bit after `bit`, or else the first up to it. At most one probe a word, and one more.
    pub fn next_after<L: Ledger>(&self, bit: usize, steps: &mut Steps<L>) -> Option<usize>
        requires within { bit < length self.now }
        requires small { length self.now ≤ 1024 }
        ensures next { IsNextSet self.now bit result }
        ensures counted { steps.old ≤ steps.new }
        ensures probes { 64 * steps.new ≤ 64 * steps.old + length self.now + 64 }
    {
        let after = self.first(bit + 1, self.len(), steps);
        if after.is_some() {
            return after;
        }
        self.first(0, bit / 64 + 1, steps)
    }
}
