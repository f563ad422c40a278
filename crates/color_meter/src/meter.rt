//! A meter.
ghost use Rattle.std.specs.Prelude.{◌≡◌, ◌^◌, ◌≤◌};
ghost use Rattle.profile_plan.specs.Limits.{IsMeter};
ghost use Rattle.color_meter.specs.Meter.{MeterState, IsMeterState, full, drip, reply, checked};
ghost use Rattle.color_meter.specs.Setting.{setting_of};
ghost use Rattle.color_meter.specs.Words.{words_of, HasStateWords};

use crate::clock::Clock;
use crate::standard::{filled, replied};
use profile_plan::{MeterKind, MeterPlan};
use qos_base::Colour;
use std::marker::Model;

/// A meter: what it is set to, and the tokens in its two buckets.
///
/// Tokens are bytes; moments are nanoseconds since the origin.
#[derive(Clone, Copy, Debug)]
pub struct Meter {
    kind: MeterKind,
    aware: bool,
    cir: Clock,
    other: Clock,
    cbs: u64,
    other_size: u64,
    counts: (u64, u64),
    high: u64,
}

impl Model for Meter {
    ghost use Rattle.color_meter.specs.Meter.{MeterState};

    ghost Value = { MeterState };

    ghost use Rattle.color_meter.specs.Kept.{state_of, inside_of, inside-of-state, IsKept};

    ghost view = { state_of };

    ghost inverse = { inside_of };

    ghost inverse_ok = { inside-of-state };

    ghost invariant = { IsKept };
}

impl Meter {
    /// A meter that was set to this, full at time 0.
    pub fn new(plan: &MeterPlan) -> Meter
        requires { IsMeter plan.now }
        ensures { result ≡ full (setting_of plan.now) }
    {
        Meter {
            kind: plan.kind,
            aware: plan.aware,
            cir: Clock::new(plan.cir),
            other: Clock::new(plan.other),
            cbs: plan.cbs,
            other_size: plan.other_size,
            counts: (plan.cbs, plan.other_size),
            high: 0,
        }
    }

    /// The colour of a packet of `len` bytes at a moment, where `pre` is the colour that it had (section 3 of
    /// RFC 2697, 2698 or 4115). Its length is taken from the buckets that the colour is paid from. A moment before
    /// one that the meter has seen earns no tokens.
    ///
    /// `at` is at most 2^50.
    pub fn check(&mut self, at: u64, len: u32, pre: Colour) -> Colour
        requires { at ≤ 2 ^ 50 }
        ensures { (result, self.new) ≡ checked at len pre self.old }
    {
        self.drip(at);
        self.reply(pre, u64::from(len))
    }

    /// Tc, and Te or Tp of RFC 2698: at most the sizes of their buckets.
    pub fn counts(&self) -> (u64, u64)
        ensures exact { result ≡ self.now.counts }
        ensures committed { result.0 ≤ self.now.setting.cbs }
        ensures rest { result.1 ≤ self.now.setting.other_size }
        ensures sound { IsMeterState self.now }
    {
        self.counts
    }

    /// The words by which a meter of this setting can be made again ([`Meter::with_words`]).
    pub fn words(&self) -> [u64; 5]
        ensures exact { result ≡ words_of self.now }
        ensures sound { HasStateWords self.now self.now.setting result }
    {
        [
            self.counts.0,
            self.counts.1,
            self.high,
            self.cir.time,
            self.other.time,
        ]
    }

    /// The meter of this setting that had these words ([`Meter::words`]).
    pub fn with_words(&self, words: &[u64; 5]) -> Meter
        requires { (m : MeterState) × HasStateWords m self.now.setting words.now }
        ensures { (m : MeterState) → HasStateWords m self.now.setting words.now → result ≡ m }
    {
        let [committed, rest, high, cir, other] = *words;
        Meter {
            counts: (committed, rest),
            high,
            cir: self.cir.at(cir),
            other: self.other.at(other),
            ..*self
        }
    }

    // Brings the buckets up to a moment.
    fn drip(&mut self, at: u64)
        requires { at ≤ 2 ^ 50 }
        ensures { self.new ≡ drip at self.old }
    {
        if at <= self.high {
            return;
        }
        let committed = self.cir.tick(at);
        let rest = self.other.tick(at);
        let sizes = (self.cbs, self.other_size);
        self.counts = filled(self.kind, sizes, (committed, rest), self.counts);
        self.high = at;
    }

    // Colours a packet, and takes its length from the buckets.
    fn reply(&mut self, pre: Colour, len: u64) -> Colour
        ensures { (result, self.new) ≡ reply pre len self.old }
    {
        let seen = if self.aware { pre } else { Colour::Green };
        let (colour, counts) = replied(self.kind, seen, len, self.counts);
        self.counts = counts;
        colour
    }
}
