//! The state of the round robin of one pipe.
ghost use Rattle.std.specs.Prelude.{◌≡◌, ◌<◌, ◌≤◌, ◌∷◌, [], Some, true, slice_get, slice_index, All, Contains};
ghost use Rattle.wrr_pick.specs.Multiple.{factors_of};
ghost use Rattle.wrr_pick.specs.RoundRobin.{IsWithin, picked_queue, tokens_after_pick, tokens_after_send, tokens_once_empty};

use crate::multiple::common_multiple;
use crate::pick::{fewest, lower};
use std::marker::Model;

/// The best effort queues of a pipe.
pub const QUEUES: usize = 4;

/// The greatest cost of a packet, in byte times of the line: 262,144 bytes and an overhead of 255.
pub const MAX_COST: u64 = 262_399;

/// A weighted round robin over four queues, 0 to 3.
///
/// A queue pays for what it sends in tokens, as many for each byte as its factor says, and the filled queue
/// with the fewest tokens is next. The factors are those of the least common multiple of the weights, so
/// that all queues pay the same for shares in proportion to their weights. No sum of tokens wraps.
#[derive(Clone, Copy, Debug, PartialEq, Eq)]
pub struct Wrr {
    factors: [u64; QUEUES],
    tokens: [u64; QUEUES],
}

// Contracts see the factors and the tokens of the queues.
impl Model for Wrr {
    ghost use Rattle.wrr_pick.specs.RoundRobin.{RoundRobin, IsWithin};

    ghost Value = { RoundRobin };

    ghost view = { λ w. record { factors = w.factors; tokens = w.tokens } };

    ghost invariant = { λ w. IsWithin (record { factors = w.factors; tokens = w.tokens }) };

    ghost inverse = { λ w. record { factors = w.factors; tokens = w.tokens } };
}

impl Wrr {
    /// A round robin by these weights, 1 to 255, in which no queue has tokens. A queue of weight 2 may send
    /// twice as much as one of weight 1.
    pub fn new(weights: [u8; QUEUES]) -> Wrr
        requires { All (λ w. 1 ≤ w) weights }
        ensures factors { result.factors ≡ factors_of weights }
        ensures tokens { result.tokens ≡ 0 ∷ 0 ∷ 0 ∷ 0 ∷ [] }
    {
        let multiple = common_multiple(&weights);
        Wrr {
            factors: [
                multiple / u64::from(weights[0]),
                multiple / u64::from(weights[1]),
                multiple / u64::from(weights[2]),
                multiple / u64::from(weights[3]),
            ],
            tokens: [0; QUEUES],
        }
    }

    /// The factor of each queue, which is what it pays in tokens for a byte time of the line: the least
    /// common multiple of the weights, divided by its weight.
    pub fn factors(&self) -> [u64; QUEUES]
        ensures value { result ≡ self.now.factors }
        ensures within { IsWithin self.now }
    {
        self.factors
    }

    /// Picks the filled queue with the fewest tokens, the lower number on a tie, and takes that number of
    /// tokens from every filled queue, whether the picked one then sends or not. `filled` says of each queue
    /// whether it has a packet. The picked queue is left without tokens.
    pub fn pick(&mut self, filled: [bool; QUEUES]) -> usize
        requires { Contains filled true }
        ensures queue { result ≡ picked_queue self.old.tokens filled }
        ensures tokens { self.new.tokens ≡ tokens_after_pick self.old.tokens filled }
        ensures factors { self.new.factors ≡ self.old.factors }
        ensures in_range { result < QUEUES }
        ensures filled { slice_get filled result ≡ Some true }
        ensures ready { slice_index self.new.tokens result ≡ 0 }
        ensures within { IsWithin self.new }
    {
        let queue = fewest(&self.tokens, &filled);
        let least = self.tokens[queue];
        lower(&mut self.tokens, &filled, least);
        queue
    }

    /// Charges a queue for a packet that it sent, of this cost in byte times of the line. The queue has no
    /// tokens before, as `pick` leaves the queue that it answers.
    pub fn charge(&mut self, queue: usize, cost: u64)
        requires queue { queue < QUEUES }
        requires ready { slice_index self.old.tokens queue ≡ 0 }
        requires cost { cost ≤ MAX_COST }
        ensures tokens { self.new.tokens ≡ tokens_after_send self.old.factors self.old.tokens queue cost }
        ensures factors { self.new.factors ≡ self.old.factors }
    {
        self.tokens[queue] += cost * self.factors[queue];
    }

    /// Notes that a queue became empty. It then has no tokens.
    pub fn emptied(&mut self, queue: usize)
        requires { queue < QUEUES }
        ensures tokens { self.new.tokens ≡ tokens_once_empty self.old.tokens queue }
        ensures factors { self.new.factors ≡ self.old.factors }
    {
        self.tokens[queue] = 0;
    }
}
