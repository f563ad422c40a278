//! The two halves of a pick, on the tokens of the four queues.
ghost use Rattle.std.specs.Prelude.{◌≡◌, ℕ, ◌<◌, ◌≤◌, Some, true, slice_get, slice_index, Contains};
ghost use Rattle.std.specs.Bool.{OnTrue, OnFalse};
ghost use Rattle.wrr_pick.specs.RoundRobin.{picked_queue, lowered};

use crate::QUEUES;

/// The filled queue with the fewest tokens, the lower number on a tie.
pub(crate) fn fewest(tokens: &[u64; QUEUES], filled: &[bool; QUEUES]) -> usize
    requires { Contains filled.now true }
    ensures value { result ≡ picked_queue tokens.now filled.now }
    ensures in_range { result < QUEUES }
    ensures filled { slice_get filled.now result ≡ Some true }
    ensures least { (k : ℕ) → slice_get filled.now k ≡ Some true → slice_index tokens.now result ≤ slice_index tokens.now k }
{
    let mut best = QUEUES;
    for queue in 0..QUEUES {
        if filled[queue] && is_fewer(tokens, queue, best) {
            best = queue;
        }
    }
    best
}

// Whether a queue has fewer tokens than the best one so far, or is the first.
fn is_fewer(tokens: &[u64; QUEUES], queue: usize, best: usize) -> bool
    requires queue { queue < QUEUES }
    requires best { best ≤ QUEUES }
    ensures fewer { OnTrue result (best < QUEUES → slice_index tokens.now queue < slice_index tokens.now best) }
    ensures others { OnFalse result ((best < QUEUES) × (slice_index tokens.now best ≤ slice_index tokens.now queue)) }
{
    best == QUEUES || tokens[queue] < tokens[best]
}

/// Lowers the tokens of each filled queue.
pub(crate) fn lower(tokens: &mut [u64; QUEUES], filled: &[bool; QUEUES], by: u64)
    requires { (k : ℕ) → slice_get filled.now k ≡ Some true → by ≤ slice_index tokens.old k }
    ensures { tokens.new ≡ lowered tokens.old filled.now by }
{
    for queue in 0..QUEUES {
        if filled[queue] {
            tokens[queue] -= by;
        }
    }
}
