//! What the definitions of the round robin say together. A law is a function without parameters whose
//! contract holds; there is nothing to call it for.
ghost use Rattle.std.specs.Prelude.{◌≡◌, ℕ, ◌+◌, ◌*◌, ◌<◌, ◌≤◌, List, Bool, Some, true, length, slice_get, slice_index, All, Contains};
ghost use Rattle.wrr_pick.specs.Multiple.{IsLeastCommonMultiple, factors_of, least_common_multiple};
ghost use Rattle.wrr_pick.specs.RoundRobin.{IsPicked, picked_queue, tokens_after_pick};

/// The least common multiple of positive numbers is the least of all positive numbers that each divides.
pub fn least_common_multiple_is_least()
    ensures { (numbers : List ℕ) → All (λ w. 1 ≤ w) numbers → IsLeastCommonMultiple numbers (least_common_multiple numbers) }
{}

/// A queue's factor times its weight is the same for all queues.
pub fn factors_are_shares()
    ensures { (weights : List ℕ) (k : ℕ) → All (λ w. 1 ≤ w) weights → k < length weights → slice_index (factors_of weights) k * slice_index weights k ≡ least_common_multiple weights }
{}

/// The picked queue is filled, no filled queue has fewer tokens, and each filled one below it has more.
pub fn picked_queue_is_filled()
    ensures { (tokens : List ℕ) (filled : List Bool) → length tokens ≡ length filled → Contains filled true → IsPicked tokens filled (picked_queue tokens filled) }
{}

/// A pick leaves the picked queue no tokens.
pub fn picked_queue_has_no_tokens()
    ensures { (tokens : List ℕ) (filled : List Bool) → length tokens ≡ length filled → Contains filled true → slice_index (tokens_after_pick tokens filled) (picked_queue tokens filled) ≡ 0 }
{}

/// A pick leaves the differences among the filled queues as they are.
pub fn differences_stay()
    ensures { (tokens : List ℕ) (filled : List Bool) (j k : ℕ) → length tokens ≡ length filled → slice_get filled j ≡ Some true → slice_get filled k ≡ Some true → slice_index (tokens_after_pick tokens filled) j + slice_index tokens k ≡ slice_index (tokens_after_pick tokens filled) k + slice_index tokens j }
{}
