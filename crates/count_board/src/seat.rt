//! What a thread holds of a board.
ghost use Rattle.std.specs.Prelude.{◌≡◌, ℕ, ◌<◌, []};

use atomic_table::Seat;
use std::collections::LinkedList;

/// What a seat knows, which exists in contracts alone: no value of it is made.
pub struct Tally {
    /// Its parts of the board, of which there are 48 in all.
    pub parts: u64,
    /// What it added, each number with its word, oldest first.
    pub added: LinkedList<(u64, u64)>,
    /// What it saw, each number with its word, oldest first.
    pub seen: LinkedList<(u64, u64)>,
}

/// A thread's right to add to a board and to look at it. It has no bytes.
#[derive(Drop)]
pub struct BoardSeat {
    pub(crate) seat: Seat<u8, Tally>,
    ghost holds_no_slot: { seat.me.1 ≡ [] },
    ghost has_a_part: { 0 < seat.me.0.parts },
}
