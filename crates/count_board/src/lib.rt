//! Counters that threads share: a board of words, to which each thread adds by a seat of its own.
//!
//! It stands on `atomic_table` for the words and their steps. It promises that nothing that was added
//! is lost: a seat's look at a word answers at least what that seat has added there and last saw there,
//! and whoever closes the board with all seats has in each word the sum of what the seats added to it.
//! No call waits and there is no lock: adding and looking are one atomic step each.
#![tactic(auto)]

mod board;
pub mod laws;
mod plays;
mod seat;

pub use board::CountBoard;
pub use seat::{BoardSeat, Tally};
