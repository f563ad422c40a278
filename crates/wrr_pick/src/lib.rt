//! Weighted round robin over the four best effort queues of a pipe: which of them sends next. It stands on
//! `qos_base` alone.
//!
//! It promises the exact queue and tokens of each pick, that no sum of tokens wraps, and that a picked
//! queue is filled and has no tokens left. No call takes memory.
#![tactic(auto)]

pub mod laws;
mod multiple;
mod pick;
mod wrr;

pub use wrr::{MAX_COST, QUEUES, Wrr};
