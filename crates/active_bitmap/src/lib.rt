//! Which queues or pipes hold a packet: one bit each, in two levels of 64-bit words, so that the next
//! active one is found in a few probes. It stands on `qos_base` alone, for the answer for want of
//! memory and the counter of steps.
//!
//! Contracts see a list of truth values. It promises the set bit at the least distance ahead of a
//! place, going round, in at most 20 probes, each counted as a step. No call after `new` takes memory.
#![tactic(auto)]

mod bitmap;
pub mod laws;
mod words;

pub use bitmap::{ActiveBitmap, MAX_BITS, MAX_PROBES};
