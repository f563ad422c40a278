//! The credits of the hierarchical scheduler: token buckets, the credits of the traffic classes, and
//! the watermark of an oversubscribed subport. It stands on `qos_base` alone, for the counter of steps.
//!
//! It promises the exact numbers after each call, that no number wraps within the limits, and that
//! bringing credits up to a moment counts one step. No call takes memory.
#![tactic(auto)]

mod bucket;
mod classes;
pub mod laws;
mod watermark;

pub use bucket::Bucket;
pub use classes::ClassCredits;
pub use watermark::Watermark;
