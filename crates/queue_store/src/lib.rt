//! The queues of a port: a ring buffer for each, whose memory is all taken when the store is made. It
//! stands on `qos_base`, and on `circular_buffer` for the rings.
//!
//! Contracts see the sizes of the queues and a list for each. A call changes its own queue alone; a packet
//! that finds its queue full is given back, and it is the very one that came.
#![tactic(auto)]

pub mod laws;
mod store;

pub use qos_base::TailFull;
pub use store::QueueStore;
