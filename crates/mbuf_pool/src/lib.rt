//! The pool of packet slots that threads share: a free list of slots and a count of the free ones.
//!
//! It stands on `crossbeam_queue` for the free list and on `atomic_table` for the count. It promises
//! that a slot is never lost and never doubled: at every moment the free slots with all slots ever taken
//! are the first slots with all slots ever given, as often each; that a pass is turned away only where
//! the count was 0 at one moment of the call; and that then all passes together have taken at least as
//! many slots as there are. There is no lock, and a slot's bytes are moved and never copied.
#![tactic(auto)]

mod count;
mod free_list;
pub mod laws;
mod mbuf;
mod pass;
mod plays;
mod pool;

pub use mbuf::Mbuf;
pub use pass::{Count, PoolPass, Slots};
pub use pool::{Pool, PoolEnd};
