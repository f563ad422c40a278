//! The rings between the stages of the pipeline: several senders, one taker, no lock.
//!
//! It stands on `crossbeam_queue`, of which a ring is one queue for all its senders, and on `mbuf_pool`
//! for the parcels. It promises that nothing is lost, doubled or reordered: what was taken of each sender
//! is a first part of what it put, in its order, and its Fin is the last of it. Whoever holds the inlet
//! and what a sender has left learns this, and that it is the whole once every Fin was taken. A parcel or
//! an outlet that is refused comes back whole.
#![tactic(auto)]

mod inlet;
pub mod laws;
mod line;
mod make;
mod msg;
mod outlet;

pub use inlet::Inlet;
pub use line::Known;
pub use make::ring;
pub use msg::{Full, Msg, Posted};
pub use outlet::{Outlet, Sent};
