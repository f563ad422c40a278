//! A port and its output: the packets that arrive at a port, one after another, and the records of those that it sends.
//! It stands on `run_journal` for the port and on `pkt_slots` for packets in slots.
//!
//! It promises that the journal of a port is the paced journal of the packets that arrived, and that the output holds the
//! records of the journal's sends, each with the bytes of its own packet, as far as its sink took them.
#![tactic(auto)]

mod egress;
pub mod laws;
mod send;
mod stamps;

pub use egress::{Egress, Finished};
pub use send::Sender;
pub use stamps::Stamps;
