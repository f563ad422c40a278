//! Receive: the records of an input, one after another, each to its packet in a slot or to the reason for which it is
//! lost. It stands on `qos_pcap` for the records, on `port_classify` for the place of a frame, on `meter_table` for its
//! colour, and on `pkt_slots` and `profile_plan`.
//!
//! It promises that what is received are the records of the input's bytes in their order, each with the fate that its
//! profile and the colour of its mark give it, that each record that reaches a meter is marked once and no other, and that
//! the slot of an admitted packet holds the record's body.
#![tactic(auto)]

mod classify;
mod fate;
pub mod laws;
mod limits;
mod losses;
mod marker;
mod receive;

pub use classify::Classified;
pub use fate::Fate;
pub use limits::MAX_RECORDS;
pub use losses::Losses;
pub use marker::Marker;
pub use receive::{Received, Receiver, open_input};
