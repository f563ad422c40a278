//! Tables by code: what the scheduler does with a packet is one entry for each code that a packet
//! can carry. It stands on `qos_base` alone.
//!
//! It promises that a code has the last entry that was set for it, or else the entry that the table
//! was filled with, and it has the default table of the Differentiated Services code points.
#![tactic(auto)]

pub mod dscp;
mod entry;
mod table;

pub use entry::Entry;
pub use table::CodeTable;
