//! What a command ends with, and the report of it. It stands on `run_journal` for ports, on `meter_table` for the logs of
//! meters and on `qos_profile` for the faults of a profile.
//!
//! It promises that what the report's sink takes is the report of the returned value, line by line, or a first part of it
//! where the sink refused.
#![tactic(auto)]

mod ended;
mod input;
mod lines;
mod meter;
mod port;
mod report;
mod status;
mod text;

pub use ended::{Ended, InputEnd, Note};
pub use report::{put_memory, put_report};
pub use status::Status;
