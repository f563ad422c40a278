//! The files of outputs: all are created before anything is written into them, and all are closed in the end. It stands
//! on `qos_io` alone.
//!
//! It promises for each name what became of its file, whatever happened to the others: a sink was created or the shelf
//! counted that it could not be; the sink was closed, and what the file then holds.
#![tactic(auto)]

mod close;
mod create;

pub use close::close_all;
pub use create::create_all;
