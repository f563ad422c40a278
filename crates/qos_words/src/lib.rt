//! The words of the command line, and the names of the captures that a run creates.
//!
//! It stands on `qos_base` for the answer to want of memory. It promises that the words ask for a run exactly
//! where they are `run --profile FILE --out PREFIX CAPTURE`, with the options in either order, and that the
//! outputs of the ports have names of their own.
#![tactic(auto)]

pub mod laws;
mod names;
mod words;

pub use names::output_names;
pub use words::{RunWords, read_words};
