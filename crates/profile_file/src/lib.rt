//! A profile from a file of a shelf.
//!
//! It stands on `qos_io` for files and on `qos_profile` for what a text says. It promises that a file whose bytes
//! are told is answered by the profile that these bytes say, or by their first fault, and it says when a file is
//! not read.
#![tactic(auto)]

mod fault;
mod load;
mod text;

pub use fault::LoadFault;
pub use load::load_profile;
