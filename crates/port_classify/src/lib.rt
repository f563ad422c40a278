//! Where a frame goes: what its first bytes say, and the place that the least rule of a profile that matches
//! gives it. It stands on `profile_plan` and `code_table`, and reads numbers by `byteorder`.
//!
//! It promises the exact frame of some bytes by the places of its fields, the exact place of a frame, and that
//! a place is there in the profile. No call takes memory or copies a frame's bytes.
#![tactic(auto)]

mod carried;
mod destination;
mod fields;
mod frame;
pub mod laws;
mod looking;
mod matching;
mod placing;
mod tags;

pub use destination::Place;
pub use frame::{Frame, Unparsed};
pub use looking::look;
pub use placing::place;
pub use profile_plan::Proto;
