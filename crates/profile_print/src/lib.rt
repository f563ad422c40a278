//! The canonical text of a profile, which says every section and every key, and which is read back as the
//! same profile.
//!
//! It stands on `profile_plan` for what a profile says and on `profile_lines` for what a line is. It promises
//! the exact text.
#![tactic(auto)]

mod codes;
pub mod laws;
mod meter;
mod port;
mod profile;
mod rule;
mod shaping;
mod subport;
mod text;

pub use profile::profile_text;
