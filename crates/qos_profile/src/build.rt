//! The profile that the sections of a text say, part by part.
pub mod code;
pub mod kind;
pub mod meter;
pub mod plan;
pub mod pool;
pub mod port;
pub mod rule;
pub mod shaping;
pub mod subport;
