//! The limit of an input.

/// The most records of an input that are read.
pub const MAX_RECORDS: u32 = 2_000_000_000;
