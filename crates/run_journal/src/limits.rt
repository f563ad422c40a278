//! The limits of a run.

/// The most packets that arrive at a port: 2,000,000,000 of each of 16 inputs.
pub const MAX_ARRIVALS: u64 = 32_000_000_000;
