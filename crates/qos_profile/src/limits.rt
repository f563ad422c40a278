//! The limit of a profile's text.

/// The longest text, in bytes.
pub const MAX_TEXT: usize = 1_048_576;
