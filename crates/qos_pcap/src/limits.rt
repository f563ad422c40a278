//! The limit of a record's captured bytes.

/// The greatest captured length of a record, in bytes: a longer one is a fault of the capture (libpcap's MAXIMUM_SNAPLEN).
pub const MAX_CAP: u32 = 262_144;
