//! The limits of a profile that several parts of the program share.

/// The most slots of the pool.
pub const MAX_SLOTS: u64 = 1_048_576;

/// The most bytes of one slot.
pub const MAX_SLOT_BYTES: u64 = 262_144;

/// The most bytes of all slots together, 2^31.
pub const MAX_POOL_BYTES: u64 = 2_147_483_648;

/// The greatest `mtu` of a port, in bytes of a frame.
pub const MAX_MTU: u64 = 262_144;

/// The most packets of one queue.
pub const MAX_QUEUE: u64 = 65_536;

/// The most packets of all queues of all ports together.
pub const MAX_QUEUED: u64 = 4_194_304;

/// The most pipes of one subport.
pub const MAX_SUBPORT_PIPES: u64 = 4_096;

/// The most pipes of all subports together.
pub const MAX_PIPES: u64 = 65_536;

/// The most meters.
pub const MAX_METERS: u64 = 64;
