//! The numbers of the keys that a section of the pool or of a port may leave out.

/// The slots of the pool.
pub(crate) const SLOTS: u64 = 65_536;

/// The bytes of a slot.
pub(crate) const SLOT_BYTES: u64 = 2_048;

/// The packets that a ring between two stages holds.
pub(crate) const RING_SIZE: u64 = 8_192;

/// The bytes of the line that a frame takes beside its own.
pub(crate) const FRAME_OVERHEAD: u64 = 24;

/// The longest frame that a port sends, in bytes.
pub(crate) const MTU: u64 = 1_522;

/// The most packets of one dequeue.
pub(crate) const BURST: u64 = 32;

/// The longest step of a port's clock while packets wait, in byte times of the line.
pub(crate) const QUANTUM: u64 = 65_536;

/// How long a port goes on after the last arrival, in milliseconds.
pub(crate) const DRAIN_MS: u64 = 1_000;
