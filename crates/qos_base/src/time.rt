//! Nanoseconds, byte times of a line, and stamps.
ghost use Rattle.std.specs.Prelude.{◌≡◌, ◌≤◌, ◌^◌};
ghost use Rattle.qos_base.specs.Time.{IsLineRate, byte_time_of, send_stamp_of};

/// Nanoseconds in a second.
pub const NANOSECONDS: u64 = 1_000_000_000;

/// The least rate of a line, in bytes per second.
pub const MIN_LINE: u64 = 1_000_000;

/// The greatest rate of a line, in bytes per second.
pub const MAX_LINE: u64 = 12_500_000_000;

/// The greatest moment of a packet, in nanoseconds since the origin: 2^50.
pub const MAX_MOMENT: u64 = 1 << 50;

/// The greatest stamp that a record can carry, in nanoseconds: 2^32 - 1 seconds and a fraction.
pub const LAST_STAMP: u64 = 4_294_967_295_999_999_999;

/// The byte time of a moment: how many whole bytes a line carries in `ns` nanoseconds.
///
/// `line` is in bytes per second. The product is taken in two parts, which both fit 64 bits.
pub fn byte_time(ns: u64, line: u64) -> u64
    requires moment { ns ≤ 2 ^ 50 }
    requires line { IsLineRate line }
    ensures { result ≡ byte_time_of ns line }
{
    let seconds = ns / NANOSECONDS;
    let rest = ns % NANOSECONDS;
    seconds * line + rest * line / NANOSECONDS
}

/// The stamp of a packet that is sent at `time`: `origin` and as many nanoseconds as the line takes for
/// `time` bytes, but at most [`LAST_STAMP`].
///
/// `time` is in byte times, `line` in bytes per second, `origin` and the stamp in nanoseconds.
pub fn send_stamp(origin: u64, time: u64, line: u64) -> u64
    requires { IsLineRate line }
    ensures { result ≡ send_stamp_of origin time line }
{
    let seconds = time / line;
    let rest = time % line;
    seconds
        .saturating_mul(NANOSECONDS)
        .saturating_add(rest * NANOSECONDS / line)
        .saturating_add(origin)
        .min(LAST_STAMP)
}
