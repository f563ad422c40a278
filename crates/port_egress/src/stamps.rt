//! The stamps of what a port sends.
ghost use Rattle.std.specs.Prelude.{◌≡◌, ◌*◌, ◌/◌, ◌^◌};
ghost use Rattle.qos_base.specs.Time.{IsLineRate};

use qos_base::{LAST_STAMP, NANOSECONDS};

/// 2 to this is more than any line's rate, and 10^9 times it still fits 64 bits.
const BITS: u32 = 34;

/// What the stamps of a port's output are worked out from. Its line's time for a byte is kept, so that no stamp
/// takes a long division.
#[derive(Clone, Copy)]
pub struct Stamps {
    /// The origin, in nanoseconds.
    pub origin: u64,
    /// The rate of the port's line, in bytes per second.
    pub line: u64,
    /// How many nanoseconds the line takes for 2^34 bytes.
    pub scale: u64,
    ghost rate: { IsLineRate line },
    ghost scaled: { scale ≡ 1000000000 * 2 ^ 34 / line },
}

impl Stamps {
    ghost use Rattle.std.specs.Prelude.{◌<◌};
    ghost use Rattle.qos_base.specs.Time.{send_stamp_of};

    /// The stamps of a port with this line, in bytes per second, after this origin, in nanoseconds.
    pub fn new(origin: u64, line: u64) -> Stamps
        requires { IsLineRate line }
        ensures origin { result.origin ≡ origin }
        ensures line { result.line ≡ line }
    {
        Stamps {
            origin,
            line,
            scale: (NANOSECONDS << BITS) / line,
        }
    }

    /// The stamp of a packet that is sent at `time`, in byte times of the line: the origin and as many nanoseconds as
    /// the line takes for `time` bytes, but at most the last that a record can carry.
    pub fn of(&self, time: u64) -> u64
        ensures { result ≡ send_stamp_of self.now.origin time self.now.line }
    {
        let seconds = time / self.line;
        let rest = time % self.line;
        seconds
            .saturating_mul(NANOSECONDS)
            .saturating_add(self.nanoseconds(rest))
            .saturating_add(self.origin)
            .min(LAST_STAMP)
    }

    // The whole nanoseconds that the line takes for these bytes, fewer than it carries in a second.
    fn nanoseconds(&self, bytes: u64) -> u64
        requires { bytes < self.now.line }
        ensures { result ≡ bytes * 1000000000 / self.now.line }
    {
        let guess = (bytes * self.scale) >> BITS;
        let rest = bytes * NANOSECONDS - guess * self.line;
        if rest < self.line { guess } else { guess + 1 }
    }
}
