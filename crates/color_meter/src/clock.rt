//! The pace of a bucket.
ghost use Rattle.std.specs.Prelude.{◌≡◌, ◌+◌, ◌-◌, ◌*◌, ◌/◌, ◌^◌, ◌≤◌, min};
ghost use Rattle.color_meter.specs.Clock.{clock_of, ticked};
ghost use Rattle.color_meter.specs.Drip.{rate_of};
ghost use Rattle.color_meter.specs.Meter.{IsRate};
ghost use Rattle.profile_plan.specs.Limits.{IsMeterRate};

use profile_plan::MeterRate;

/// How many bytes a rate brings in each period of so many nanoseconds, and the end of the last period that was
/// counted. Where a rate brings none, no period is.
#[derive(Clone, Copy, Debug)]
pub struct Clock {
    pub bytes: u64,
    pub period: u64,
    pub time: u64,
}

impl Clock {
    /// A clock at time 0.
    pub fn new(rate: MeterRate) -> Clock
        requires { IsMeterRate rate }
        ensures exact { result ≡ clock_of (rate_of rate) 0 }
        ensures within { IsRate (rate_of rate) }
    {
        let (bytes, period) = rate.periods();
        Clock {
            bytes,
            period,
            time: 0,
        }
    }

    /// Counts the whole periods up to a moment, and answers their bytes, at most 2^64 - 1.
    pub fn tick(&mut self, at: u64) -> u64
        requires some_period { 1 ≤ self.old.period }
        requires later { self.old.time ≤ at }
        ensures exact { self.new ≡ ticked at self.old }
        ensures tokens { result ≡ min (2 ^ 64 - 1) ((at - self.old.time) / self.old.period * self.old.bytes) }
    {
        if self.bytes == 0 {
            return 0;
        }
        let ahead = at - self.time;
        if ahead < self.period {
            return 0;
        }
        let periods = ahead / self.period;
        self.time += periods * self.period;
        periods.saturating_mul(self.bytes)
    }

    /// The same clock at another time.
    pub fn at(&self, time: u64) -> Clock
        ensures { result ≡ record self.now { time = time } }
    {
        Clock { time, ..*self }
    }
}
