//! Token buckets.
ghost use Rattle.std.specs.Prelude.{◌≡◌, ◌+◌, ◌*◌, ◌/◌, ◌^◌, ◌≤◌, ◌↔◌, IsTrue};
ghost use Rattle.credit_book.specs.Bucket.{TokenBucket, IsTokenBucket, new_bucket, bucket_at, multiples, after_periods, paid};

use qos_base::Steps;
use std::marker::Model;
use std::sync::ledger::Ledger;

/// A token bucket of a subport or a pipe (Programmer's Guide, Quality of Service Framework, credits
/// of the hierarchical scheduler).
///
/// Size, credits and costs are in bytes, times in byte times of the line.
#[derive(Clone, Copy, Debug)]
pub struct Bucket {
    size: u64,
    per_period: u64,
    period: u64,
    time: u64,
    credits: u64,
}

impl Model for Bucket {
    ghost use Rattle.credit_book.specs.Bucket.{TokenBucket, IsTokenBucket};

    ghost Value = { TokenBucket };

    ghost view = { λ b. record { size = b.size; per_period = b.per_period; period = b.period; time = b.time; credits = b.credits } };

    ghost inverse = { λ b. record { size = b.size; per_period = b.per_period; period = b.period; time = b.time; credits = b.credits } };

    ghost invariant = { λ b. IsTokenBucket (record { size = b.size; per_period = b.per_period; period = b.period; time = b.time; credits = b.credits }) };
}

impl Bucket {
    /// A bucket of this size that earns `credits` each period, half full (rounded down), at time 0.
    ///
    /// `size` and `credits` are 0 to 2^40 bytes, `period` is 1 to 2^40 byte times.
    pub fn new(size: u64, credits: u64, period: u64) -> Bucket
        requires size { size ≤ 2 ^ 40 }
        requires credits { credits ≤ 2 ^ 40 }
        requires some_period { 1 ≤ period }
        requires period { period ≤ 2 ^ 40 }
        ensures { result ≡ new_bucket size credits period }
    {
        Bucket {
            size,
            per_period: credits,
            period,
            time: 0,
            credits: size / 2,
        }
    }

    /// Brings the bucket up to `time`: it earns its credits for each whole period since its own time,
    /// never above its size, and its own time moves on by those periods. Counts one step.
    ///
    /// `time` is at most 2^63 and not below the bucket's time. The bucket's time is from then on the
    /// last multiple of its period that is not past `time`.
    pub fn bring<L: Ledger>(&mut self, time: u64, steps: &mut Steps<L>)
        requires not_past { self.old.time ≤ time }
        requires time { time ≤ 2 ^ 63 }
        ensures exact { self.new ≡ bucket_at time self.old }
        ensures stepwise { let periods = multiples self.old.period self.old.time time in
            self.new.credits ≡ after_periods self.old.size self.old.per_period periods self.old.credits }
        ensures time { self.new.time ≡ self.old.period * (time / self.old.period) }
        ensures not_ahead { self.new.time ≤ time }
        ensures step { steps.new ≡ steps.old + 1 }
    {
        steps.tick();
        let ahead = time - self.time;
        if ahead >= self.period {
            let periods = self.periods_in(ahead);
            self.time += periods * self.period;
            self.credits = periods
                .saturating_mul(self.per_period)
                .saturating_add(self.credits)
                .min(self.size);
        }
    }

    // How many whole periods so many byte times have. The bucket of a whole line has a period of one, and takes no division.
    fn periods_in(&self, ahead: u64) -> u64
        ensures { result ≡ ahead / self.now.period }
    {
        if self.period == 1 {
            ahead
        } else {
            ahead / self.period
        }
    }

    /// The credits that are there, in bytes; at most the size. The bucket's time is a multiple of its
    /// period.
    pub fn credits(&self) -> u64
        ensures exact { result ≡ self.now.credits }
        ensures within { result ≤ self.now.size }
        ensures sound { IsTokenBucket self.now }
    {
        self.credits
    }

    /// Whether a packet of this cost, in bytes, fits the credits that are there.
    pub fn fits(&self, cost: u64) -> bool
        ensures { IsTrue result ↔ (cost ≤ self.now.credits) }
    {
        cost <= self.credits
    }

    /// Takes the cost of a packet, in bytes, from the credits. The cost fits ([`Bucket::fits`]).
    pub fn pay(&mut self, cost: u64)
        requires { cost ≤ self.old.credits }
        ensures { self.new ≡ paid cost self.old }
    {
        self.credits -= cost;
    }
}
