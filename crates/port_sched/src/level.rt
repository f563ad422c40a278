//! What a subport and a pipe both have: a token bucket and the credits of thirteen classes.
ghost use Rattle.std.specs.Prelude.{◌≡◌, ◌+◌, ◌≤◌, ◌<◌, ◌^◌, ◌↔◌, IsTrue};
ghost use Rattle.profile_plan.specs.Limits.{IsWhole};
ghost use Rattle.port_sched.specs.Level.{level_start, level_tick, level_renewed, level_paid, allowance, used, is_due};
ghost use Rattle.port_sched.specs.Renewal.{used_above};
ghost use Rattle.port_sched.specs.Books.{level_of, level_up_to, IsLevelBooks};
ghost use Rattle.port_sched.specs.Brought.{level_brought};

use credit_book::{Bucket, ClassCredits};
use profile_plan::Whole;
use qos_base::Steps;
use std::sync::ledger::Ledger;

/// The best effort class.
pub(crate) const BEST_EFFORT: usize = 12;

/// The credits of a subport or of a pipe.
#[derive(Clone, Copy, Debug)]
pub(crate) struct LevelBooks {
    pub(crate) bucket: Bucket,
    pub(crate) classes: ClassCredits,
}

impl LevelBooks {
    pub(crate) fn new(plan: &Whole) -> LevelBooks
        requires { IsWhole plan.now }
        ensures start { level_up_to 0 result ≡ level_start plan.now }
        ensures sound { IsLevelBooks 0 result }
    {
        LevelBooks {
            bucket: Bucket::new(plan.tb_size, plan.tb_credits, plan.tb_period),
            classes: ClassCredits::new(plan.tc_credits, plan.tc_period),
        }
    }

    // Brings the bucket up to a moment.
    pub(crate) fn bring<L: Ledger>(&mut self, time: u64, steps: &mut Steps<L>)
        requires not_ahead { self.old.bucket.time ≤ time }
        requires time { time ≤ 2 ^ 63 }
        ensures exact { self.new ≡ level_brought time self.old }
        ensures step { steps.new ≡ steps.old + 1 }
    {
        self.bucket.bring(time, steps);
    }

    // Whether the class credits are to be renewed at a moment.
    pub(crate) fn is_due(&self, time: u64) -> bool
        ensures { result ≡ is_due time (level_of self.now) }
    {
        self.classes.due_at(time)
    }

    // Renews the class credits where that is due at a moment, and tells whether it was.
    pub(crate) fn renew<L: Ledger>(&mut self, time: u64, steps: &mut Steps<L>) -> bool
        requires { time ≤ 2 ^ 63 }
        ensures due { result ≡ is_due time (level_of self.old) }
        ensures exact { level_of self.new ≡ level_renewed time (level_of self.old) }
        ensures ahead { time < self.new.classes.due }
        ensures bucket { self.new.bucket ≡ self.old.bucket }
        ensures step { steps.new ≡ steps.old + 1 }
    {
        self.classes.bring(time, steps)
    }

    // What the classes above best effort have used since the last renewal.
    pub(crate) fn used_above(&self) -> u64
        ensures exact { result ≡ used_above (level_of self.now) }
        ensures limit { result ≤ 2 ^ 44 }
    {
        let mut total = 0;
        for class in 0..BEST_EFFORT {
            total += self.classes.used(class);
        }
        total
    }

    // Whether a packet of a class fits the bucket and the class credits.
    pub(crate) fn fits(&self, class: usize, cost: u64) -> bool
        requires { class ≤ 12 }
        ensures { IsTrue result ↔ (cost ≤ allowance class (level_of self.now)) }
    {
        self.bucket.fits(cost) && self.classes.fits(class, cost)
    }

    // The bucket and the class pay for a packet that fits.
    pub(crate) fn pay(&mut self, class: usize, cost: u64)
        requires class { class ≤ 12 }
        requires fits { cost ≤ allowance class (level_of self.old) }
        ensures exact { level_of self.new ≡ level_paid class cost (level_of self.old) }
        ensures time { self.new.bucket.time ≡ self.old.bucket.time }
    {
        self.bucket.pay(cost);
        self.classes.pay(class, cost);
    }
}
