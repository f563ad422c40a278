//! The credits of the traffic classes.
ghost use Rattle.std.specs.Prelude.{◌≡◌, ◌≢◌, ◌+◌, ◌-◌, ◌^◌, ◌≤◌, ◌<◌, ◌↔◌, ℕ, IsTrue, slice_index};
ghost use Rattle.credit_book.specs.Classes.{TrafficClasses, new_classes, classes_brought, credits_of, used_of, class_paid};

use qos_base::Steps;
use std::marker::Model;
use std::sync::ledger::Ledger;

/// How many traffic classes there are: 0 to 11, and best effort.
const CLASSES: usize = 13;

/// The credits of the thirteen traffic classes of a subport or a pipe, which are renewed as a whole once
/// a period (Programmer's Guide, Quality of Service Framework, credits of the traffic classes).
///
/// Credits and costs are in bytes, times in byte times of the line. Class 12 is best effort.
#[derive(Clone, Copy, Debug)]
pub struct ClassCredits {
    whole: [u64; CLASSES],
    period: u64,
    due: u64,
    credits: [u64; CLASSES],
}

impl Model for ClassCredits {
    ghost use Rattle.credit_book.specs.Classes.{TrafficClasses, IsTrafficClasses};

    ghost Value = { TrafficClasses };

    ghost view = { λ c. record { whole = c.whole; period = c.period; due = c.due; credits = c.credits } };

    ghost inverse = { λ c. record { whole = c.whole; period = c.period; due = c.due; credits = c.credits } };

    ghost invariant = { λ c. IsTrafficClasses (record { whole = c.whole; period = c.period; due = c.due; credits = c.credits }) };
}

impl ClassCredits {
    /// Classes that have these whole credits each period, whole now; the first renewal is due at one
    /// period.
    ///
    /// Credits are 0 to 2^40 bytes each, `period` is 1 to 2^40 byte times.
    pub fn new(credits: [u64; 13], period: u64) -> ClassCredits
        requires credits { (k : ℕ) → k < 13 → slice_index credits k ≤ 2 ^ 40 }
        requires some_period { 1 ≤ period }
        requires period { period ≤ 2 ^ 40 }
        ensures { result ≡ new_classes credits period }
    {
        ClassCredits {
            whole: credits,
            period,
            due: period,
            credits,
        }
    }

    /// Renews every class's credits where the renewal is due at `time`, and answers whether it was: true
    /// exactly where `time` is not below the due time. The next renewal is then due one period after
    /// `time`. Counts one step.
    ///
    /// `time` is at most 2^63.
    pub fn bring<L: Ledger>(&mut self, time: u64, steps: &mut Steps<L>) -> bool
        requires { time ≤ 2 ^ 63 }
        ensures renewed { IsTrue result ↔ (self.old.due ≤ time) }
        ensures exact { self.new ≡ classes_brought time self.old }
        ensures ahead { time < self.new.due }
        ensures step { steps.new ≡ steps.old + 1 }
    {
        steps.tick();
        let due = self.due_at(time);
        if due {
            self.credits = self.whole;
            self.due = time + self.period;
        }
        due
    }

    /// Whether a renewal is due at `time`.
    pub fn due_at(&self, time: u64) -> bool
        ensures { IsTrue result ↔ (self.now.due ≤ time) }
    {
        self.due <= time
    }

    /// The credits that a class, 0 to 12, has in bytes.
    pub fn credits(&self, class: usize) -> u64
        requires { class ≤ 12 }
        ensures exact { result ≡ credits_of class self.now }
        ensures within { result ≤ slice_index self.now.whole class }
        ensures limit { result ≤ 2 ^ 40 }
    {
        self.credits[class]
    }

    /// What a class, 0 to 12, has used of its whole credits since the last renewal, in bytes.
    pub fn used(&self, class: usize) -> u64
        requires { class ≤ 12 }
        ensures exact { result ≡ used_of class self.now }
        ensures rest { result + credits_of class self.now ≡ slice_index self.now.whole class }
        ensures limit { result ≤ 2 ^ 40 }
    {
        self.whole[class] - self.credits[class]
    }

    /// Whether a packet of this cost, in bytes, fits the credits of a class, 0 to 12.
    pub fn fits(&self, class: usize, cost: u64) -> bool
        requires { class ≤ 12 }
        ensures { IsTrue result ↔ (cost ≤ credits_of class self.now) }
    {
        cost <= self.credits[class]
    }

    /// Takes the cost of a packet, in bytes, from the credits of a class, 0 to 12. The cost fits
    /// ([`ClassCredits::fits`]).
    pub fn pay(&mut self, class: usize, cost: u64)
        requires class { class ≤ 12 }
        requires cost { cost ≤ credits_of class self.old }
        ensures exact { self.new ≡ class_paid class cost self.old }
        ensures paid { credits_of class self.new ≡ credits_of class self.old - cost }
        ensures others { (k : ℕ) → k ≢ class → credits_of k self.new ≡ credits_of k self.old }
    {
        self.credits[class] -= cost;
    }
}
