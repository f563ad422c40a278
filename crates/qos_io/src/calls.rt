//! Which calls of an object in memory fail, and how many did.
ghost use Rattle.std.specs.Prelude.{◌≡◌, ◌↔◌, IsTrue, Contains};
ghost use Rattle.std.specs.Bool.{OnTrue, OnFalse};
ghost use Rattle.qos_io.specs.Fault.{HasRisen};

use std::marker::Model;

/// The calls of one object, counted from 0.
#[derive(Debug, Drop)]
pub(crate) struct CallCounter {
    fails: Vec<u32>,
    made: u64,
    faults: u64,
}

impl Model for CallCounter {
    ghost use Rattle.qos_io.specs.Memory.{Calls};

    ghost Value = { Calls };

    ghost view = { λ a. record { fails = a.fails.items; made = a.made; faults = a.faults } };
}

impl CallCounter {
    ghost use Rattle.qos_io.specs.Memory.{FailsNext, no_calls, after_success, after_failure};

    /// No call was made yet, and those with the numbers in `fails` will fail.
    pub(crate) fn new(fails: Vec<u32>) -> CallCounter
        ensures { result ≡ no_calls fails.items }
    {
        CallCounter {
            fails,
            made: 0,
            faults: 0,
        }
    }

    /// Counts the next call, and tells whether it fails; then it counts the fault too.
    pub(crate) fn next_fails(&mut self) -> bool
        ensures listed { IsTrue result ↔ FailsNext self.old }
        ensures success { OnFalse result (self.new ≡ after_success self.old) }
        ensures failure { OnTrue result (self.new ≡ after_failure self.old) }
        ensures risen { OnTrue result (HasRisen self.old.faults self.new.faults) }
    {
        let fails = is_listed(&self.fails, self.made);
        self.made = self.made.saturating_add(1);
        if fails {
            self.faults = self.faults.saturating_add(1);
        }
        fails
    }
}

fn is_listed(numbers: &[u32], number: u64) -> bool
    ensures { IsTrue result ↔ Contains numbers.now number }
{
    numbers.iter().any(|listed| u64::from(*listed) == number)
}
