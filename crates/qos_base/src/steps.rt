//! A counter of steps, for bounds on the work that a call does.
ghost use Rattle.std.specs.Prelude.{◌≡◌, ◌+◌, ◌<◌, ℕ};

use std::marker::Model;
use std::sync::ledger::{Blank, Book, Ledger, Share};

/// How many steps were taken. It takes no bytes and costs nothing when the program runs; only
/// [`Steps::tick`] changes it.
#[derive(Drop)]
pub struct Steps<L: Ledger> {
    total: Book<L>,
    mine: Share<L>,
}

impl<L: Ledger> Model for Steps<L> {
    ghost use Rattle.std.specs.Prelude.{ℕ, ◌<◌};

    ghost Value = { ℕ };

    ghost view = { λ s. s.total.total };

    ghost invariant = { λ s. 0 < s.mine.parts };
}

impl<L: Ledger> Steps<L> {
    /// A counter at 0, on a ledger that nothing has counted in.
    pub fn new(blank: Blank) -> Steps<L>
        requires name { blank.name ≡ L.name }
        requires parts { blank.parts ≡ L.parts }
        requires some { 0 < L.parts }
        ensures { result ≡ 0 }
    {
        let (total, mine) = blank.open();
        Steps { total, mine }
    }

    /// Counts one step.
    pub fn tick(&mut self)
        ensures { self.new ≡ self.old + 1 }
    {
        self.total.add(&mut self.mine, 1);
    }
}
