//! The board's rule, and what its steps tell. These types are for contracts and proofs alone.
ghost use Rattle.count_board.specs.Tally.{tally, new_tally, IsKept, Adds, Looks};

use crate::seat::Tally;
use atomic_table::{Join, Play, Split, TableRule};

// The rule reads how many words the board has.
pub(crate) struct Sums;

impl TableRule<u8, Tally, usize> for Sums {
    ghost holds = { IsKept };

    ghost first = { λ _. new_tally 48 };
}

pub(crate) struct Add;

impl Play<u8, Tally> for Add {
    ghost then = { Adds };
}

pub(crate) struct Look;

impl Play<u8, Tally> for Look {
    ghost then = { Looks };
}

// A new seat takes one part.
pub(crate) struct OnePart;

impl Split<Tally> for OnePart {
    ghost use Rattle.count_board.specs.Tally.{new_tally, one_part_less};

    ghost left = { one_part_less };

    ghost right = { λ _. new_tally 1 };
}

pub(crate) struct Both;

impl Join<Tally> for Both {
    ghost use Rattle.count_board.specs.Tally.{new_tally, both_tallies};

    ghost both = { both_tallies };

    ghost spent = { new_tally 0 };
}
