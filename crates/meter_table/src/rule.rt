//! The rule of a meter's cell, and what its steps tell. These types are for contracts and proofs alone.
ghost use Rattle.meter_table.specs.Kept.{IsKept, Looks, Marks, Settles, blank, both_views, one_part, one_part_less, spent};

use crate::mark::Mark;
use atomic_table::{Join, Split};
use color_meter::Meter;
use crossbeam_utils::rule::{Outcome, Protocol};
use std::collections::LinkedList;

/// What a seat knows of a meter, which exists in contracts alone: no value of it is made.
pub struct View {
    /// Its parts of the cell, of which there are 48 in all.
    pub parts: u64,
    /// The meter's number and what it was when it began, once that is known.
    pub known: Option<(u32, Meter)>,
    /// The marks that it made, oldest first.
    pub marks: LinkedList<Mark>,
}

/// The rule of a meter's cell.
pub struct Kept;

impl Protocol<[u64; 12], View> for Kept {
    ghost holds = { IsKept };

    ghost first = { blank };
}

// The meter is set.
pub(crate) struct Settle;

impl Outcome<[u64; 12], View> for Settle {
    ghost then = { Settles };
}

pub(crate) struct Look;

impl Outcome<[u64; 12], View> for Look {
    ghost then = { Looks };
}

pub(crate) struct Enter;

impl Outcome<[u64; 12], View> for Enter {
    ghost then = { Marks };
}

// A new seat takes one part.
pub(crate) struct OnePart;

impl Split<View> for OnePart {
    ghost left = { one_part_less };

    ghost right = { one_part };
}

// All that a pass knows goes to a new one, which then holds nothing else.
pub(crate) struct Whole;

impl Split<View> for Whole {
    ghost left = { λ _. spent };

    ghost right = { λ v. v };
}

pub(crate) struct Both;

impl Join<View> for Both {
    ghost both = { both_views };

    ghost spent = { spent };
}
