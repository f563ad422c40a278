//! The rules of the free list and of the count, and what their steps tell. These types are for contracts
//! and proofs alone.
ghost use Rattle.mbuf_pool.specs.FreeList.{new_slots, IsFreeList, Makes, Takes, Gives, Free, one_part_less, one_part, both_slots, no_slots};
ghost use Rattle.mbuf_pool.specs.FreeCount.{new_count, IsFreeCount, Looks, Lowers, Raises, one_count_less, both_counts};

use crate::mbuf::Mbuf;
use crate::pass::{Count, Slots};
use atomic_table::{Join, Play, Split, TableRule};
use crossbeam_queue::RuledArrayQueue;
use crossbeam_queue::protocol::{Lesson, Outcome, Protocol};

pub(crate) struct FreeList;

pub(crate) type FreeQueue = RuledArrayQueue<Mbuf, Slots, FreeList>;

impl Protocol<Mbuf, Slots> for FreeList {
    ghost holds = { IsFreeList };

    ghost first = { new_slots };
}

pub(crate) struct Make;

impl Outcome<Mbuf, Slots> for Make {
    ghost then = { Makes };
}

pub(crate) struct Take;

impl Outcome<Mbuf, Slots> for Take {
    ghost then = { Takes };
}

pub(crate) struct Give;

impl Outcome<Mbuf, Slots> for Give {
    ghost then = { Gives };
}

pub(crate) struct Total;

impl Lesson<Mbuf, Slots> for Total {
    ghost fact = { Free };
}

// A new pass takes one part.
pub(crate) struct OnePart;

impl Split<Slots> for OnePart {
    ghost left = { one_part_less };

    ghost right = { one_part };
}

impl Split<Count> for OnePart {
    ghost left = { one_count_less };

    ghost right = { λ _. new_count 1 };
}

pub(crate) struct Both;

impl Join<Slots> for Both {
    ghost both = { both_slots };

    ghost spent = { no_slots };
}

impl Join<Count> for Both {
    ghost both = { both_counts };

    ghost spent = { new_count 0 };
}

// The rule reads how many slots there are.
pub(crate) struct FreeCount;

impl TableRule<u8, Count, u64> for FreeCount {
    ghost holds = { IsFreeCount };

    ghost first = { λ _. new_count 48 };
}

pub(crate) struct Look;

impl Play<u8, Count> for Look {
    ghost then = { Looks };
}

pub(crate) struct Lower;

impl Play<u8, Count> for Lower {
    ghost then = { Lowers };
}

pub(crate) struct Raise;

impl Play<u8, Count> for Raise {
    ghost then = { Raises };
}
