//! The queue of a ring under its rule. The types but `Line` are for contracts and proofs alone.
ghost use Rattle.std.specs.Prelude.{◌≡◌};
ghost use Rattle.stage_ring.specs.Line.{IsLine, first_known, after_push, Receives, MayHold, one_more, idle, one_made, new_sender, finished, with_met};

use crate::msg::{Msg, Posted};
use crossbeam_queue::RuledArrayQueue;
use crossbeam_queue::protocol::{Join, Lesson, Outcome, Protocol, Split};
use mbuf_pool::Mbuf;
use std::collections::LinkedList;

/// What an end of a ring knows, which exists in contracts alone: no value of it is made.
pub struct Known {
    /// How many senders the ring has.
    pub senders: u64,
    /// How many of them the inlet has made so far.
    pub made: u64,
    /// It is an outlet, which may send.
    pub sends: bool,
    /// It has sent its Fin.
    pub done: bool,
    /// Its number among the senders.
    pub from: u64,
    /// The parcels that it put, oldest first.
    pub parcels: LinkedList<Mbuf>,
    /// It is the inlet.
    pub takes: bool,
    /// What it took, oldest first.
    pub taken: LinkedList<Posted>,
    /// The senders that it met after their Fin, each with all that it put.
    pub met: LinkedList<(u64, LinkedList<Msg>)>,
}

pub(crate) struct InOrder;

pub(crate) type Line = RuledArrayQueue<Posted, Known, InOrder>;

impl Protocol<Posted, Known> for InOrder {
    ghost holds = { IsLine };

    ghost first = { first_known };
}

pub(crate) struct Post;

impl Outcome<Posted, Known> for Post {
    ghost then = { λ v x w. w ≡ after_push v x.msg };
}

impl Lesson<Posted, Known> for Post {
    ghost fact = { MayHold };
}

pub(crate) struct Receive;

impl Outcome<Posted, Known> for Receive {
    ghost then = { Receives };
}

impl Lesson<Posted, Known> for Receive {
    ghost fact = { MayHold };
}

// The inlet counts one more sender, before it makes the first.
pub(crate) struct OneMore;

impl Split<Known> for OneMore {
    ghost left = { one_more };

    ghost right = { λ _. idle };
}

// The inlet makes the next sender.
pub(crate) struct NewSender;

impl Split<Known> for NewSender {
    ghost left = { one_made };

    ghost right = { new_sender };
}

// A sender that has ended tells what it put.
pub(crate) struct Tell;

impl Split<Known> for Tell {
    ghost left = { λ v. v };

    ghost right = { finished };
}

// The inlet hears of it.
pub(crate) struct Hear;

impl Join<Known> for Hear {
    ghost both = { with_met };

    ghost spent = { idle };
}
