//! Which of four best effort queues is next.
use crate::check::same;
use std::process::Abort;
use wrr_pick::{MAX_COST, QUEUES, Wrr, laws};

const TURNS: [usize; 11] = [0, 1, 2, 3, 3, 2, 3, 3, 1, 2, 3];

fn takes_turn(rt: &impl Abort, wrr: &mut Wrr, expected: usize) {
    let queue = wrr.pick([true; QUEUES]);
    same(rt, &queue, &expected, "turn");
    wrr.charge(queue, 1);
}

// Four queues that are always filled, each sending packets of cost 1, in proportion to their weights.
#[test]
fn filled_queues_take_turns_by_weight(rt: HostRuntime) {
    let mut wrr = Wrr::new([1, 2, 4, 8]);
    same(&rt, &wrr.factors(), &[8, 4, 2, 1], "factors");
    for expected in TURNS {
        takes_turn(&rt, &mut wrr, expected);
    }
}

// Weights without a common divisor, and the greatest four.
#[test]
fn factors_are_those_of_the_least_common_multiple(rt: HostRuntime) {
    let equal = Wrr::new([1, 1, 1, 1]).factors();
    same(&rt, &equal, &[1, 1, 1, 1], "equal");
    let pairs = Wrr::new([6, 4, 6, 4]).factors();
    same(&rt, &pairs, &[2, 3, 2, 3], "two and two");
    let apart = Wrr::new([10, 4, 6, 15]).factors();
    same(&rt, &apart, &[6, 15, 10, 4], "no common divisor");
    let greatest = Wrr::new([255, 254, 253, 251]).factors();
    let wanted = [16129762, 16193265, 16257270, 16386810];
    same(&rt, &greatest, &wanted, "the greatest");
}

// A queue that is not filled is left out, and keeps its tokens until it is said to be empty.
#[test]
fn an_empty_queue_has_no_tokens(rt: HostRuntime) {
    let mut wrr = Wrr::new([2, 1, 1, 1]);
    let first = wrr.pick([true, true, false, false]);
    wrr.charge(first, MAX_COST);
    let second = wrr.pick([true, true, false, false]);
    wrr.charge(second, 100);
    let third = wrr.pick([true, true, false, false]);
    wrr.emptied(0);
    let fourth = wrr.pick([true, true, false, false]);
    let fifth = wrr.pick([false, false, false, true]);
    let picks = [first, second, third, fourth, fifth];
    same(&rt, &picks, &[0, 1, 1, 0, 3], "picks");
}

#[test]
fn the_laws_can_be_called() {
    laws::least_common_multiple_is_least();
    laws::factors_are_shares();
    laws::picked_queue_is_filled();
    laws::picked_queue_has_no_tokens();
    laws::differences_stay();
}
