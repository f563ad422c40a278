//! Packets put in queues and taken out, worked out by hand.
ghost use Rattle.std.specs.Prelude.{◌≡◌, ◌<◌, length};

use crate::check::same;
use qos_base::{Colour, Pkt};
use queue_store::QueueStore;
use std::process::Abort;

// A packet that is told by its index.
fn packet(index: u32) -> Pkt {
    Pkt {
        input: 0,
        index,
        wire: 60,
        cap: 60,
        stamp: 0,
        port: 0,
        subport: 0,
        pipe: 0,
        queue: 0,
        colour: Colour::Green,
    }
}

const SIZES: [u32; 4] = [0, 1, 3, 2];

// The queue; the packet that arrives, or None for one taken from the front; the packet that comes back, if any; how many
// then wait there, and in how many queues any does.
type Step = (u32, Option<u32>, Option<u32>, u32, usize);

const STEPS: [Step; 18] = [
    (0, Some(1), Some(1), 0, 0),
    (0, None, None, 0, 0),
    (1, Some(2), None, 1, 1),
    (1, Some(3), Some(3), 1, 1),
    (2, Some(4), None, 1, 2),
    (2, Some(5), None, 2, 2),
    (3, Some(6), None, 1, 3),
    (2, Some(7), None, 3, 3),
    (2, Some(8), Some(8), 3, 3),
    (2, None, Some(4), 2, 3),
    (2, Some(9), None, 3, 3),
    (2, Some(10), Some(10), 3, 3),
    (2, None, Some(5), 2, 3),
    (2, None, Some(7), 1, 3),
    (2, None, Some(9), 0, 2),
    (2, None, None, 0, 2),
    (3, None, Some(6), 0, 1),
    (1, None, Some(2), 0, 0),
];

// The packet that comes back where this one arrives, or where the front is taken.
fn came_back(store: &mut QueueStore<Pkt>, queue: u32, arrives: Option<u32>) -> Option<u32>
    requires sizes { length store.old.lists ≡ 4 }
    requires queue { queue < 4 }
    ensures { length store.new.lists ≡ 4 }
{
    match arrives {
        Some(index) => store
            .put(queue, packet(index))
            .err()
            .map(|full| full.parcel.index),
        None => store.pop(queue).map(|p| p.index),
    }
}

fn step(rt: &impl Abort, store: &mut QueueStore<Pkt>, row: Step)
    requires { length store.old.lists ≡ 4 }
    ensures { length store.new.lists ≡ 4 }
{
    let (queue, arrives, back, _, _) = row;
    assert!(rt; queue < 4);
    let front = store.front(queue).map(|p| p.index);
    let came_back = came_back(store, queue, arrives);
    let seen = (queue, arrives, came_back, store.len(queue), store.filled());
    same(rt, &seen, &row, "what comes back, and how many wait");
    if arrives.is_none() {
        same(rt, &front, &back, "what stood at the front");
    }
}

#[test]
fn packets_go_in_and_out(rt: HostRuntime) {
    let mut store = QueueStore::new(rt.alloc(), &SIZES).expect(&rt, "memory");
    for row in STEPS {
        step(&rt, &mut store, row);
    }
}
