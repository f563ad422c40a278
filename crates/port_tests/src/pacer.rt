//! The moments that a pacer tells.
use crate::check::same;
use run_journal::Pacer;
use std::process::Abort;

// How many wait, port time, and the moment that is told; then whether the dequeue there sent something.
type Call = (u64, u64, Option<u64>, bool);

fn tells(rt: &impl Abort, pacer: &mut Pacer, call: Call) {
    let (queued, time, moment, sent) = call;
    assert!(rt; time <= 1 << 62);
    same(rt, &pacer.next(queued, time), &moment, "next");
    pacer.went(sent);
}

// An advance of a pacer with quantum 10.
fn pace(rt: &impl Abort, to: u64, calls: &[Call]) -> Pacer {
    assert!(rt; to <= 1 << 62);
    let mut pacer = Pacer::new(10);
    pacer.aim(to);
    for call in calls {
        tells(rt, &mut pacer, *call);
    }
    pacer
}

// A step, port time, the clock where port time is behind it, a step, and the aim where port time is past it.
const NEAR: [Call; 6] = [
    (1, 0, Some(10), true),
    (1, 50, Some(50), true),
    (1, 20, Some(50), false),
    (1, 20, Some(60), true),
    (1, 200, None, false),
    (1, 200, None, false),
];

// 1,024,000 to go: the step is 1,001. Where nothing waits the clock is at the aim at once.
const FAR: [Call; 2] = [(1, 0, Some(1001), false), (0, 0, None, false)];

#[test]
fn a_pacer_tells_moments(rt: HostRuntime) {
    let near = pace(&rt, 100, &NEAR);
    let seen = (near.clock(), near.after(100), near.after(101));
    same(&rt, &seen, &(100, Some(100), None), "near");
    let far = pace(&rt, 1_024_000, &FAR);
    same(&rt, &far.clock(), &1_024_000, "far");
}
