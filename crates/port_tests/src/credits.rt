//! Token buckets, class credits and the watermark of oversubscription.
ghost use Rattle.std.specs.Prelude.{◌≡◌, ◌<◌, ◌≤◌};

use crate::check::same;
use credit_book::{Bucket, ClassCredits, Watermark};
use qos_base::Steps;
use std::marker::Brand;
use std::process::Abort;
use std::sync::ledger::{Blank, Ledger};

// Costs that are paid where they fit, and the credits that are then left.
const COSTS: [(u64, u64); 6] = [(0, 10), (11, 10), (4, 6), (7, 6), (6, 0), (1, 0)];

fn pays(rt: &impl Abort, bucket: &mut Bucket, cost: u64, left: u64) {
    if bucket.fits(cost) {
        bucket.pay(cost);
    }
    same(rt, &(cost, bucket.credits()), &(cost, left), "after a cost");
}

// 5 credits of 10 at the start; one period is over at 1999, and a second one at 2001.
fn bucket_earns<L: Ledger>(rt: &impl Abort, steps: &mut Steps<L>) {
    let mut bucket = Bucket::new(10, 3, 1000);
    same(rt, &bucket.credits(), &5, "at the start");
    bucket.bring(1999, steps);
    same(rt, &bucket.credits(), &8, "at 1999");
    bucket.bring(2001, steps);
    same(rt, &bucket.credits(), &10, "at 2001");
    for (cost, left) in COSTS {
        pays(rt, &mut bucket, cost, left);
    }
}

// Moments, and whether a renewal is due then.
const RENEWALS: [(u32, bool); 4] = [(999, false), (1500, true), (2499, false), (2500, true)];

// A class pays 60 where that fits; it has then used 60 of its 100.
fn class_pays(rt: &impl Abort, classes: &mut ClassCredits, class: usize, note: &str)
    requires { class ≤ 12 }
{
    if classes.fits(class, 60) {
        classes.pay(class, 60);
    }
    let seen = (class, classes.credits(class), classes.used(class));
    same(rt, &seen, &(class, 40, 60), note);
}

fn is_renewed<L: Ledger>(
    rt: &impl Abort,
    classes: &mut ClassCredits,
    time: u32,
    renewed: bool,
    steps: &mut Steps<L>,
) {
    let due = classes.due_at(u64::from(time));
    let brought = classes.bring(u64::from(time), steps);
    same(rt, &(time, due, brought), &(time, renewed, renewed), "due");
    class_pays(rt, classes, 0, "class 0");
    class_pays(rt, classes, 12, "class 12");
    same(rt, &(time, classes.used(1)), &(time, 0), "class 1");
}

// The first renewal is due at 1000; the one at 1500 makes the next due at 2500.
fn classes_are_renewed<L: Ledger>(rt: &impl Abort, steps: &mut Steps<L>) {
    let mut classes = ClassCredits::new([100; 13], 1000);
    for (time, renewed) in RENEWALS {
        is_renewed(rt, &mut classes, time, renewed, steps);
    }
}

fn credits_are_brought<L: Ledger>(rt: &impl Abort, blank: Blank)
    requires name { blank.name ≡ L.name }
    requires parts { blank.parts ≡ L.parts }
    requires some { 0 < L.parts }
{
    let mut steps = Steps::<L>::new(blank);
    bucket_earns(rt, &mut steps);
    classes_are_renewed(rt, &mut steps);
}

#[test]
fn buckets_and_classes(rt: HostRuntime) {
    credits_are_brought::<Brand>(&rt, Blank::new(1));
}

// Where the watermark stands, what classes 0 to 11 and best effort have used, and where it goes.
const MOVES: [(u64, u32, u32, u64); 4] = [
    (12_800, 90_000, 9_000, 12_700),
    (12_700, 0, 0, 12_800),
    (12_800, 0, 0, 12_800),
    (12_800, 90_000, 8_454, 12_800),
];

fn moves(rt: &impl Abort, watermark: &mut Watermark, row: (u64, u32, u32, u64)) {
    let (_, above, best_effort, _) = row;
    let before = watermark.value();
    watermark.renew(u64::from(above), u64::from(best_effort));
    let seen = (before, above, best_effort, watermark.value());
    same(rt, &seen, &row, "a watermark that moves");
}

#[test]
fn watermark_moves(rt: HostRuntime) {
    let mut watermark = Watermark::new(1_546, 12_800, 100_000);
    for row in MOVES {
        moves(&rt, &mut watermark, row);
    }
    let mut lowest = Watermark::new(12_700, 12_800, 100_000);
    moves(&rt, &mut lowest, (12_800, 90_000, 9_000, 12_700));
    moves(&rt, &mut lowest, (12_700, 90_000, 9_000, 12_700));
}
