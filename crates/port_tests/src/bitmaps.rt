//! Bits set and looked for; what is found is worked out by hand.
ghost use Rattle.std.specs.Prelude.{◌≡◌, ◌<◌, length};
ghost use Rattle.active_bitmap.specs.declared.bitmap.TheConstants.{MAX_BITS};

use crate::check::same;
use active_bitmap::{ActiveBitmap, MAX_BITS};
use qos_base::Steps;
use std::marker::Brand;
use std::process::Abort;
use std::sync::ledger::{Blank, Ledger};

// The next set bit from a place is this one.
fn finds<L: Ledger>(
    rt: &impl Abort,
    bitmap: &ActiveBitmap,
    from: u32,
    found: Option<u32>,
    steps: &mut Steps<L>,
)
    requires { from < length bitmap.now }
{
    let next = bitmap.next_from(from, steps);
    same(rt, &(from, next), &(from, found), "from a bit");
}

// Two bits in a bitmap of the greatest size, the bit from which is looked, and the bit that is found.
static ROWS: [(u32, u32, u32, u32); 9] = [
    (5, 5, 5, 5),
    (5, 5, 6, 5),
    (0, 65_535, 1, 65_535),
    (0, 65_535, 0, 0),
    (65, 70, 66, 70),
    (65, 70, 71, 65),
    (63, 4_096, 64, 4_096),
    (63, 4_096, 4_097, 63),
    (4_000, 60_000, 60_001, 4_000),
];

fn set_both(bitmap: &mut ActiveBitmap, one: u32, other: u32)
    requires one { one < length bitmap.old }
    requires other { other < length bitmap.old }
    ensures { length bitmap.new ≡ length bitmap.old }
{
    bitmap.set(one);
    bitmap.set(other);
}

fn clear_both(bitmap: &mut ActiveBitmap, one: u32, other: u32)
    requires one { one < length bitmap.old }
    requires other { other < length bitmap.old }
    ensures { length bitmap.new ≡ length bitmap.old }
{
    bitmap.clear(one);
    bitmap.clear(other);
}

fn two_are_found<L: Ledger>(
    rt: &impl Abort,
    bitmap: &mut ActiveBitmap,
    row: (u32, u32, u32, u32),
    steps: &mut Steps<L>,
)
    requires { length bitmap.old ≡ MAX_BITS }
{
    let (one, other, from, found) = row;
    assert!(rt; one < MAX_BITS && other < MAX_BITS && from < MAX_BITS);
    set_both(bitmap, one, other);
    finds(rt, bitmap, from, Some(found), steps);
    clear_both(bitmap, one, other);
    finds(rt, bitmap, from, None, steps);
}

fn row_is_found<R: AllocGlobal + Abort, L: Ledger>(
    rt: &R,
    row: (u32, u32, u32, u32),
    steps: &mut Steps<L>,
) {
    let mut bitmap = ActiveBitmap::new(rt.alloc(), MAX_BITS).expect(rt, "memory");
    two_are_found(rt, &mut bitmap, row, steps);
}

// A bit alone is found from its own place and from each side of it, and no more once it is cleared.
fn is_found_alone<L: Ledger>(
    rt: &impl Abort,
    bitmap: &mut ActiveBitmap,
    bits: u32,
    bit: u32,
    steps: &mut Steps<L>,
)
    requires bits { length bitmap.old ≡ bits }
    requires small { bits < 65536 }
    requires bit { bit < bits }
    ensures { length bitmap.new ≡ bits }
{
    let (before, after) = ((bit + bits - 1) % bits, (bit + 1) % bits);
    bitmap.set(bit);
    finds(rt, bitmap, bit, Some(bit), steps);
    finds(rt, bitmap, after, Some(bit), steps);
    finds(rt, bitmap, before, Some(bit), steps);
    bitmap.clear(bit);
    finds(rt, bitmap, bit, None, steps);
}

fn each_is_found<R: AllocGlobal + Abort, L: Ledger>(rt: &R, bits: u32, steps: &mut Steps<L>) {
    assert!(rt; 0 < bits && bits < MAX_BITS);
    let mut bitmap = ActiveBitmap::new(rt.alloc(), bits).expect(rt, "memory");
    for bit in 0..bits {
        is_found_alone(rt, &mut bitmap, bits, bit, steps);
    }
}

fn all_are_found<R: AllocGlobal + Abort, L: Ledger>(rt: &R, blank: Blank)
    requires name { blank.name ≡ L.name }
    requires parts { blank.parts ≡ L.parts }
    requires some { 0 < L.parts }
{
    let mut steps = Steps::<L>::new(blank);
    for row in &ROWS {
        row_is_found(rt, *row, &mut steps);
    }
    for bits in [1, 2, 64, 65, 4_096] {
        each_is_found(rt, bits, &mut steps);
    }
}

#[test]
fn set_bits_are_found(rt: HostRuntime) {
    all_are_found::<HostRuntime, Brand>(&rt, Blank::new(1));
}
