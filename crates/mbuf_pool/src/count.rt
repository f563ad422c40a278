//! The steps on the count of free slots.
ghost use Rattle.std.specs.Prelude.{◌≡◌, ◌+◌, ◌^◌, ◌<◌, ◌≤◌, true, [], if◌then◌else◌};
ghost use Rattle.mbuf_pool.specs.FreeCount.{turned_away, lowered_once, raised_once};

use crate::pass::Count;
use crate::plays::{FreeCount, Look, Lower, Raise};
use atomic_table::{Seat, Table};
use std::alloc::Global;
use std::sync::Wait;
use std::thread;

pub(crate) type Counter = Table<u8, Count, u64, FreeCount, Global>;

/// Lowers the count by one. False where the count was found at 0, and then it is as it was.
pub(crate) fn lower<R: Wait>(rt: &R, count: &Counter, seat: &mut Seat<u8, Count>) -> bool
    requires seat { seat.old.table_id ≡ count.now.shared.table_id }
    requires word { count.now.shared.table_id.words ≡ 1 }
    requires part { 0 < seat.old.me.0.parts }
    ensures seat { (seat.new.table_id ≡ seat.old.table_id) × (seat.new.me.1 ≡ seat.old.me.1) }
    ensures view { seat.new.me.0 ≡ (if result then lowered_once seat.old.me.0 else turned_away seat.old.me.0) }
{
    for _ in rt.forever() {
        let found = count.shared.load::<Look>(seat, 0);
        if found == 0 {
            return false;
        }
        if count
            .shared
            .compare_exchange::<Lower>(seat, 0, found, found - 1)
            == found
        {
            return true;
        }
        thread::yield_now();
    }
    unreachable!()
}

/// Raises the count by one.
pub(crate) fn raise(count: &Counter, seat: &mut Seat<u8, Count>)
    requires seat { seat.old.table_id ≡ count.now.shared.table_id }
    requires word { count.now.shared.table_id.words ≡ 1 }
    requires slots { count.now.shared.key < 2 ^ 32 }
    requires part { 0 < seat.old.me.0.parts }
    requires limit { seat.old.me.0.raised < 2 ^ 56 }
    ensures seat { (seat.new.table_id ≡ seat.old.table_id) × (seat.new.me.1 ≡ seat.old.me.1) }
    ensures view { seat.new.me.0 ≡ raised_once seat.old.me.0 }
{
    count.shared.fetch_add::<Raise>(seat, 0, 1);
}
