//! The cell of a meter, which callers share, and the steps on it.
ghost use Rattle.std.specs.Prelude.{◌≡◌, ◌^◌, ◌<◌, ◌≤◌, ℕ, [], if◌then◌else◌, length, true, All, IfOk};
ghost use Rattle.crossbeam_utils.specs.Seq.{cell_view};
ghost use Rattle.profile_plan.specs.Limits.{IsMeter};
ghost use Rattle.color_meter.specs.Meter.{full};
ghost use Rattle.color_meter.specs.Setting.{Setting, setting_of};
ghost use Rattle.meter_table.specs.Asked.{request_in, request_of};
ghost use Rattle.meter_table.specs.Cell.{IsNext};
ghost use Rattle.meter_table.specs.Kept.{IsSeen, Knows, blank, both_views, one_part, one_part_less, set_view, with_mark};

use crate::mark::Mark;
use crate::rule::{Both, Enter, Kept, Look, OnePart, Settle, View, Whole};
use crate::words::{Ask, next_words, settled_words};
use color_meter::Meter;
use crossbeam_utils::atomic::seq_cell::RuledSeqCell;
use profile_plan::MeterPlan;
use qos_base::NoMemory;
use std::alloc::Global;
use std::sync::Wait;

pub type Cell = RuledSeqCell<[u64; 12], View, Kept, 12>;

pub type Pass = crossbeam_utils::atomic::seq_cell::Pass<[u64; 12], View>;

// Sets the meter of a cell of which nothing is known.
fn settle<R: Wait>(rt: &R, cell: &Cell, pass: &mut Pass, meter: u32, plan: &MeterPlan)
    requires plan { IsMeter plan.now }
    requires cell { pass.old.table_id ≡ cell.now.table.shared.table_id }
    requires view { cell_view {V = View} pass.old ≡ blank }
    ensures cell { pass.new.table_id ≡ pass.old.table_id }
    ensures view { cell_view {V = View} pass.new ≡ set_view meter (setting_of plan.now) }
{
    let words = settled_words(meter, plan);
    cell.swap_as::<Settle, R>(rt, pass, words);
}

/// A cell of a meter that is set to this, and the pass that has all of its parts.
pub fn make<R: Wait>(
    rt: &R,
    alloc: Global,
    meter: u32,
    plan: &MeterPlan,
) -> Result<(Cell, Pass), NoMemory>
    requires { IsMeter plan.now }
    ensures cell { IfOk result (λ r. r.1.table_id ≡ r.0.table.shared.table_id) }
    ensures view { IfOk result (λ r. cell_view {V = View} r.1 ≡ set_view meter (setting_of plan.now)) }
{
    let (cell, mut pass) = Cell::ruled(alloc, [0; 12])?;
    settle(rt, &cell, &mut pass, meter, plan);
    Ok((cell, pass))
}

/// One part of a pass that has made no mark, as another pass.
pub fn split(cell: &Cell, pass: &mut Pass) -> Pass
    requires cell { pass.old.table_id ≡ cell.now.table.shared.table_id }
    requires knows { (meter : ℕ) × (setting : Setting) × Knows meter setting (cell_view pass.old) }
    requires parts { 1 < (cell_view pass.old).parts }
    requires unused { (cell_view pass.old).marks ≡ [] }
    ensures cell { (pass.new.table_id ≡ pass.old.table_id) × (result.table_id ≡ pass.old.table_id) }
    ensures kept { cell_view {V = View} pass.new ≡ one_part_less (cell_view pass.old) }
    ensures given { cell_view {V = View} result ≡ one_part (cell_view pass.old) }
{
    cell.split_pass::<OnePart>(pass)
}

/// Takes in what another pass has.
pub fn join(cell: &Cell, pass: &mut Pass, mut other: Pass)
    requires cell { pass.old.table_id ≡ cell.now.table.shared.table_id }
    requires other { other.table_id ≡ cell.now.table.shared.table_id }
    requires knows { (meter : ℕ) × (setting : Setting) × Knows meter setting (cell_view pass.old) × Knows meter setting (cell_view other) }
    ensures cell { pass.new.table_id ≡ pass.old.table_id }
    ensures view { cell_view {V = View} pass.new ≡ both_views (cell_view pass.old) (cell_view other) }
{
    // A pass may be joined only as it comes from a split.
    let whole = cell.split_pass::<Whole>(&mut other);
    cell.join_pass::<Both>(pass, whole);
}

/// The words of a cell, and what they tell.
pub fn look<R: Wait>(rt: &R, cell: &Cell, pass: &mut Pass) -> [u64; 12]
    requires { pass.old.table_id ≡ cell.now.table.shared.table_id }
    ensures cell { pass.new.table_id ≡ pass.old.table_id }
    ensures view { cell_view {V = View} pass.new ≡ cell_view pass.old }
    ensures seen { (meter : ℕ) (setting : Setting) → Knows meter setting (cell_view pass.old) → IsSeen meter setting (cell_view pass.old) result }
{
    cell.load_as::<Look, R>(rt, pass)
}

// Puts the words that a mark leaves in place of those that were seen, and says whether these were still there.
fn put<R: Wait>(
    rt: &R,
    cell: &Cell,
    pass: &mut Pass,
    seen: [u64; 12],
    mark: &Mark,
    next: [u64; 12],
) -> bool
    requires cell { pass.old.table_id ≡ cell.now.table.shared.table_id }
    requires next { (meter : ℕ) × (setting : Setting) × Knows meter setting (cell_view pass.old) × IsNext meter setting seen mark.now next }
    requires few { length (cell_view pass.old).marks < 2 ^ 56 }
    ensures cell { pass.new.table_id ≡ pass.old.table_id }
    ensures view { cell_view {V = View} pass.new ≡ (if result then with_mark (cell_view pass.old) mark.now else cell_view pass.old) }
    ensures turn { result ≡ true → All (λ m. m.turn < mark.now.turn) (cell_view pass.old).marks }
{
    // the contract alone speaks of it
    let _ = mark;
    if let Ok(_) = cell.compare_exchange_as::<Enter, R>(rt, pass, seen, next) {
        return true;
    }
    false
}

/// Has the meter mark a packet, in one step on its cell; `start` is what the meter was when it began.
pub fn enter<R: Wait>(rt: &R, cell: &Cell, pass: &mut Pass, start: &Meter, ask: &Ask) -> Mark
    requires cell { pass.old.table_id ≡ cell.now.table.shared.table_id }
    requires knows { Knows ask.now.meter start.now.setting (cell_view pass.old) }
    requires start { start.now ≡ full start.now.setting }
    requires at { ask.now.at ≤ 2 ^ 50 }
    requires few { length (cell_view pass.old).marks < 2 ^ 56 }
    ensures asked { request_in result ≡ request_of ask.now }
    ensures cell { pass.new.table_id ≡ pass.old.table_id }
    ensures view { cell_view {V = View} pass.new ≡ with_mark (cell_view pass.old) result }
    ensures turn { All (λ mark. mark.turn < result.turn) (cell_view pass.old).marks }
{
    for _ in rt.forever() {
        let seen = look(rt, cell, pass);
        let (mark, next) = next_words(start, ask, &seen);
        if put(rt, cell, pass, seen, &mark, next) {
            return mark;
        }
    }
    unreachable!()
}
