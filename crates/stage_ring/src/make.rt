//! How a ring is made.
ghost use Rattle.std.specs.Prelude.{◌≡◌, ℕ, ◌+◌, ◌<◌, ◌≤◌, [], length, slice_index_or, IfOk};
ghost use Rattle.std.specs.Arc.{arc_value};
ghost use Rattle.crossbeam_queue.specs.Passes.{view, IsSamePass, IsPassOf, ruled_capacity};
ghost use Rattle.stage_ring.specs.Line.{inlet_of};
ghost use Rattle.stage_ring.specs.Ends.{IsNew, inlet_ring, senders_of, taken_by, met_by};

use crate::inlet::Inlet;
use crate::line::{Known, Line, NewSender, OneMore};
use crate::msg::Posted;
use crate::outlet::Outlet;
use crossbeam_queue::Pass;
use qos_base::NoMemory;
use std::alloc::Global;
use std::sync::{Arc, Wait};

/// A ring that holds `capacity` messages at most: an outlet for each sender, in order of their numbers
/// from 0, and the inlet.
///
/// Both are at least 1, and there are at most 48 senders. The handle is that of the ring's other calls.
pub fn ring<R: Wait>(
    _rt: &R,
    alloc: Global,
    capacity: u32,
    senders: u32,
) -> Result<(Vec<Outlet>, Inlet), NoMemory>
    requires capacity { 1 ≤ capacity }
    requires some_sender { 1 ≤ senders }
    requires senders { senders ≤ 48 }
    ensures outlets { IfOk result (λ r. length r.0.items ≡ senders) }
    ensures fresh { IfOk result (λ r. (k : ℕ) (d : Outlet) → k < senders → IsNew (inlet_ring r.1) capacity senders k (slice_index_or r.0.items k d)) }
    ensures senders { IfOk result (λ r. senders_of r.1 ≡ senders) }
    ensures taken { IfOk result (λ r. (taken_by r.1 ≡ []) × (met_by r.1 ≡ [])) }
{
    let mut outlets = Vec::with_capacity(alloc, senders as usize)?;
    let ended = Vec::from_elem(alloc, false, senders as usize)?;
    let (line, mut pass) = Line::ruled(alloc, capacity as usize)?;
    announce(&line, &mut pass, senders);
    let line = Arc::new(alloc, line)?;
    for number in 0..senders {
        outlets.push_reserved(next_outlet(&line, &mut pass, senders, number)?);
    }
    Ok((outlets, Inlet::of_line(line, pass, ended)))
}

// Tells the inlet how many senders there will be.
fn announce(line: &Line, pass: &mut Pass<Posted, Known>, senders: u32)
    requires own { IsPassOf line.now pass.old }
    requires first { view pass.old ≡ inlet_of 0 0 }
    ensures own { IsSamePass pass.old pass.new }
    ensures senders { view pass.new ≡ inlet_of senders 0 }
{
    for _ in 0..senders {
        let _ = line.another::<OneMore>(pass);
    }
}

// Makes the next sender.
fn next_outlet(
    line: &Arc<Line, Global>,
    pass: &mut Pass<Posted, Known>,
    senders: u32,
    number: u32,
) -> Result<Outlet, NoMemory>
    requires own { IsPassOf (arc_value line.now) pass.old }
    requires next { view pass.old ≡ inlet_of senders number }
    requires more { number < senders }
    ensures own { IsSamePass pass.old pass.new }
    ensures next { IfOk result (λ _. view pass.new ≡ inlet_of senders (number + 1)) }
    ensures outlet { IfOk result (IsNew pass.old.table_id (ruled_capacity (arc_value line.now)) senders number) }
{
    let shared = Arc::try_clone(line)?;
    let made = line.another::<NewSender>(pass);
    Ok(Outlet {
        line: shared,
        pass: made,
        number,
        count: 0,
    })
}
