//! The taker's end of a ring.
ghost use Rattle.std.specs.Prelude.{◌≡◌, ℕ, ◌<◌, true, false, length, slice_index_or};
ghost use Rattle.std.specs.Arc.{arc_value};
ghost use Rattle.crossbeam_queue.specs.Passes.{view, IsPassOf};
ghost use Rattle.stage_ring.specs.History.{of, has_fin};

use crate::line::{Known, Line, Receive};
use crate::msg::{Msg, Posted};
use crossbeam_queue::Pass;
use std::alloc::Global;
use std::sync::{Arc, Wait};

/// The taker's end of a ring.
#[derive(Drop)]
pub struct Inlet {
    pub(crate) line: Arc<Line, Global>,
    pub(crate) pass: Pass<Posted, Known>,
    ended: Vec<bool>,
    ghost own: { IsPassOf (arc_value line) pass },
    ghost takes: { (view pass).takes ≡ true },
    ghost one_mark_each: { length ended.items ≡ (view pass).senders },
    ghost marked: { (k : ℕ) → k < length ended.items → slice_index_or ended.items k false ≡ has_fin (of k (view pass).taken) },
}

impl Inlet {
    ghost use Rattle.std.specs.Prelude.{[], ◌∷◌, ◌++◌, ◌↔◌, IsTrue, IfSome, IfNone, MatchOption};
    ghost use Rattle.crossbeam_queue.specs.Fifo.{Held};
    ghost use Rattle.stage_ring.specs.Ends.{inlet_ring, taken_by, inlet_knows, met_by, IsSameInlet, IsNext, IsEnded};
    ghost use Rattle.stage_ring.specs.Line.{MayHold};

    // The inlet of a ring that has made its senders.
    pub(crate) fn of_line(
        line: Arc<Line, Global>,
        pass: Pass<Posted, Known>,
        ended: Vec<bool>,
    ) -> Inlet
        requires own { IsPassOf (arc_value line) pass }
        requires takes { (view pass).takes ≡ true }
        requires taken { (view pass).taken ≡ [] }
        requires marks { length ended.items ≡ (view pass).senders }
        requires none { (k : ℕ) → k < length ended.items → slice_index_or ended.items k false ≡ false }
        ensures { (inlet_ring result ≡ pass.table_id) × (inlet_knows result ≡ view pass) }
    {
        Inlet { line, pass, ended }
    }

    /// Takes the next message. None only where, for each sender, some moment of the call had nothing of
    /// that sender in the ring: at one moment nothing lay there at all.
    ///
    /// It may wait for another thread that is just putting a message.
    pub fn take<R: Wait>(&mut self, rt: &R) -> Option<Msg>
        ensures same { IsSameInlet self.old self.new }
        ensures met { met_by self.new ≡ met_by self.old }
        ensures some { IfSome result (IsNext self.old self.new) }
        ensures none { IfNone result (taken_by self.new ≡ taken_by self.old) }
        ensures empty { IfNone result (Held 0 (MayHold (inlet_knows self.old))) }
    {
        match self.line.pop_as::<Receive, R>(rt, &mut self.pass) {
            None => None,
            Some(Posted { from, msg }) => {
                if let Msg::Fin(_) = &msg {
                    self.ended[from as usize] = true;
                }
                Some(msg)
            }
        }
    }

    /// Whether the Fin of each sender was taken.
    pub fn ended(&self) -> bool
        ensures { IsTrue result ↔ IsEnded self.now }
    {
        self.ended.iter().all(|ended| *ended)
    }
}
