//! Laws of the definitions. These functions do nothing; each has a law as its contract.
ghost use Rattle.std.specs.Prelude.{List, ℕ};
ghost use Rattle.qos_base.specs.declared.packet.Pkt.{Pkt};
ghost use Rattle.port_sched.specs.Port.{Port};
ghost use Rattle.run_journal.specs.declared.entry.Entry.{Entry};
ghost use Rattle.run_journal.specs.declared.pace.Pace.{Pace};
ghost use Rattle.run_journal.specs.Laws.{AdvancesMoveOn, OpenJournalsGrow, OpenCourses, EveryArrivalEnds};
ghost use Rattle.run_journal.specs.PortRun.{RunState};
ghost use Rattle.run_journal.specs.Advancing.{AdvanceSteps, ArrivalLaws};

use port_sched::laws::{arrivals_join, dequeues_keep_setting, dequeues_serve};
use qos_base::{Parcel, Pkt};

/// Each repetition of an advance moves the clock on, or follows a dequeue whose packets all cost 0, and an advance ends
/// at its aim.
pub fn advances_move_on()
    ensures { (pace : Pace) (start : Port Pkt) → AdvancesMoveOn pace start }
{
    dequeues_serve::<Pkt>();
}

/// What `aim`, `next` and `dequeue` make one after another is the advance of the definition.
pub fn advances_go_by_steps<T: Parcel>()
    ensures { (from : RunState T) (to : ℕ) → AdvanceSteps from to }
{
    dequeues_serve::<Pkt>();
}

/// An advance, `arrive`, and `dequeue` at the moment of `after_arrival` make the arrival of the definition.
pub fn arrivals_go_by_steps<T: Parcel>()
    ensures { (from : RunState T) (at : ℕ) (packet : Pkt) → ArrivalLaws from at packet }
{}

/// The open course of a list of arrivals is that of one arrival after another.
pub fn open_courses_go_on()
    ensures { (pace : Pace) (start : Port Pkt) (byte_time : Pkt → ℕ) → OpenCourses pace start byte_time }
{}

/// The open journal of a list of arrivals is a first part of the open journal of a longer one.
pub fn open_journals_grow()
    ensures { (pace : Pace) (start : Port Pkt) → OpenJournalsGrow pace start }
{}

/// Each packet that arrives in a journal is sent, waits or is turned away, once.
pub fn every_arrival_ends()
    ensures { (start : Port Pkt) (journal : List Entry) → EveryArrivalEnds start journal }
{
    dequeues_serve::<Pkt>();
    dequeues_keep_setting::<Pkt>();
    arrivals_join::<Pkt>();
}
