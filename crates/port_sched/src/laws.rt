//! Laws of the definitions. These functions do nothing; each has a law as its contract.
ghost use Rattle.std.specs.Prelude.{ℕ};
ghost use Rattle.port_sched.specs.Port.{Port};
ghost use Rattle.port_sched.specs.Leaving.{FrontsAreSent};
ghost use Rattle.port_sched.specs.PortLaws.{ArrivalJoins, DequeueServes, PacketsDecide};
ghost use Rattle.port_sched.specs.Idle.{LeavesAlone};
ghost use Rattle.profile_plan.specs.declared.port.PortPlan.{PortPlan};
ghost use Rattle.profile_plan.specs.Profile.{Plan};
ghost use Rattle.port_sched.specs.Classes.{Visit};
ghost use Rattle.port_sched.specs.VisitLaws.{VisitLaws};
ghost use Rattle.port_sched.specs.StartLaws.{StartLaws};
ghost use Rattle.port_sched.specs.Settings.{ArrivalKeeps, DequeueKeeps};
ghost use Rattle.port_sched.specs.TurnLaws.{TurnsEnd};

use active_bitmap::laws::next_is_nearest;
use qos_base::Parcel;
use wrr_pick::laws::picked_queue_has_no_tokens;

/// What waits is sent or waits still, each parcel once, and port time grows by what the sends cost.
pub fn dequeues_serve<T: Parcel>()
    ensures { (now room : ℕ) (s : Port T) → DequeueServes T.packet now room s }
{}

/// What carries a packet has no part in what a port does.
pub fn packets_decide<T: Parcel>()
    ensures { (s : Port T) → PacketsDecide T.packet s }
{}

/// Each parcel that a dequeue sends leaves the front of its queue.
pub fn fronts_are_sent<T: Parcel>()
    ensures { (now room : ℕ) (s : Port T) → FrontsAreSent T.packet now room s }
{}

/// A dequeue leaves a port's setting as it was, and keeps its bounds.
pub fn dequeues_keep_setting<T: Parcel>()
    ensures { (now room : ℕ) (s : Port T) → DequeueKeeps T.packet now room s }
{
    picked_queue_has_no_tokens();
}

/// A parcel that arrives waits beside those that did.
pub fn arrivals_join<T: Parcel>()
    ensures joins { (t : T) (s : Port T) → ArrivalJoins T.packet t s }
    ensures keeps { (t : T) (s : Port T) → ArrivalKeeps T.packet t s }
{}

/// A pipe in which nothing waits is not visited, and none is where nothing is to be sent.
pub fn dequeues_leave_alone<T: Parcel>()
    ensures { (now room : ℕ) (s : Port T) → LeavesAlone T.packet now room s }
{
    next_is_nearest();
}

/// At its start nothing waits in a port, and it is within its bounds.
pub fn starts_within<T: Parcel>()
    ensures { (profile : Plan) (port : PortPlan) → StartLaws T.packet profile port }
{}

/// A visit pays in full for what it sends, and looks at its classes in their order.
pub fn visits_pay<T: Parcel>()
    ensures { (cost : T → ℕ) (v : Visit T) → VisitLaws cost v }
{}

/// No visit of a turn is cut off by the number that bounds them.
pub fn turns_end<T: Parcel>()
    ensures { TurnsEnd T.packet }
{}
