//! How a port is paced.
ghost use Rattle.std.specs.Prelude.{◌≡◌, ◌≤◌, ◌^◌};
ghost use Rattle.qos_base.specs.Time.{IsLineRate};
ghost use Rattle.profile_plan.specs.Limits.{IsSpan};
ghost use Rattle.run_journal.specs.Pace.{drain_of, pace_of};

use profile_plan::{PortPlan, Span};

/// Milliseconds in a second.
const MILLISECONDS: u64 = 1_000;

/// The numbers by which a port is dequeued.
#[derive(Clone, Copy, Debug, PartialEq, Eq)]
pub struct Pace {
    /// The most packets of one dequeue, 1 to 256.
    pub burst: u32,
    /// The least step of an idle dequeue, 1 to 10^9 byte times.
    pub quantum: u64,
    /// How long the port goes on after the last arrival, in byte times, at most 2^41.
    pub drain: u64,
}

impl Pace {
    /// The numbers of a port of a profile.
    pub fn of(plan: &PortPlan) -> Pace
        requires line { IsLineRate plan.now.line }
        requires drain { IsSpan plan.now.drain }
        ensures exact { result ≡ pace_of plan.now }
        ensures drain { result.drain ≤ 2 ^ 41 }
    {
        Pace {
            burst: plan.burst,
            quantum: plan.quantum,
            drain: drain_of(plan.line, plan.drain),
        }
    }
}

// The byte times of a line in a span.
fn drain_of(line: u64, span: Span) -> u64
    requires line { IsLineRate line }
    requires span { IsSpan span }
    ensures exact { result ≡ drain_of line span }
    ensures limit { result ≤ 2 ^ 41 }
{
    match span {
        Span::Bytes(bytes) => bytes,
        Span::Ms(ms) => line * ms / MILLISECONDS,
    }
}
