//! A profile.
ghost use Rattle.std.specs.Prelude.{◌≡◌, ◌==◌, ◌<◌, Some, length, slice_get, find, IsSome};

use crate::{MeterPlan, PipeKind, PoolPlan, PortPlan, RulePlan, Shaping};
use code_table::CodeTable;
use qos_base::Sequence;
use std::marker::Model;

/// A profile whose every number is within its limits, and in which every name that a part gives is there.
#[derive(Debug, Drop)]
pub struct Profile {
    /// The pool of slots.
    pub pool: PoolPlan,
    /// The ports by number, 1 to 16.
    pub ports: Sequence<PortPlan>,
    /// The subport profiles, by number.
    pub subport_kinds: Sequence<(u32, Shaping)>,
    /// The pipe profiles, by number.
    pub pipe_kinds: Sequence<PipeKind>,
    /// The entries of the code points.
    pub codes: CodeTable<64>,
    /// The meters, in the order of the text; at most 64, no two of one name.
    pub meters: Sequence<MeterPlan>,
    /// The rules, by number.
    pub rules: Sequence<RulePlan>,
    /// The lines of the sections that were skipped.
    pub skipped: Sequence<u32>,
}

// Contracts see a profile as the record of its parts, each list as a list.
impl Model for Profile {
    ghost use Rattle.profile_plan.specs.Profile.{Plan, KeepsLimits};

    ghost Value = { Plan };

    ghost view = { λ p. record { pool = p.pool; ports = p.ports; subport_kinds = p.subport_kinds; pipe_kinds = p.pipe_kinds; codes = p.codes; meters = p.meters; rules = p.rules; skipped = p.skipped } };

    ghost invariant = { λ p. KeepsLimits (record { pool = p.pool; ports = p.ports; subport_kinds = p.subport_kinds; pipe_kinds = p.pipe_kinds; codes = p.codes; meters = p.meters; rules = p.rules; skipped = p.skipped }) };
}

impl Profile {
    ghost use Rattle.profile_plan.specs.Limits.{IsShaping, IsPipeKind};
    ghost use Rattle.profile_plan.specs.Profile.{KeepsLimits, IsPort, subport_kind_of, pipe_kind_of};

    /// All parts of the profile are within their limits.
    pub fn limits(&self)
        ensures { KeepsLimits self.now }
    {
        let _ = &self.pool;
    }

    /// A port, with its limits.
    pub fn port(&self, port: usize) -> &PortPlan
        requires { port < length self.now.ports }
        ensures value { slice_get self.now.ports port ≡ Some result.now }
        ensures limits { IsPort self.now.subport_kinds self.now.pipe_kinds result.now }
    {
        &self.ports.as_slice()[port]
    }

    /// The shaping of a subport profile that is there, with its limits.
    pub fn subport_kind(&self, number: u32) -> &Shaping
        requires { IsSome (subport_kind_of self.now.subport_kinds number) }
        ensures value { subport_kind_of self.now.subport_kinds number ≡ Some result.now }
        ensures limits { IsShaping result.now }
    {
        &subport_kind_among(self.subport_kinds.as_slice(), number).1
    }

    /// A pipe profile that is there, with its limits.
    pub fn pipe_kind(&self, number: u32) -> &PipeKind
        requires { IsSome (pipe_kind_of self.now.pipe_kinds number) }
        ensures value { pipe_kind_of self.now.pipe_kinds number ≡ Some result.now }
        ensures limits { IsPipeKind result.now }
    {
        pipe_kind_among(self.pipe_kinds.as_slice(), number)
    }
}

fn subport_kind_among(kinds: &[(u32, Shaping)], number: u32) -> &(u32, Shaping)
    requires { IsSome (find (λ kind. kind.0 == number) kinds.now) }
    ensures { find (λ kind. kind.0 == number) kinds.now ≡ Some result.now }
{
    for kind in kinds {
        if kind.0 == number {
            return kind;
        }
    }
    unreachable!()
}

fn pipe_kind_among(kinds: &[PipeKind], number: u32) -> &PipeKind
    requires { IsSome (find (λ kind. kind.number == number) kinds.now) }
    ensures { find (λ kind. kind.number == number) kinds.now ≡ Some result.now }
{
    for kind in kinds {
        if kind.number == number {
            return kind;
        }
    }
    unreachable!()
}
