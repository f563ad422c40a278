//! The pool of slots.
ghost use Rattle.std.specs.Prelude.{◌≡◌};
ghost use Rattle.profile_plan.specs.Limits.{IsPool};
ghost use Rattle.qos_profile.specs.Planned.{pool_of};

use crate::defaults::{RING_SIZE, SLOT_BYTES, SLOTS};
use crate::fact::Fact;
use crate::lookup::number_at;
use profile_plan::PoolPlan;

/// The pool that its section says.
#[tactic(auto, unfolding(crate::specs::Planned::pool_of))]
pub(crate) fn pool(facts: &[Fact]) -> PoolPlan
    requires { IsPool (pool_of facts.now) }
    ensures { result ≡ pool_of facts.now }
{
    PoolPlan {
        slots: number_at(facts, 0, 0, SLOTS) as u32,
        slot_bytes: number_at(facts, 1, 0, SLOT_BYTES) as u32,
        ring: number_at(facts, 2, 0, RING_SIZE) as u32,
    }
}
