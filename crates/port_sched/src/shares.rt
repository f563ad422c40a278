//! The best effort shares of a subport's pipes, and what follows from them.
ghost use Rattle.std.specs.Prelude.{◌≡◌, ◌≤◌, ◌+◌, ◌*◌, ◌^◌, max, min, sum, fold, slice_index, nat_lt};
ghost use Rattle.credit_book.specs.Watermark.{new_watermark};
ghost use Rattle.profile_plan.specs.Limits.{IsWhole};
ghost use Rattle.profile_plan.specs.Profile.{IsSubport};
ghost use Rattle.qos_base.specs.Time.{IsLineRate};
ghost use Rattle.port_sched.specs.Shares.{share_of, shares_of, is_oversubscribed, watermark_start};
ghost use Rattle.port_sched.specs.Start.{plans_of};

use crate::level::BEST_EFFORT;
use credit_book::Watermark;
use profile_plan::{Profile, SubportPlan, Whole};

/// The greatest watermark, in bytes: 2^48.
const MOST: u128 = 1 << 48;

/// The shares of all pipes of a subport together, and the greatest of them, in bytes.
#[derive(Clone, Copy, Debug)]
pub(crate) struct Shares {
    pub(crate) total: u128,
    pub(crate) greatest: u128,
}

impl Shares {
    /// The shares of a subport's pipes on a line of this rate, where `plan` is the subport's.
    pub(crate) fn of(p: &Profile, line: u64, s: &SubportPlan, plan: &Whole) -> Shares
        requires line { IsLineRate line }
        requires subport { IsSubport p.now.subport_kinds p.now.pipe_kinds s.now }
        requires plan { IsWhole plan.now }
        ensures total { result.total ≡ sum (shares_of plan.now (plans_of p.now line s.now)) }
        ensures greatest { result.greatest ≡ fold max 0 (shares_of plan.now (plans_of p.now line s.now)) }
    {
        let mut total = 0;
        let mut greatest = 0;
        let numbers = s.pipes.as_slice();
        for number in numbers {
            let pipe = p.pipe_kind(*number).shaping.whole(line);
            let share = share(plan, &pipe);
            total += share;
            greatest = greater(greatest, share);
        }
        Shares { total, greatest }
    }

    /// Whether the pipes together may send more than the subport has.
    pub(crate) fn oversubscribe(&self, plan: &Whole) -> bool
        ensures { result ≡ nat_lt (slice_index plan.now.tc_credits 12) self.now.total }
    {
        u128::from(plan.tc_credits[BEST_EFFORT]) < self.total
    }

    /// The watermark that a subport starts with, where the greatest packet costs so much.
    pub(crate) fn watermark(&self, mtu_cost: u64, plan: &Whole) -> Watermark
        requires mtu_cost { mtu_cost ≤ 2 ^ 48 }
        requires plan { IsWhole plan.now }
        ensures { result ≡ new_watermark mtu_cost (min (2 ^ 48) (max mtu_cost self.now.greatest)) (slice_index plan.now.tc_credits 12) }
    {
        let most = greater(u128::from(mtu_cost), self.greatest).min(MOST) as u64;
        Watermark::new(mtu_cost, most, plan.tc_credits[BEST_EFFORT])
    }
}

// The best effort bytes that a pipe may send in one period of its subport.
fn share(subport: &Whole, pipe: &Whole) -> u128
    requires subport { IsWhole subport.now }
    requires pipe { IsWhole pipe.now }
    ensures exact { result ≡ share_of subport.now pipe.now }
    ensures limit { result ≤ 2 ^ 80 }
{
    u128::from(pipe.tc_credits[BEST_EFFORT]) * u128::from(subport.tc_period)
        / u128::from(pipe.tc_period)
}

fn greater(a: u128, b: u128) -> u128
    ensures { result ≡ max a b }
{
    a.max(b)
}
