//! The watermark of an oversubscribed subport.
ghost use Rattle.std.specs.Prelude.{◌≡◌, ◌^◌, ◌≤◌};
ghost use Rattle.credit_book.specs.Watermark.{OversubscriptionWatermark, new_watermark, stepped};

use std::marker::Model;

/// How much best effort traffic a pipe of weight 1 may send in one period of an oversubscribed subport
/// (Programmer's Guide, Quality of Service Framework, subport traffic class oversubscription).
///
/// All numbers are in bytes.
#[derive(Clone, Copy, Debug)]
pub struct Watermark {
    mtu_cost: u64,
    max: u64,
    be_credits: u64,
    value: u64,
}

impl Model for Watermark {
    ghost use Rattle.credit_book.specs.Watermark.{OversubscriptionWatermark, IsWatermark};

    ghost Value = { OversubscriptionWatermark };

    ghost view = { λ w. record { mtu_cost = w.mtu_cost; max = w.max; be_credits = w.be_credits; value = w.value } };

    ghost inverse = { λ w. record { mtu_cost = w.mtu_cost; max = w.max; be_credits = w.be_credits; value = w.value } };

    ghost invariant = { λ w. IsWatermark (record { mtu_cost = w.mtu_cost; max = w.max; be_credits = w.be_credits; value = w.value }) };
}

impl Watermark {
    /// A watermark at `max`, for a subport that has `be_credits` best effort credits each period.
    ///
    /// `mtu_cost`, the cost of the greatest packet, is its least; it is at most `max`, and `max` at most
    /// 2^48. `be_credits` is at most 2^40.
    pub fn new(mtu_cost: u64, max: u64, be_credits: u64) -> Watermark
        requires least { mtu_cost ≤ max }
        requires max { max ≤ 2 ^ 48 }
        requires be_credits { be_credits ≤ 2 ^ 40 }
        ensures { result ≡ new_watermark mtu_cost max be_credits }
    {
        Watermark {
            mtu_cost,
            max,
            be_credits,
            value: max,
        }
    }

    /// One step at a renewal of the subport's class credits, from what classes 0 to 11 together and best
    /// effort have used since the last one: down by one part in 128 where less than one greatest packet
    /// was left to best effort, and otherwise up by one part in 128 and one byte, within the bounds.
    ///
    /// Both numbers are at most 2^44.
    pub fn renew(&mut self, used_above: u64, used_be: u64)
        requires used_above { used_above ≤ 2 ^ 44 }
        requires used_be { used_be ≤ 2 ^ 44 }
        ensures { self.new ≡ stepped used_above used_be self.old }
    {
        let part = self.value >> 7;
        self.value = if used_be + self.mtu_cost + used_above > self.be_credits {
            self.mtu_cost.max(self.value - part)
        } else {
            self.max.min(self.value + part + 1)
        };
    }

    /// Where it stands: at least the cost of the greatest packet, at most its maximum.
    pub fn value(&self) -> u64
        ensures exact { result ≡ self.now.value }
        ensures least { self.now.mtu_cost ≤ result }
        ensures greatest { result ≤ self.now.max }
        ensures limit { self.now.max ≤ 2 ^ 48 }
    {
        self.value
    }
}
