//! Shapings.
ghost use Rattle.std.specs.Prelude.{◌≡◌};
ghost use Rattle.qos_profile.specs.Planned.{classes_of, whole_form_of, rate_form_of, shaping_of};

use crate::fact::{Fact, mode_of};
use crate::lookup::number_at;
use crate::missing::is_rate;
use profile_plan::{CLASSES, Rates, Shaping, Whole};

fn classes(facts: &[Fact]) -> [u64; CLASSES]
    ensures { result ≡ classes_of facts.now }
{
    let mut classes = [0; CLASSES];
    for class in 0..CLASSES {
        classes[class] = number_at(facts, 3, class as u64, 0);
    }
    classes
}

#[tactic(auto, unfolding(crate::specs::Planned::whole_form_of))]
fn whole_form(facts: &[Fact]) -> Whole
    ensures { result ≡ whole_form_of facts.now }
{
    Whole {
        tb_credits: number_at(facts, 0, 0, 0),
        tb_period: number_at(facts, 1, 0, 0),
        tb_size: number_at(facts, 2, 0, 0),
        tc_credits: classes(facts),
        tc_period: number_at(facts, 4, 0, 0),
    }
}

#[tactic(auto, unfolding(crate::specs::Planned::rate_form_of))]
fn rate_form(facts: &[Fact]) -> Rates
    ensures { result ≡ rate_form_of facts.now }
{
    Rates {
        tb_rate: number_at(facts, 0, 0, 0),
        tb_size: number_at(facts, 2, 0, 0),
        tc_rates: classes(facts),
        tc_period_ms: number_at(facts, 4, 0, 0),
    }
}

/// The shaping that a section says, in its form.
#[tactic(auto, unfolding(crate::specs::Planned::shaping_of))]
pub(crate) fn shaping(facts: &[Fact]) -> Shaping
    ensures { result ≡ shaping_of facts.now }
{
    if is_rate(mode_of(facts)) {
        Shaping::Rate(rate_form(facts))
    } else {
        Shaping::Whole(whole_form(facts))
    }
}
