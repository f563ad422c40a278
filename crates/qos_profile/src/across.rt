//! Ranges across keys.
ghost use Rattle.std.specs.Prelude.{◌≡◌};
ghost use Rattle.qos_profile.specs.Across.{keeps_period, rate_at, is_at_most, keeps_kind, keeps_ranges, across_line};

use crate::fact::{Fact, mode_of};
use crate::head::Head;
use crate::lookup::{has, number_at};
use crate::missing::is_rate;
use crate::section::Section;
use profile_plan::MeterRate;

fn keeps_period(facts: &[Fact]) -> bool
    ensures { result ≡ keeps_period facts.now }
{
    let period = number_at(facts, 4, 0, 0);
    let most = if is_rate(mode_of(facts)) {
        10_000
    } else {
        1 << 40
    };
    1 <= period && period <= most
}

/// A rate of a meter, by its group.
pub(crate) fn rate_at(facts: &[Fact], group: u8) -> MeterRate
    ensures { result ≡ rate_at facts.now group }
{
    if has(facts, group, 1) {
        MeterRate::PerSecond(number_at(facts, group, 1, 0))
    } else {
        MeterRate::Periods {
            bytes: number_at(facts, group, 0, 0),
            period: number_at(facts, group, 2, 1),
        }
    }
}

fn is_at_most(a: (u64, u64), b: (u64, u64)) -> bool
    ensures { result ≡ is_at_most a b }
{
    u128::from(a.0) * u128::from(b.1) <= u128::from(b.0) * u128::from(a.1)
}

fn keeps_kind(mode: Option<usize>, facts: &[Fact]) -> bool
    ensures { result ≡ keeps_kind mode facts.now }
{
    let committed = number_at(facts, 4, 0, 0);
    let other = number_at(facts, 5, 0, 0);
    match mode {
        Some(0) => !(committed == 0 && other == 0),
        Some(1) => {
            committed != 0
                && other != 0
                && is_at_most(rate_at(facts, 2).periods(), rate_at(facts, 3).periods())
        }
        _ => true,
    }
}

fn keeps_ranges(head: &Head, facts: &[Fact]) -> bool
    ensures { result ≡ keeps_ranges head.now facts.now }
{
    match head {
        Head::SubportKind(_) => keeps_period(facts),
        Head::PipeKind(_) => keeps_period(facts),
        Head::Meter(_) => keeps_kind(mode_of(facts), facts),
        _ => true,
    }
}

/// The first section that breaks a range across keys.
#[tactic(auto, unfolding(crate::specs::Across::across_line))]
pub(crate) fn across_line(sections: &[Section]) -> Option<u32>
    ensures { result ≡ across_line sections.now }
{
    for section in sections {
        if !keeps_ranges(&section.head, section.facts.as_slice()) {
            return Some(section.line);
        }
    }
    None
}
