//! The profiles of subports and pipes, by number.
ghost use Rattle.std.specs.Prelude.{◌≡◌, ◌<◌, IfOk};
ghost use Rattle.qos_profile.specs.Lookups.{facts_at};
ghost use Rattle.qos_profile.specs.Fits.{FitsKind, FitKinds};
ghost use Rattle.qos_profile.specs.Planned.{weights_or, shaping_of, pipe_kind_of, subport_kinds_of, pipe_kinds_of};

use crate::build::shaping::shaping;
use crate::head::Head;
use crate::list::add;
use crate::lookup::{facts_at, number_at, value_at};
use crate::section::Section;
use crate::sections::is_there;
use crate::value::Value;
use profile_plan::{PipeKind, Shaping};
use qos_base::{NoMemory, Sequence};
use std::alloc::Global;

fn weights_or(weights: Option<Value>) -> [u8; 4]
    ensures { result ≡ weights_or weights }
{
    match weights {
        Some(Value::Weights(weights)) => weights,
        _ => [1; 4],
    }
}

fn subport_kind(sections: &[Section], number: u64) -> (u32, Shaping)
    requires { number < 64 }
    ensures { result ≡ (number, shaping_of (facts_at sections.now (Head.SubportKind number))) }
{
    let facts = facts_at(sections, &Head::SubportKind(number));
    (number as u32, shaping(facts))
}

/// The subport profiles by number.
pub(crate) fn subport_kinds(
    alloc: Global,
    sections: &[Section],
) -> Result<Sequence<(u32, Shaping)>, NoMemory>
    ensures { IfOk result (λ kinds. kinds ≡ subport_kinds_of sections.now) }
{
    let mut kinds = Vec::new(alloc);
    for number in 0..64 {
        if is_there(sections, &Head::SubportKind(number)) {
            add(&mut kinds, subport_kind(sections, number))?;
        }
    }
    Ok(Sequence::of(kinds))
}

#[tactic(auto, unfolding(crate::specs::Planned::pipe_kind_of))]
fn pipe_kind(sections: &[Section], number: u64) -> PipeKind
    requires number { number < 256 }
    requires fits { FitsKind (pipe_kind_of number (facts_at sections.now (Head.PipeKind number))) }
    ensures { result ≡ pipe_kind_of number (facts_at sections.now (Head.PipeKind number)) }
{
    let facts = facts_at(sections, &Head::PipeKind(number));
    PipeKind {
        number: number as u32,
        shaping: shaping(facts),
        weights: weights_or(value_at(facts, 5, 0)),
        ov_weight: number_at(facts, 6, 0, 1) as u8,
    }
}

/// The pipe profiles by number.
pub(crate) fn pipe_kinds(
    alloc: Global,
    sections: &[Section],
) -> Result<Sequence<PipeKind>, NoMemory>
    requires { FitKinds sections.now }
    ensures { IfOk result (λ kinds. kinds ≡ pipe_kinds_of sections.now) }
{
    let mut kinds = Vec::new(alloc);
    for number in 0..256 {
        if is_there(sections, &Head::PipeKind(number)) {
            add(&mut kinds, pipe_kind(sections, number))?;
        }
    }
    Ok(Sequence::of(kinds))
}
