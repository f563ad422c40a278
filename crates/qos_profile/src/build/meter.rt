//! The meters, in the order of the text.
ghost use Rattle.std.specs.Prelude.{◌≡◌, take, IfOk};
ghost use Rattle.qos_profile.specs.Planned.{is_meter, name_in, drops_of, meter_kind_of, other_rate_of, meter_of, meters_of};

use crate::across::rate_at;
use crate::build::subport::choice_at;
use crate::fact::{Fact, mode_of};
use crate::head::Head;
use crate::list::add;
use crate::lookup::number_at;
use crate::section::Section;
use profile_plan::{MeterKind, MeterPlan, MeterRate};
use qos_base::{NoMemory, Sequence};
use std::alloc::Global;

/// Whether a section is a meter's.
pub(crate) fn is_meter(head: &Head) -> bool
    ensures { result ≡ is_meter head.now }
{
    matches!(head, Head::Meter(_))
}

// So many bytes, or all that there are.
fn front(bytes: &[u8], length: usize) -> &[u8]
    ensures { result.now ≡ take length bytes.now }
{
    &bytes[..length.min(bytes.len())]
}

fn name_in(alloc: Global, head: &Head) -> Result<Sequence<u8>, NoMemory>
    ensures { IfOk result (λ name. name ≡ name_in head.now) }
{
    match head {
        Head::Meter(name) => match front(&name.bytes, name.length).to_vec(alloc) {
            Ok(bytes) => Ok(Sequence::of(bytes)),
            Err(_) => Err(NoMemory),
        },
        _ => Ok(Sequence::of(Vec::new(alloc))),
    }
}

fn meter_kind(mode: Option<usize>) -> MeterKind
    ensures { result ≡ meter_kind_of mode }
{
    match mode {
        Some(0) => MeterKind::SrTcm,
        Some(1) => MeterKind::TrTcm,
        _ => MeterKind::Rfc4115,
    }
}

fn other_rate(kind: MeterKind, facts: &[Fact]) -> MeterRate
    ensures { result ≡ other_rate_of kind facts.now }
{
    match kind {
        MeterKind::SrTcm => MeterRate::Periods {
            bytes: 0,
            period: 1,
        },
        MeterKind::TrTcm => rate_at(facts, 3),
        MeterKind::Rfc4115 => rate_at(facts, 3),
    }
}

#[tactic(auto, unfolding(crate::specs::Planned::meter_of))]
fn meter(alloc: Global, head: &Head, facts: &[Fact]) -> Result<MeterPlan, NoMemory>
    ensures { IfOk result (λ meter. meter ≡ meter_of head.now facts.now) }
{
    let name = name_in(alloc, head)?;
    let kind = meter_kind(mode_of(facts));
    Ok(MeterPlan {
        name,
        kind,
        aware: choice_at(facts, 1, 0) == 1,
        cir: rate_at(facts, 2),
        other: other_rate(kind, facts),
        cbs: number_at(facts, 4, 0, 0),
        other_size: number_at(facts, 5, 0, 0),
        drops: drops(facts),
    })
}

fn drops(facts: &[Fact]) -> [bool; 3]
    ensures { result ≡ drops_of facts.now }
{
    [
        choice_at(facts, 6, 0) == 1,
        choice_at(facts, 7, 0) == 1,
        choice_at(facts, 8, 1) == 1,
    ]
}

/// The meters in the order of the text.
pub(crate) fn meters(alloc: Global, sections: &[Section]) -> Result<Sequence<MeterPlan>, NoMemory>
    ensures { IfOk result (λ meters. meters ≡ meters_of sections.now) }
{
    let mut meters = Vec::new(alloc);
    for section in sections {
        if is_meter(&section.head) {
            let next = meter(alloc, &section.head, section.facts.as_slice())?;
            add(&mut meters, next)?;
        }
    }
    Ok(Sequence::of(meters))
}
