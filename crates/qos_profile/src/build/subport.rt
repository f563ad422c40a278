//! A subport and its pipes.
ghost use Rattle.std.specs.Prelude.{◌≡◌, ◌+◌, ◌<◌, ◌≤◌, ℕ, Some, IfOk, length, min, nat_le, ◌&&◌, slice_index, if◌then◌else◌};
ghost use Rattle.profile_plan.specs.declared.limits.TheConstants.{MAX_SUBPORT_PIPES};
ghost use Rattle.qos_profile.specs.Lookups.{covers, number_or};
ghost use Rattle.qos_profile.specs.Fits.{FitsSubport};
ghost use Rattle.qos_profile.specs.Planned.{word_or, choice_at, sizes_or, subport_of, pipes_of};

use crate::fact::Fact;
use crate::lookup::{number_at, number_or, value_at};
use crate::value::Value;
use profile_plan::{CLASSES, SubportPlan};
use qos_base::{NoMemory, Sequence};
use std::alloc::Global;

fn word_or(other: usize, value: Option<Value>) -> usize
    ensures { result ≡ word_or other value }
{
    match value {
        Some(Value::Word(n)) => n,
        _ => other,
    }
}

/// The word that a key has, by its place, or another.
pub(crate) fn choice_at(facts: &[Fact], group: u8, other: usize) -> usize
    ensures { result ≡ choice_at facts.now group other }
{
    word_or(other, value_at(facts, group, 0))
}

fn sizes_or(sizes: Option<Value>) -> [u32; CLASSES]
    ensures { result ≡ sizes_or sizes }
{
    match sizes {
        Some(Value::Sizes(sizes)) => sizes,
        _ => [0; CLASSES],
    }
}

fn end_of(last: u64, count: u64) -> u64
    ensures { result ≡ min (last + 1) count }
{
    if last < count { last + 1 } else { count }
}

// Writes a number at the places from the first to the last, of which some may be past the end.
fn fill(pipes: &mut [u32], first: u64, last: u64, kind: u32)
    requires { length pipes.old ≤ MAX_SUBPORT_PIPES }
    ensures { (k : ℕ) → k < length pipes.old → slice_index pipes.new k ≡ (if nat_le first k && nat_le k last then kind else slice_index pipes.old k) }
{
    let end = end_of(last, pipes.len() as u64);
    for pipe in first..end {
        pipes[pipe as usize] = kind;
    }
}

// Writes a profile's number at the pipes that a line gives.
fn give(pipes: &mut [u32], fact: &Fact)
    requires { length pipes.old ≤ MAX_SUBPORT_PIPES }
    ensures { (k : ℕ) → k < length pipes.old → slice_index pipes.new k ≡ (if covers 3 k fact.now then min 255 (number_or 0 (Some fact.now.value)) else slice_index pipes.old k) }
{
    let kind = number_or(0, Some(fact.value)).min(255);
    if fact.group == 3 {
        fill(pipes, fact.first, fact.last, kind as u32);
    }
}

// The pipe profile of each pipe. The earlier of two lines counts, so the last is written first.
fn pipes(alloc: Global, facts: &[Fact]) -> Result<Sequence<u32>, NoMemory>
    requires { FitsSubport (subport_of facts.now) }
    ensures { IfOk result (λ pipes. pipes ≡ pipes_of facts.now) }
{
    let count = number_at(facts, 1, 0, 0) as usize;
    let mut pipes = vec![in alloc; 0; count].map_err(|_| NoMemory)?;
    for place in (0..facts.len()).rev() {
        give(&mut pipes, &facts[place]);
    }
    Ok(Sequence::of(pipes))
}

/// The subport that its section says.
#[tactic(auto, unfolding(crate::specs::Planned::subport_of))]
pub(crate) fn subport(alloc: Global, facts: &[Fact]) -> Result<SubportPlan, NoMemory>
    requires { FitsSubport (subport_of facts.now) }
    ensures { IfOk result (λ subport. subport ≡ subport_of facts.now) }
{
    let pipes = pipes(alloc, facts)?;
    Ok(SubportPlan {
        kind: number_at(facts, 0, 0, 0) as u32,
        sizes: sizes_or(value_at(facts, 2, 0)),
        pipes,
        oversub: choice_at(facts, 4, 0) == 1,
    })
}
