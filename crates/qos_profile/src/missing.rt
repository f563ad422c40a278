//! What is missing.
ghost use Rattle.std.specs.Prelude.{◌≡◌, not, find};
ghost use Rattle.std.specs.Option.{option_map};
ghost use Rattle.std.specs.List.{list_all, range_with_len};
ghost use Rattle.qos_profile.specs.Lookups.{is_there};
ghost use Rattle.qos_profile.specs.Missing.{is_rate, has_shaping, has_other_rate, has_meter, has_subport, has_rule, is_complete, ports_to, has_ports, has_subports, has_sections, missing_line};

use crate::fact::{Fact, mode_of};
use crate::head::Head;
use crate::lookup::{has, has_all, number_at};
use crate::section::Section;
use crate::sections::is_there;

/// The greatest number of a port, which its head keeps.
const LAST_PORT: u64 = 15;

/// Whether a section is in rate form.
pub(crate) fn is_rate(mode: Option<usize>) -> bool
    ensures { result ≡ is_rate mode }
{
    match mode {
        Some(mode) => mode == 1,
        None => false,
    }
}

fn has_shaping(facts: &[Fact]) -> bool
    ensures { result ≡ has_shaping facts.now }
{
    has(facts, 0, 0)
        && (is_rate(mode_of(facts)) || has(facts, 1, 0))
        && has(facts, 2, 0)
        && has_all(facts, 3, 13)
        && has(facts, 4, 0)
}

fn has_other_rate(mode: Option<usize>, facts: &[Fact]) -> bool
    ensures { result ≡ has_other_rate mode facts.now }
{
    match mode {
        Some(mode) => mode == 0 || has(facts, 3, 0) && has(facts, 3, 2),
        None => true,
    }
}

fn has_meter(facts: &[Fact]) -> bool
    ensures { result ≡ has_meter facts.now }
{
    has(facts, 0, 0)
        && has(facts, 2, 0)
        && has(facts, 2, 2)
        && has_other_rate(mode_of(facts), facts)
        && has(facts, 4, 0)
        && has(facts, 5, 0)
}

fn has_subport(facts: &[Fact]) -> bool
    ensures { result ≡ has_subport facts.now }
{
    has(facts, 0, 0)
        && has(facts, 1, 0)
        && has(facts, 2, 0)
        && has_all(facts, 3, number_at(facts, 1, 0, 0))
}

fn has_rule(facts: &[Fact]) -> bool
    ensures { result ≡ has_rule facts.now }
{
    has(facts, 5, 0) && has(facts, 6, 0) && has(facts, 7, 0) && has(facts, 8, 0)
}

fn is_complete(head: &Head, facts: &[Fact]) -> bool
    ensures { result ≡ is_complete head.now facts.now }
{
    match head {
        Head::Pool => true,
        Head::Port(_) => has(facts, 0, 0) && has(facts, 1, 0),
        Head::SubportKind(_) => has_shaping(facts),
        Head::PipeKind(_) => has_shaping(facts),
        Head::Subport(_, _) => has_subport(facts),
        Head::Codes => true,
        Head::Meter(_) => has_meter(facts),
        Head::Rule(_) => has_rule(facts),
        Head::Red => true,
    }
}

pub(crate) fn ports_to(head: &Head) -> u64
    ensures { result ≡ ports_to head.now }
{
    match head {
        Head::Port(n) => (*n).min(LAST_PORT) + 1,
        _ => 0,
    }
}

fn has_ports(sections: &[Section], count: u64) -> bool
    ensures { result ≡ has_ports sections.now count }
{
    for n in 0..count {
        if !is_there(sections, &Head::Port(n)) {
            return false;
        }
    }
    true
}

fn has_subports(sections: &[Section], head: &Head, facts: &[Fact]) -> bool
    ensures { result ≡ has_subports sections.now head.now facts.now }
{
    match head {
        Head::Port(n) => are_subports(sections, *n, number_at(facts, 1, 0, 0)),
        _ => true,
    }
}

fn are_subports(sections: &[Section], port: u64, count: u64) -> bool
    ensures { result ≡ list_all (λ k. is_there sections.now (Head.Subport port k)) (range_with_len 0 count) }
{
    for subport in 0..count {
        if !is_there(sections, &Head::Subport(port, subport)) {
            return false;
        }
    }
    true
}

fn has_all_ports(sections: &[Section]) -> bool
    ensures { result ≡ list_all (λ s. has_ports sections.now (ports_to s.head)) sections.now }
{
    sections
        .iter()
        .all(|section| has_ports(sections, ports_to(&section.head)))
}

fn has_all_subports(sections: &[Section]) -> bool
    ensures { result ≡ list_all (λ s. has_subports sections.now s.head s.facts) sections.now }
{
    sections.iter().all(|section| has_subports(sections, &section.head, section.facts.as_slice()))
}

/// The line at which something is missing: 0 for a section.
#[tactic(auto, unfolding(crate::specs::Missing::missing_line))]
pub(crate) fn missing_line(sections: &[Section]) -> Option<u32>
    ensures { result ≡ missing_line sections.now }
{
    if !(has_ports(sections, 1) && has_all_ports(sections) && has_all_subports(sections)) {
        return Some(0);
    }
    incomplete_line(sections)
}

fn incomplete_line(sections: &[Section]) -> Option<u32>
    ensures { result ≡ option_map (λ s. s.line) (find (λ s. not (is_complete s.head s.facts)) sections.now) }
{
    for section in sections {
        if !is_complete(&section.head, section.facts.as_slice()) {
            return Some(section.line);
        }
    }
    None
}
