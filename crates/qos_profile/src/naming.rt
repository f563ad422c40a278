//! Names that are not there.
ghost use Rattle.std.specs.Prelude.{◌≡◌, not, find};
ghost use Rattle.std.specs.Option.{option_map};
ghost use Rattle.qos_profile.specs.Naming.{subports_of, pipes_of, is_subport, names_in_subport, port_of_rule, subport_of_rule, number_in_rule, names_in_rule, names_of_fact, names_of_head, unnamed_in, unnamed_line};

use crate::fact::Fact;
use crate::head::Head;
use crate::lookup::{facts_at, number_at};
use crate::section::Section;
use crate::sections::is_there;
use crate::value::Value;

fn subports_of(sections: &[Section], port: u64) -> u64
    ensures { result ≡ subports_of sections.now port }
{
    number_at(facts_at(sections, &Head::Port(port)), 1, 0, 0)
}

fn pipes_of(sections: &[Section], port: u64, subport: u64) -> u64
    ensures { result ≡ pipes_of sections.now port subport }
{
    number_at(facts_at(sections, &Head::Subport(port, subport)), 1, 0, 0)
}

fn is_subport(sections: &[Section], port: u64, subport: u64) -> bool
    ensures { result ≡ is_subport sections.now port subport }
{
    subport < subports_of(sections, port)
}

fn names_in_subport(sections: &[Section], facts: &[Fact], fact: &Fact, value: Value) -> bool
    ensures { result ≡ names_in_subport sections.now facts.now fact.now value }
{
    match value {
        Value::Number(n) => {
            (fact.group != 0 || is_there(sections, &Head::SubportKind(n)))
                && (fact.group != 3
                    || is_there(sections, &Head::PipeKind(n))
                        && fact.last < number_at(facts, 1, 0, 0))
        }
        _ => true,
    }
}

fn number_in_rule(sections: &[Section], port: u64, subport: u64, group: u8, n: u64) -> bool
    ensures { result ≡ number_in_rule sections.now port subport group n }
{
    match group {
        5 => is_there(sections, &Head::Port(n)),
        6 => !is_there(sections, &Head::Port(port)) || is_subport(sections, port, n),
        7 => !is_subport(sections, port, subport) || n < pipes_of(sections, port, subport),
        _ => true,
    }
}

fn names_in_rule(sections: &[Section], facts: &[Fact], fact: &Fact, value: Value) -> bool
    ensures { result ≡ names_in_rule sections.now facts.now fact.now value }
{
    match value {
        Value::Number(n) => {
            let port = number_at(facts, 5, 0, 0);
            let subport = number_at(facts, 6, 0, 0);
            number_in_rule(sections, port, subport, fact.group, n)
        }
        Value::Name(name) => is_there(sections, &Head::Meter(name)),
        _ => true,
    }
}

fn names_of_fact(sections: &[Section], head: &Head, facts: &[Fact], fact: &Fact) -> bool
    ensures { result ≡ names_of_fact sections.now head.now facts.now fact.now }
{
    match head {
        Head::Subport(_, _) => names_in_subport(sections, facts, fact, fact.value),
        Head::Rule(_) => names_in_rule(sections, facts, fact, fact.value),
        _ => true,
    }
}

fn names_of_head(sections: &[Section], head: &Head) -> bool
    ensures { result ≡ names_of_head sections.now head.now }
{
    match head {
        Head::Subport(port, subport) => is_subport(sections, *port, *subport),
        _ => true,
    }
}

fn unnamed_in(sections: &[Section], section: &Section) -> Option<u32>
    ensures { result ≡ unnamed_in sections.now section.now }
{
    if !names_of_head(sections, &section.head) {
        return Some(section.line);
    }
    unnamed_fact(sections, &section.head, section.facts.as_slice())
}

fn unnamed_fact(sections: &[Section], head: &Head, facts: &[Fact]) -> Option<u32>
    ensures { result ≡ option_map (λ fact. fact.line) (find (λ fact. not (names_of_fact sections.now head.now facts.now fact)) facts.now) }
{
    for fact in facts {
        if !names_of_fact(sections, head, facts, fact) {
            return Some(fact.line);
        }
    }
    None
}

/// The first line at which a name is not there.
#[tactic(auto, unfolding(crate::specs::Naming::unnamed_line))]
pub(crate) fn unnamed_line(sections: &[Section]) -> Option<u32>
    ensures { result ≡ unnamed_line sections.now }
{
    for section in sections {
        if let Some(line) = unnamed_in(sections, section) {
            return Some(line);
        }
    }
    None
}
