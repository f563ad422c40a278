//! The value of a key: that of the one line that gives it.
ghost use Rattle.std.specs.Prelude.{◌≡◌, ◌+◌, ◌^◌, ◌<◌, ◌≤◌, find};
ghost use Rattle.qos_profile.specs.Sections.{same_head};
ghost use Rattle.qos_profile.specs.Lookups.{covers, value_at, has, has_all, number_or, number_at, facts_at};

use crate::fact::Fact;
use crate::head::Head;
use crate::section::Section;
use crate::sections::same_head;
use crate::value::Value;

fn covers(group: u8, slot: u64, fact: &Fact) -> bool
    ensures { result ≡ covers group slot fact.now }
{
    fact.group == group && fact.first <= slot && slot <= fact.last
}

/// The value of a slot, if a line gives it.
pub(crate) fn value_at(facts: &[Fact], group: u8, slot: u64) -> Option<Value>
    ensures { result ≡ value_at facts.now group slot }
{
    for fact in facts {
        if covers(group, slot, fact) {
            return Some(fact.value);
        }
    }
    None
}

/// Whether a line gives a slot.
pub(crate) fn has(facts: &[Fact], group: u8, slot: u64) -> bool
    ensures { result ≡ has facts.now group slot }
{
    facts.iter().any(|fact| covers(group, slot, fact))
}

/// Whether lines give so many slots from 0 on.
pub(crate) fn has_all(facts: &[Fact], group: u8, count: u64) -> bool
    ensures { result ≡ has_all facts.now group 0 count }
{
    for slot in 0..count {
        if !has(facts, group, slot) {
            return false;
        }
    }
    true
}

pub(crate) fn number_or(other: u64, value: Option<Value>) -> u64
    ensures { result ≡ number_or other value }
{
    match value {
        Some(Value::Number(n)) => n,
        _ => other,
    }
}

/// The number of a slot, or another.
pub(crate) fn number_at(facts: &[Fact], group: u8, slot: u64, other: u64) -> u64
    ensures { result ≡ number_at facts.now group slot other }
{
    number_or(other, value_at(facts, group, slot))
}

/// The facts of the section of this head, if there is one.
pub(crate) fn facts_at<'a>(sections: &'a [Section], head: &Head) -> &'a [Fact]
    ensures { result.now ≡ facts_at sections.now head.now }
{
    for section in sections {
        if same_head(&section.head, head) {
            return section.facts.as_slice();
        }
    }
    &[]
}
