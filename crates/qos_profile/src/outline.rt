//! The sections of the lines so far, each with a head of its own.
ghost use Rattle.qos_profile.specs.Known.{Notes};

use crate::fact::Fact;
use crate::head::{Head, is_red};
use crate::list::put;
use crate::section::{Facts, Section};
use qos_base::NoMemory;
use std::alloc::Global;
use std::collections::HashSet;
use std::marker::Model;

/// Sections, and their heads as a set, so that a head is found without looking through all sections.
#[derive(Drop)]
pub(crate) struct Outline {
    sections: Vec<Section>,
    heads: HashSet<Head>,
}

impl Model for Outline {
    ghost use Rattle.std.specs.Prelude.{List};
    ghost use Rattle.qos_profile.specs.declared.section.Section.{Section};

    ghost Value = { List Section };

    ghost use Rattle.qos_profile.specs.Known.{Knows};

    ghost view = { λ o. o.sections.items };

    ghost invariant = { λ o. Knows o.heads o.sections.items };
}

impl Outline {
    ghost use Rattle.std.specs.Prelude.{◌≡◌, ◌<◌, [], length, OnOk};
    ghost use Rattle.std.specs.Option.{option_copied, IfSome};
    ghost use Rattle.qos_profile.specs.Sections.{last_of};
    ghost use Rattle.qos_profile.specs.Pushes.{PushesFact};
    ghost use Rattle.qos_profile.specs.Taken.{IsFree};
    ghost use Rattle.qos_profile.specs.Known.{Begins, begun};

    /// No sections.
    pub fn new(alloc: Global) -> Outline
        ensures { result ≡ [] }
    {
        Outline {
            sections: Vec::new(alloc),
            heads: HashSet::new(alloc),
        }
    }

    /// The sections, as a slice.
    pub fn as_slice(&self) -> &[Section]
        ensures { result.now ≡ self.now }
    {
        self.sections.as_slice()
    }

    /// The last section, if there is one.
    pub fn last(&self) -> Option<&Section>
        ensures { option_copied result ≡ last_of self.now }
    {
        self.sections.last()
    }

    /// Adds a section of this head, without facts, unless one of that head is there.
    pub fn begin(&mut self, alloc: Global, line: u32, head: Head) -> Result<bool, NoMemory>
        ensures { Begins self.old self.new (begun line head) result }
    {
        if self.sections.reserve(1).is_err() {
            return Err(NoMemory);
        }
        match note(&mut self.heads, head) {
            Ok(true) => {
                let facts = Facts::new(alloc);
                put(&mut self.sections, Section { line, head, facts });
                Ok(true)
            }
            Ok(false) => Ok(false),
            Err(NoMemory) => Err(NoMemory),
        }
    }

    /// Adds a fact to the last section.
    pub fn add_fact(&mut self, fact: Fact) -> Result<(), NoMemory>
        requires there { 0 < length self.old }
        requires free { IfSome (last_of self.old) (λ s. IsFree s.facts fact) }
        ensures { OnOk result (PushesFact self.old self.new fact) }
    {
        let place = self.sections.len() - 1;
        let section = &mut self.sections[place];
        section.facts.push(fact)
    }
}

// Puts a head into the set of those that are there, and tells whether it is new. A section that is skipped is never
// there.
fn note(heads: &mut HashSet<Head>, head: Head) -> Result<bool, NoMemory>
    ensures { Notes heads.old heads.new head result }
{
    if is_red(&head) {
        return Ok(true);
    }
    match heads.insert(head) {
        Ok(added) => Ok(added),
        Err(_) => Err(NoMemory),
    }
}
