//! The sections of a text.
use crate::fact::Fact;
use crate::head::Head;
use crate::list::put;
use qos_base::NoMemory;
use std::alloc::Global;
use std::collections::BTreeMap;
use std::marker::Model;

/// The facts of a section, in the order of their lines.
#[derive(Drop)]
pub(crate) struct Facts {
    items: Vec<Fact>,
    /// The form or kind that the first line which tells one says, so that no line has to look for it.
    mode: Option<usize>,
    /// The slots that they give: the last one by group and first one, so that no line has to look through all facts.
    taken: BTreeMap<(u8, u64), u64>,
}

impl Model for Facts {
    ghost use Rattle.std.specs.Prelude.{◌≡◌, List};
    ghost use Rattle.qos_profile.specs.declared.fact.Fact.{Fact};

    ghost Value = { List Fact };

    ghost use Rattle.qos_profile.specs.Facts.{mode_of};
    ghost use Rattle.qos_profile.specs.Taken.{AreTaken};

    ghost view = { λ f. f.items.items };

    ghost invariant = { λ f. (f.mode ≡ mode_of f.items.items) × AreTaken f.taken f.items.items };
}

impl Facts {
    ghost use Rattle.std.specs.Prelude.{◌≡◌, ◌∷◌, [], ◌++◌, OnOk};
    ghost use Rattle.std.specs.List.{list_any};
    ghost use Rattle.qos_profile.specs.Facts.{mode_of, overlaps};
    ghost use Rattle.qos_profile.specs.Taken.{IsFree};

    /// No facts.
    pub fn new(alloc: Global) -> Facts
        ensures { result ≡ [] }
    {
        Facts {
            items: Vec::new(alloc),
            mode: None,
            taken: BTreeMap::new(alloc),
        }
    }

    /// The facts, as a slice.
    pub fn as_slice(&self) -> &[Fact]
        ensures { result.now ≡ self.now }
    {
        self.items.as_slice()
    }

    /// The form or kind that they tell.
    pub fn mode(&self) -> Option<usize>
        ensures { result ≡ mode_of self.now }
    {
        self.mode
    }

    /// Whether one of them gives a slot that this one gives.
    pub fn any_overlaps(&self, fact: &Fact) -> bool
        ensures { result ≡ list_any (overlaps fact.now) self.now }
    {
        match self.taken.range(..=(fact.group, fact.last)).next_back() {
            Some((slot, last)) => slot.0 == fact.group && fact.first <= *last,
            None => false,
        }
    }

    /// Adds a fact, which gives no slot that another one gives.
    pub fn push(&mut self, fact: Fact) -> Result<(), NoMemory>
        requires { IsFree self.old fact }
        ensures { OnOk result (self.new ≡ self.old ++ fact ∷ []) }
    {
        let mode = self.mode.or(fact.told);
        if self.items.reserve(1).is_err() {
            return Err(NoMemory);
        }
        match self.taken.insert((fact.group, fact.first), fact.last) {
            Ok(_) => {
                put(&mut self.items, fact);
                self.mode = mode;
                Ok(())
            }
            Err(_) => Err(NoMemory),
        }
    }
}

/// A section of a text.
#[derive(Drop)]
pub(crate) struct Section {
    /// The line of its head.
    pub line: u32,
    pub head: Head,
    pub facts: Facts,
}
