//! A shelf of which planned creations and closings fail.
ghost use Rattle.std.specs.Prelude.{◌≡◌, None, Some, [], IsErrOf, OnOk, string_bytes};
ghost use Rattle.qos_io.specs.Fault.{Counts};

use qos_io::{MemSource, PutFault, Shelf, Sink};
use std::alloc::Global;

/// The creations and the closings that fail, by their numbers.
#[derive(Clone, Copy)]
pub(crate) struct Fails {
    pub(crate) creates: [Option<PutFault>; 3],
    pub(crate) closes: [Option<PutFault>; 3],
}

/// A shelf of which some calls fail, and how many it was asked for. It tells nothing.
#[derive(Drop)]
pub(crate) struct PlannedShelf {
    alloc: Global,
    fails: Fails,
    creates: u8,
    closes: u8,
    faults: u64,
}

impl PlannedShelf {
    /// A shelf that was asked for nothing.
    pub(crate) fn new(alloc: Global, fails: Fails) -> PlannedShelf {
        PlannedShelf {
            alloc,
            fails,
            creates: 0,
            closes: 0,
            faults: 0,
        }
    }

    /// How many creations, closings and faults it has counted.
    pub(crate) fn counts(&self) -> [u64; 3] {
        [u64::from(self.creates), u64::from(self.closes), self.faults]
    }
}

/// A sink that takes nothing.
#[derive(Drop)]
pub(crate) struct NamedSink {
    name: String,
}

// The call of this number fails where a fault is given: a failure is counted, and want of memory is not.
fn call(faults: &mut u64, fails: &[Option<PutFault>; 3], number: u8) -> Result<(), PutFault>
    ensures counts { Counts (λ n. n) (λ _. ⊥) faults.old faults.new (IsErrOf result PutFault.Failed) }
    ensures uncounted { OnOk result (faults.new ≡ faults.old) }
{
    match fails.get(number as usize) {
        Some(Some(PutFault::NoMemory)) => Err(PutFault::NoMemory),
        Some(Some(PutFault::Failed)) => {
            *faults = faults.saturating_add(1);
            Err(PutFault::Failed)
        }
        _ => Ok(()),
    }
}

impl Shelf for PlannedShelf {
    type In = MemSource;

    type Out = NamedSink;

    ghost Tells = { λ _. ⊥ };

    ghost file = { λ _ _. None };

    ghost closed = { λ _. [] };

    ghost faults = { λ s. s.faults };

    ghost IsSureToRead = { λ _ _. ⊥ };

    ghost IsSureToWrite = { λ _ _. ⊥ };

    fn open_in(&mut self, _name: &str) -> Result<MemSource, PutFault> {
        Err(PutFault::NoMemory)
    }

    fn create_out(&mut self, name: &str) -> Result<NamedSink, PutFault> {
        let name = String::from_str(self.alloc, name)?;
        let number = self.creates;
        self.creates = number.saturating_add(1);
        call(&mut self.faults, &self.fails.creates, number)?;
        Ok(NamedSink { name })
    }

    fn close_out(&mut self, _out: NamedSink) -> Result<(), PutFault> {
        let number = self.closes;
        self.closes = number.saturating_add(1);
        call(&mut self.faults, &self.fails.closes, number)
    }
}

impl Sink for NamedSink {
    ghost contents = { λ _. None };

    ghost name = { λ s. Some (string_bytes s.name) };

    ghost faults = { λ _. 0 };

    ghost IsSure = { λ _. ⊥ };

    fn put(&mut self, _bytes: &[u8]) -> Result<(), PutFault> {
        Err(PutFault::NoMemory)
    }
}
