//! A shelf of which some calls fail. It tells nothing.
ghost use Rattle.std.specs.Prelude.{◌≡◌, None, Some, [], IsErrOf, OnOk, string_bytes};
ghost use Rattle.qos_io.specs.Fault.{Counts};

use qos_io::{MemShelf, MemSource, PutFault, Shelf, Sink};
use std::alloc::Global;

/// A call on a name. Reads and puts have a number, from 0.
#[derive(Clone, Copy, PartialEq)]
pub enum Call {
    Open,
    Read(u32),
    Create,
    Put(u32),
    Close,
}

/// A call that fails. A read is never refused memory.
#[derive(Clone, Copy)]
pub struct Planned<'a> {
    pub name: &'a str,
    pub call: Call,
    pub fault: PutFault,
}

/// Files in memory, and the calls on them that fail. An output that is created is an empty file, and holds what was put
/// once it is closed, also where the closing fails.
#[derive(Drop)]
pub struct FaultyShelf<'a> {
    alloc: Global,
    /// The files.
    pub files: MemShelf,
    plan: &'a [Planned<'a>],
    faults: u64,
}

impl<'a> FaultyShelf<'a> {
    /// A shelf with these files.
    pub fn new(alloc: Global, files: MemShelf, plan: &'a [Planned<'a>]) -> FaultyShelf<'a> {
        FaultyShelf {
            alloc,
            files,
            plan,
            faults: 0,
        }
    }
}

// The fault of a call on a name.
fn fault_of(plan: &[Planned<'_>], name: &str, call: Call) -> Option<PutFault> {
    for planned in plan {
        if planned.call == call && planned.name == name {
            return Some(planned.fault);
        }
    }
    None
}

// The number of the read of a name that fails.
fn read_of(plan: &[Planned<'_>], name: &str) -> Option<u32> {
    for planned in plan {
        if let Call::Read(nth) = planned.call {
            if planned.name == name {
                return Some(nth);
            }
        }
    }
    None
}

// The number of the put into a name that fails, and its fault.
fn put_of(plan: &[Planned<'_>], name: &str) -> Option<(u32, PutFault)> {
    for planned in plan {
        if let Call::Put(nth) = planned.call {
            if planned.name == name {
                return Some((nth, planned.fault));
            }
        }
    }
    None
}

// A call that fails where a fault is given: a failure is counted, and want of memory is not.
fn answer(faults: &mut u64, fails: Option<PutFault>) -> Result<(), PutFault>
    ensures counts { Counts (λ n. n) (λ _. ⊥) faults.old faults.new (IsErrOf result PutFault.Failed) }
    ensures uncounted { OnOk result (faults.new ≡ faults.old) }
{
    match fails {
        None => Ok(()),
        Some(PutFault::NoMemory) => Err(PutFault::NoMemory),
        Some(PutFault::Failed) => {
            *faults = faults.saturating_add(1);
            Err(PutFault::Failed)
        }
    }
}

impl<'a> Shelf for FaultyShelf<'a> {
    type In = MemSource;

    type Out = FaultySink;

    ghost Tells = { λ _. ⊥ };

    ghost file = { λ _ _. None };

    ghost closed = { λ _. [] };

    ghost faults = { λ s. s.faults };

    ghost IsSureToRead = { λ _ _. ⊥ };

    ghost IsSureToWrite = { λ _ _. ⊥ };

    /// A name of no file opens as an empty one.
    fn open_in(&mut self, name: &str) -> Result<MemSource, PutFault> {
        let mut fails = Vec::new(self.alloc);
        if let Some(nth) = read_of(self.plan, name) {
            fails.push(nth).map_err(|_| PutFault::NoMemory)?;
        }
        let bytes = self.files.file(name).unwrap_or_default();
        let bytes = Vec::from_slice(self.alloc, bytes)?;
        answer(&mut self.faults, fault_of(self.plan, name, Call::Open))?;
        Ok(MemSource::new(bytes, fails))
    }

    fn create_out(&mut self, name: &str) -> Result<FaultySink, PutFault> {
        let own = String::from_str(self.alloc, name)?;
        answer(&mut self.faults, fault_of(self.plan, name, Call::Create))?;
        let put = self.files.put_file(name, Vec::new(self.alloc));
        put.map_err(|_| PutFault::NoMemory)?;
        Ok(FaultySink {
            name: own,
            held: Vec::new(self.alloc),
            puts: 0,
            fails: put_of(self.plan, name),
            faults: 0,
        })
    }

    fn close_out(&mut self, out: FaultySink) -> Result<(), PutFault> {
        let FaultySink { name, held, .. } = out;
        let put = self.files.put_file(name.as_str(), held);
        put.map_err(|_| PutFault::NoMemory)?;
        let fault = fault_of(self.plan, name.as_str(), Call::Close);
        answer(&mut self.faults, fault)
    }
}

/// A sink of a shelf.
#[derive(Drop)]
pub struct FaultySink {
    name: String,
    held: Vec<u8>,
    puts: u32,
    fails: Option<(u32, PutFault)>,
    faults: u64,
}

impl Sink for FaultySink {
    ghost contents = { λ _. None };

    ghost name = { λ s. Some (string_bytes s.name) };

    ghost faults = { λ s. s.faults };

    ghost IsSure = { λ _. ⊥ };

    fn put(&mut self, bytes: &[u8]) -> Result<(), PutFault> {
        let nth = self.puts;
        self.puts = nth.saturating_add(1);
        match self.fails {
            Some((n, fault)) if n == nth => answer(&mut self.faults, Some(fault)),
            _ => Ok(self.held.extend_from_slice(bytes)?),
        }
    }
}
