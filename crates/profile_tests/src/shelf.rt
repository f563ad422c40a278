//! A shelf of one file, whose opening or one of whose reads fails. It tells nothing.
ghost use Rattle.std.specs.Prelude.{◌≡◌, None, [], Some, Err};

use qos_io::{MemSink, MemSource, PutFault, Shelf};
use std::alloc::Global;

/// Every name is that of the file. No file is created.
#[derive(Drop)]
pub struct OneFile {
    alloc: Global,
    text: Vec<u8>,
    open: Option<PutFault>,
    read: Option<u32>,
    faults: u64,
}

impl OneFile {
    /// A file of this text, where the opening fails so, and the read of this number, from 0.
    pub fn new(alloc: Global, text: Vec<u8>, open: Option<PutFault>, read: Option<u32>) -> OneFile {
        OneFile {
            alloc,
            text,
            open,
            read,
            faults: 0,
        }
    }

    // The opened file; only memory can be wanting.
    fn source(&self) -> Result<MemSource, PutFault>
        ensures { result ≡ Err PutFault.Failed → ⊥ }
    {
        let text = Vec::from_slice(self.alloc, self.text.as_slice())?;
        let mut fails = Vec::new(self.alloc);
        if let Some(nth) = self.read {
            fails.push(nth).map_err(|_| PutFault::NoMemory)?;
        }
        Ok(MemSource::new(text, fails))
    }
}

impl Shelf for OneFile {
    type In = MemSource;

    type Out = MemSink;

    ghost Tells = { λ _. ⊥ };

    ghost file = { λ _ _. None };

    ghost closed = { λ _. [] };

    ghost faults = { λ s. s.faults };

    ghost IsSureToRead = { λ _ _. ⊥ };

    ghost IsSureToWrite = { λ _ _. ⊥ };

    fn open_in(&mut self, _name: &str) -> Result<MemSource, PutFault> {
        match self.open {
            None => self.source(),
            Some(PutFault::NoMemory) => Err(PutFault::NoMemory),
            Some(PutFault::Failed) => {
                self.faults = self.faults.saturating_add(1);
                Err(PutFault::Failed)
            }
        }
    }

    fn create_out(&mut self, _name: &str) -> Result<MemSink, PutFault> {
        Err(PutFault::NoMemory)
    }

    fn close_out(&mut self, _out: MemSink) -> Result<(), PutFault> {
        Err(PutFault::NoMemory)
    }
}
