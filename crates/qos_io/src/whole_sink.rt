//! A sink in memory that never fails.
ghost use Rattle.std.specs.Prelude.{◌≡◌, ◌++◌, [], OnOk, OnErr, IsOkUnless};

use crate::files::Place;
use crate::{PutFault, Sink};
use std::alloc::Global;
use std::marker::Model;

/// Bytes in memory to write to. It never fails, but for want of memory.
#[derive(Drop)]
pub struct WholeSink {
    held: Vec<u8>,
    place: Option<Place>,
}

impl Model for WholeSink {
    ghost use Rattle.qos_io.specs.Memory.{WholeSinkState};

    ghost Value = { WholeSinkState };

    ghost view = { λ a. record { held = a.held.items; name = a.place } };
}

impl WholeSink {
    /// An empty sink of no name.
    pub fn new(alloc: Global) -> WholeSink
        ensures { result ≡ record { held = []; name = None } }
    {
        WholeSink {
            held: Vec::new(alloc),
            place: None,
        }
    }

    /// The bytes that it holds.
    pub fn bytes(&self) -> &[u8]
        ensures { result.now ≡ self.now.held }
    {
        self.held.as_slice()
    }

    /// An empty sink whose bytes will go to this place.
    pub(crate) fn at(alloc: Global, place: Place) -> WholeSink
        ensures { result ≡ record { held = []; name = Some place } }
    {
        WholeSink {
            held: Vec::new(alloc),
            place: Some(place),
        }
    }

    /// The place for its bytes, if it has one, and the bytes.
    pub(crate) fn into_parts(self) -> (Option<Place>, Vec<u8>)
        ensures place { result.0 ≡ self.name }
        ensures bytes { result.1.items ≡ self.held }
    {
        let WholeSink { held, place } = self;
        (place, held)
    }
}

impl Sink for WholeSink {
    ghost use Rattle.std.specs.Prelude.{Some, ⊤};
    ghost use Rattle.qos_io.specs.declared.sink.PutFault.TheVariants.{NoMemory};

    ghost contents = { λ s. Some s.held };

    ghost name = { λ s. s.name };

    ghost faults = { λ _. 0 };

    ghost IsSure = { λ _. ⊤ };

    /// `NoMemory` where memory was refused, and nothing was added.
    fn put(&mut self, bytes: &[u8]) -> Result<(), PutFault>
        ensures only_memory { IsOkUnless result PutFault.NoMemory }
        ensures added { OnOk result (self.new.held ≡ self.old.held ++ bytes.now) }
        ensures kept { OnErr result (self.new.held ≡ self.old.held) }
        ensures name { self.new.name ≡ self.old.name }
    {
        self.held.extend_from_slice(bytes)?;
        Ok(())
    }
}
