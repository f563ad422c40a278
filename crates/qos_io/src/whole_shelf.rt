//! A shelf in memory that never fails.
ghost use Rattle.std.specs.Prelude.{◌≡◌, ◌≢◌, ◌++◌, ℕ, List, [], ◌∷◌, OnOk, OnErr, IfOk, IsOk, IsSome, IsOkUnless};
ghost use Rattle.std.specs.Option.{option_copied};
ghost use Rattle.std.specs.FinMap as map;

use crate::files::{Files, Place};
use crate::{PutFault, Shelf, WholeSink, WholeSource};
use qos_base::NoMemory;
use std::alloc::Global;
use std::marker::Model;

/// Files in memory. Nothing fails, but for want of memory. A contract sees it as the map from each name
/// to what its file holds, and the list of what was closed.
#[derive(Drop)]
pub struct WholeShelf {
    files: Files,
    alloc: Global,
}

impl Model for WholeShelf {
    ghost use Rattle.qos_io.specs.Memory.{WholeShelfState, whole_shelf_code};

    ghost Value = { WholeShelfState };

    ghost coded = { whole_shelf_code };

    ghost view = { λ a. a.files };
}

impl WholeShelf {
    /// A shelf with no file.
    pub fn new(alloc: Global) -> WholeShelf
        ensures { result ≡ record { files = map.empty; closed = [] } }
    {
        WholeShelf {
            files: Files::new(),
            alloc,
        }
    }

    /// Makes a file of this name with these bytes, in place of any that was there. The bytes that were there stay
    /// in memory until the shelf goes. `NoMemory` where memory was refused for the name; nothing has changed then.
    pub fn put_file(&mut self, name: &str, bytes: Vec<u8>) -> Result<(), NoMemory>
        ensures put { OnOk result (self.new.files ≡ map.insert self.old.files name.now bytes.items) }
        ensures held { OnOk result (map.get self.new.files name.now ≡ Some bytes.items) }
        ensures others { (n : List ℕ) → n ≢ name.now → map.get self.new.files n ≡ map.get self.old.files n }
        ensures closed { self.new.closed ≡ self.old.closed }
        ensures refused { OnErr result (self.new ≡ self.old) }
    {
        let place = Place::new(self.alloc, name)?;
        self.files.put(place, bytes);
        Ok(())
    }

    /// What the file of this name holds, or `None` where there is no such file.
    pub fn file(&self, name: &str) -> Option<&[u8]>
        ensures { option_copied result ≡ map.get self.now.files name.now }
    {
        self.files.get(name)
    }
}

impl Shelf for WholeShelf {
    ghost use Rattle.std.specs.Prelude.{⊤};
    ghost use Rattle.qos_io.specs.Bytes.{bytes_in};
    ghost use Rattle.std.specs.FinMap as map;
    ghost use Rattle.qos_io.specs.declared.sink.PutFault.TheVariants.{NoMemory};

    type In = WholeSource;

    type Out = WholeSink;

    ghost Tells = { λ _. ⊤ };

    ghost file = { λ s n. map.get s.files n };

    ghost closed = { λ s. s.closed };

    ghost faults = { λ _. 0 };

    ghost IsSureToRead = { λ _ _. ⊤ };

    ghost IsSureToWrite = { λ _ _. ⊤ };

    /// A source of a copy of the file's bytes, or of none where there is no such file. `NoMemory` where memory was
    /// refused for the copy.
    fn open_in(&mut self, name: &str) -> Result<WholeSource, PutFault>
        ensures only_memory { IsOkUnless result PutFault.NoMemory }
        ensures opened { IfOk result (λ source. source ≡ bytes_in (map.get self.old.files name.now)) }
        ensures unchanged { self.new ≡ self.old }
    {
        let bytes = match self.file(name) {
            Some(bytes) => Vec::from_slice(self.alloc, bytes)?,
            None => Vec::new(self.alloc),
        };
        Ok(WholeSource::new(bytes))
    }

    /// `NoMemory` where memory was refused; nothing has changed then.
    fn create_out(&mut self, name: &str) -> Result<WholeSink, PutFault>
        ensures only_memory { IsOkUnless result PutFault.NoMemory }
        ensures empty { IfOk result (λ sink. sink ≡ record { held = []; name = Some name.now }) }
        ensures put { OnOk result (self.new.files ≡ map.insert self.old.files name.now []) }
        ensures created { OnOk result (map.get self.new.files name.now ≡ Some []) }
        ensures files { (n : List ℕ) → n ≢ name.now → map.get self.new.files n ≡ map.get self.old.files n }
        ensures closed { self.new.closed ≡ self.old.closed }
        ensures refused { OnErr result (self.new ≡ self.old) }
    {
        let file = Place::new(self.alloc, name)?;
        let out = Place::new(self.alloc, name)?;
        self.files.put(file, Vec::new(self.alloc));
        Ok(WholeSink::at(self.alloc, out))
    }

    /// It takes no memory and never fails.
    fn close_out(&mut self, out: WholeSink) -> Result<(), PutFault>
        requires { IsSome out.name }
        ensures succeeds { IsOk result }
        ensures put { (n : List ℕ) → out.name ≡ Some n → self.new.files ≡ map.insert self.old.files n out.held }
        ensures held { (n : List ℕ) → out.name ≡ Some n → map.get self.new.files n ≡ Some out.held }
        ensures files { (n : List ℕ) → out.name ≢ Some n → map.get self.new.files n ≡ map.get self.old.files n }
        ensures closed { (n : List ℕ) → out.name ≡ Some n → self.new.closed ≡ self.old.closed ++ (record { name = n; held = out.held } ∷ []) }
    {
        let (place, bytes) = out.into_parts();
        self.files.close(place.unwrap(), bytes);
        Ok(())
    }
}
