//! A shelf in memory whose failures are counted.
ghost use Rattle.std.specs.Prelude.{◌≡◌, ◌≢◌, ◌↔◌, ◌++◌, ℕ, List, [], ◌∷◌, OnOk, OnErr, IfOk, IsOk, IsSome, IsErrOf, IsOkUnless};
ghost use Rattle.std.specs.Option.{option_copied};
ghost use Rattle.std.specs.FinMap as map;

use crate::{MemSink, MemSource, PutFault, Shelf, WholeShelf};
use qos_base::NoMemory;
use std::alloc::Global;
use std::marker::Model;

/// Files in memory. To open a name of no file fails and is counted. A contract sees it as the map from
/// each name to what its file holds, the list of what was closed, and the count of faults.
#[derive(Drop)]
pub struct MemShelf {
    shelf: WholeShelf,
    faults: u64,
    alloc: Global,
}

impl Model for MemShelf {
    ghost use Rattle.qos_io.specs.Memory.{ShelfState, shelf_state_code};

    ghost Value = { ShelfState };

    ghost coded = { shelf_state_code };

    ghost view = { λ a. record { files = a.shelf.files; closed = a.shelf.closed; faults = a.faults } };
}

impl MemShelf {
    /// A shelf with no file.
    pub fn new(alloc: Global) -> MemShelf
        ensures { result ≡ record { files = map.empty; closed = []; faults = 0 } }
    {
        MemShelf {
            shelf: WholeShelf::new(alloc),
            faults: 0,
            alloc,
        }
    }

    /// Makes a file of this name with these bytes, in place of any that was there. The bytes that were there stay
    /// in memory until the shelf goes. `NoMemory` where memory was refused for the name; nothing has changed then.
    pub fn put_file(&mut self, name: &str, bytes: Vec<u8>) -> Result<(), NoMemory>
        ensures put { OnOk result (self.new.files ≡ map.insert self.old.files name.now bytes.items) }
        ensures held { OnOk result (map.get self.new.files name.now ≡ Some bytes.items) }
        ensures others { (n : List ℕ) → n ≢ name.now → map.get self.new.files n ≡ map.get self.old.files n }
        ensures refused { OnErr result (self.new.files ≡ self.old.files) }
        ensures closed { self.new.closed ≡ self.old.closed }
        ensures faults { self.new.faults ≡ self.old.faults }
    {
        self.shelf.put_file(name, bytes)
    }

    /// What the file of this name holds, or `None` where there is no such file.
    pub fn file(&self, name: &str) -> Option<&[u8]>
        ensures { option_copied result ≡ map.get self.now.files name.now }
    {
        self.shelf.file(name)
    }
}

impl Shelf for MemShelf {
    ghost use Rattle.std.specs.Prelude.{IsSome, ⊤};
    ghost use Rattle.std.specs.FinMap as map;
    ghost use Rattle.qos_io.specs.declared.sink.PutFault.TheVariants.{Failed, NoMemory};
    ghost use Rattle.qos_io.specs.Fault.{HasRisen};
    ghost use Rattle.qos_io.specs.Memory.{one_more, no_calls};

    type In = MemSource;

    type Out = MemSink;

    ghost Tells = { λ _. ⊤ };

    ghost file = { λ s n. map.get s.files n };

    ghost closed = { λ s. s.closed };

    ghost faults = { λ s. s.faults };

    ghost IsSureToRead = { λ s n. IsSome (map.get s.files n) };

    ghost IsSureToWrite = { λ _ _. ⊤ };

    /// A source of a copy of the file's bytes. `Failed` exactly where there is no such file, and `NoMemory` where
    /// memory was refused for the copy.
    fn open_in(&mut self, name: &str) -> Result<MemSource, PutFault>
        ensures absent { IsErrOf result PutFault.Failed ↔ (map.get self.old.files name.now ≡ None) }
        ensures opened { IfOk result (λ source. map.get self.old.files name.now ≡ Some source.left) }
        ensures calls { IfOk result (λ source. source.calls ≡ no_calls []) }
        ensures unchanged { self.new.files ≡ self.old.files }
        ensures closed { self.new.closed ≡ self.old.closed }
        ensures counted { IsErrOf result PutFault.Failed → self.new.faults ≡ one_more self.old.faults }
        ensures uncounted { ¬ (IsErrOf result PutFault.Failed) → self.new.faults ≡ self.old.faults }
        ensures failed { IsErrOf result PutFault.Failed → HasRisen self.old.faults self.new.faults }
    {
        if self.shelf.file(name).is_none() {
            self.faults = self.faults.saturating_add(1);
            return Err(PutFault::Failed);
        }
        let source = self.shelf.open_in(name)?;
        Ok(MemSource::over(source, Vec::new(self.alloc)))
    }

    /// `NoMemory` where memory was refused; nothing has changed then.
    fn create_out(&mut self, name: &str) -> Result<MemSink, PutFault>
        ensures only_memory { IsOkUnless result PutFault.NoMemory }
        ensures empty { IfOk result (λ sink. sink ≡ record { held = []; name = Some name.now; calls = no_calls [] }) }
        ensures put { OnOk result (self.new.files ≡ map.insert self.old.files name.now []) }
        ensures created { OnOk result (map.get self.new.files name.now ≡ Some []) }
        ensures files { (n : List ℕ) → n ≢ name.now → map.get self.new.files n ≡ map.get self.old.files n }
        ensures refused { OnErr result (self.new.files ≡ self.old.files) }
        ensures closed { self.new.closed ≡ self.old.closed }
        ensures faults { self.new.faults ≡ self.old.faults }
    {
        let sink = self.shelf.create_out(name)?;
        Ok(MemSink::over(sink, Vec::new(self.alloc)))
    }

    /// It takes no memory and never fails.
    fn close_out(&mut self, out: MemSink) -> Result<(), PutFault>
        requires { IsSome out.name }
        ensures succeeds { IsOk result }
        ensures put { (n : List ℕ) → out.name ≡ Some n → self.new.files ≡ map.insert self.old.files n out.held }
        ensures held { (n : List ℕ) → out.name ≡ Some n → map.get self.new.files n ≡ Some out.held }
        ensures files { (n : List ℕ) → out.name ≢ Some n → map.get self.new.files n ≡ map.get self.old.files n }
        ensures closed { (n : List ℕ) → out.name ≡ Some n → self.new.closed ≡ self.old.closed ++ (record { name = n; held = out.held } ∷ []) }
        ensures stays { (n : List ℕ) → IsSome (map.get self.old.files n) → IsSome (map.get self.new.files n) }
        ensures faults { self.new.faults ≡ self.old.faults }
    {
        self.shelf.close_out(out.into_whole())
    }
}
