//! Creating all outputs.
ghost use Rattle.std.specs.Prelude.{◌≡◌, ◌≤◌, ℕ, List, [], ◌∷◌, Some, map, length, slice_get};
ghost use Rattle.std.specs.Prelude.{string_bytes, vec_capacity, IsSome, IfSome, IfOk};
ghost use Rattle.std.specs.Prelude.{OnOk, OnErr};
ghost use Rattle.port_files.specs.Change.{IsKept, change_of};
ghost use Rattle.port_files.specs.Among.{AreApart, ChangesAmong};
ghost use Rattle.port_files.specs.Outs.{AreNamed, IsCreated, IsCreatedIf};

use qos_base::NoMemory;
use qos_io::{PutFault, Shelf};

/// Creates the outputs of these names, one after another. For each name that was tried `outs` has its sink, or None where it
/// could not be created.
///
/// The names differ, and `outs` is empty and has room for them. `NoMemory`: the shelf was refused memory; the file of that
/// name is as it was, and no name after it was tried.
pub fn create_all<H: Shelf>(
    shelf: &mut H,
    names: &[String],
    outs: &mut Vec<Option<H::Out>>,
) -> Result<(), NoMemory>
    requires apart { AreApart (map string_bytes names.now) }
    requires empty { outs.old.items ≡ [] }
    requires room { length names.now ≤ vec_capacity outs.old }
    ensures count { OnOk result (length outs.new.items ≡ length names.now) }
    ensures few { length outs.new.items ≤ length names.now }
    ensures named { AreNamed H.Out.Sink (map string_bytes names.now) outs.new.items }
    ensures created { H.Tells shelf.old → (n : ℕ) (name : List ℕ) → slice_get (map string_bytes names.now) n ≡ Some name
        → IsCreatedIf H.Out.Sink (change_of H.Shelf name shelf.old shelf.new) (slice_get outs.new.items n) }
    ensures sure { (n : ℕ) (name : List ℕ) → slice_get (map string_bytes names.now) n ≡ Some name → H.IsSureToWrite shelf.old name
        → IfSome (slice_get outs.new.items n) (λ out. IsSome out × IfSome out H.Out.IsSure) }
    ensures others { ChangesAmong H.Shelf (map string_bytes names.now) shelf.old shelf.new }
{
    for name in names {
        outs.push_reserved(create_one(shelf, name.as_str())?);
    }
    Ok(())
}

// Creates the output of a name, or None where it could not be created.
fn create_one<H: Shelf>(shelf: &mut H, name: &str) -> Result<Option<H::Out>, NoMemory>
    ensures named { IfOk result (λ out. IfSome out (λ k. H.Out.name k ≡ Some name.now)) }
    ensures created { H.Tells shelf.old → IfOk result (IsCreated H.Out.Sink (change_of H.Shelf name.now shelf.old shelf.new)) }
    ensures memory { H.Tells shelf.old → OnErr result (IsKept (change_of H.Shelf name.now shelf.old shelf.new)) }
    ensures sure { H.IsSureToWrite shelf.old name.now → IfOk result (λ out. IsSome out × IfSome out H.Out.IsSure) }
    ensures others { ChangesAmong H.Shelf (name.now ∷ []) shelf.old shelf.new }
{
    match shelf.create_out(name) {
        Ok(out) => Ok(Some(out)),
        Err(PutFault::Failed) => Ok(None),
        Err(PutFault::NoMemory) => Err(NoMemory),
    }
}
