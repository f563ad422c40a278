//! Closing all outputs.
ghost use Rattle.std.specs.Prelude.{◌≡◌, ◌≤◌, ℕ, Bool, List, [], Some, true, false, length};
ghost use Rattle.std.specs.Prelude.{slice_get, vec_capacity, IsSome, IfSome, OnOk, All};
ghost use Rattle.std.specs.Prelude.{None, Ok, IfOk};
ghost use Rattle.std.specs.List.{Contains};
ghost use Rattle.port_files.specs.Change.{change_of};
ghost use Rattle.port_files.specs.Among.{AreApart, ChangesAmong};
ghost use Rattle.port_files.specs.Outs.{AllTell, AreNamed, IsShut, IsTold};

use qos_base::NoMemory;
use qos_io::{PutFault, Shelf};

/// Closes these sinks, one after another, whatever becomes of the others. For each place `failed` tells whether the closing
/// failed; where there is no sink it did not.
///
/// Each sink has a name, and `failed` is empty and has room for all. `NoMemory`: the shelf was refused memory for one of
/// them; all are closed all the same.
pub fn close_all<H: Shelf>(
    shelf: &mut H,
    outs: Vec<Option<H::Out>>,
    failed: &mut Vec<bool>,
) -> Result<(), NoMemory>
    requires named { All (λ out. IfSome out (λ k. IsSome (H.Out.name k))) outs.items }
    requires empty { failed.old.items ≡ [] }
    requires room { length outs.items ≤ vec_capacity failed.old }
    ensures count { length failed.new.items ≡ length outs.items }
    ensures shut { H.Tells shelf.old → AllTell H.Out.Sink outs.items → (names : List (List ℕ)) → AreNamed H.Out.Sink names outs.items
        → AreApart names → (n : ℕ) (name : List ℕ) → slice_get names n ≡ Some name → IfSome (slice_get outs.items n)
        (λ out. IsShut H.Out.Sink (change_of H.Shelf name shelf.old shelf.new) out) }
    ensures told { H.Tells shelf.old → AllTell H.Out.Sink outs.items → OnOk result ((names : List (List ℕ))
        → AreNamed H.Out.Sink names outs.items → AreApart names → (n : ℕ) (name : List ℕ) → slice_get names n ≡ Some name
        → IfSome (slice_get outs.items n)
        (λ out. IfSome (slice_get failed.new.items n) (IsTold H.Out.Sink (change_of H.Shelf name shelf.old shelf.new) out))) }
    ensures none { (n : ℕ) → slice_get outs.items n ≡ Some None → slice_get failed.new.items n ≡ Some false }
    ensures sure { (n : ℕ) → IfSome (slice_get outs.items n)
        (λ out. IfSome out H.Out.IsSure → slice_get failed.new.items n ≡ Some true → ⊥) }
    ensures others { (names : List (List ℕ)) → AreNamed H.Out.Sink names outs.items → (H.Tells shelf.old → AllTell H.Out.Sink outs.items)
        → ChangesAmong H.Shelf names shelf.old shelf.new }
{
    let mut memory = Ok(());
    for out in outs {
        let closed = close(shelf, out);
        failed.push_reserved(closed == Ok(true));
        memory = closed.and(memory);
    }
    memory
}

// Ends the writing of an output, if it was created, and tells whether that failed.
fn close<H: Shelf>(shelf: &mut H, out: Option<H::Out>) -> Result<bool, NoMemory>
    requires { IfSome out (λ k. IsSome (H.Out.name k)) }
    ensures shut { H.Tells shelf.old → (name : List ℕ) → IfSome out (λ k. H.Out.name k ≡ Some name)
        → IsShut H.Out.Sink (change_of H.Shelf name shelf.old shelf.new) out }
    ensures told { H.Tells shelf.old → (name : List ℕ) → IfSome out (λ k. H.Out.name k ≡ Some name)
        → IfOk result (IsTold H.Out.Sink (change_of H.Shelf name shelf.old shelf.new) out) }
    ensures none { out ≡ None → result ≡ Ok false }
    ensures sure { IfSome out H.Out.IsSure → result ≡ Ok true → ⊥ }
    ensures others { (names : List (List ℕ)) → IfSome out (λ k. IfSome (H.Out.name k) (Contains names))
        → (H.Tells shelf.old → IfSome out (λ k. IsSome (H.Out.contents k))) → ChangesAmong H.Shelf names shelf.old shelf.new }
{
    let Some(out) = out else {
        return Ok(false);
    };
    match shelf.close_out(out) {
        Ok(()) => Ok(false),
        Err(PutFault::Failed) => Ok(true),
        Err(PutFault::NoMemory) => Err(NoMemory),
    }
}
