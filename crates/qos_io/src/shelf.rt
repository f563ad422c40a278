//! Files by their names.
ghost use Rattle.std.specs.Prelude.{◌≡◌, ◌⊎◌, ◌++◌, ℕ, [], ◌∷◌, List, Option, None, Some, IsOk, IsSome, IfOk, OnOk, OnErr, IsErrOf};

use crate::{PutFault, Sink, Source};

/// A place that has files by their names.
pub trait Shelf {
    ghost use Rattle.qos_io.specs.declared.sink.PutFault.TheVariants.{Failed, NoMemory};
    ghost use Rattle.qos_io.specs.Fault.{Counts};
    ghost use Rattle.qos_io.specs.Bytes.{HoldsPrefix, bytes_in};
    ghost use Rattle.qos_io.specs.Kept.{Closing, OthersStay};

    type In: Source + Send;

    type Out: Sink + Send;

    /// The shelf tells what its files hold.
    ghost Tells: { Self → Type 0 };

    /// What the file of a name holds, or none where there is no such file. It means something where the shelf tells it.
    ghost file: { Self → List ℕ → Option (List ℕ) };

    /// How often a call has failed.
    ghost faults: { Self → ℕ };

    /// No opening of this name fails, and no read of what it gives. Code cannot ask this.
    ghost IsSureToRead: { Self → List ℕ → Type 0 };

    /// No creation under this name fails, and no put or closing of what it gives, but for want of memory.
    ghost IsSureToWrite: { Self → List ℕ → Type 0 };

    /// What sinks this shelf has closed, the oldest first, also where the closing failed. It means something where
    /// the shelf tells it.
    ghost closed: { Self → List Closing };

    /// A source that has the file's bytes left. A name of no file fails, or opens as an empty file if it is sure.
    fn open_in(&mut self, name: &str) -> Result<Self::In, PutFault>
        ensures bytes { Tells self.old → IfOk result (λ source. Self.In.remaining source ≡ Some (bytes_in (file self.old name.now))) }
        ensures absent { Tells self.old → file self.old name.now ≡ None → IsOk result → IsSureToRead self.old name.now }
        ensures sure { IsSureToRead self.old name.now → IfOk result Self.In.IsSure }
        ensures faults { Counts faults (λ s. IsSureToRead s name.now) self.old self.new (IsErrOf result PutFault.Failed) }
        ensures uncounted { OnOk result (faults self.new ≡ faults self.old) }
        ensures others { OthersStay Tells file IsSureToRead IsSureToWrite None self.old self.new }
        ensures closed { Tells self.old → closed self.new ≡ closed self.old };

    /// An empty sink under that name. The file is then there, and empty; after a failure it is as it was, or empty,
    /// and where memory was refused it is as it was.
    fn create_out(&mut self, name: &str) -> Result<Self::Out, PutFault>
        ensures named { IfOk result (λ sink. Self.Out.name sink ≡ Some name.now) }
        ensures empty { Tells self.old → IfOk result (λ sink. Self.Out.contents sink ≡ Some []) }
        ensures created { Tells self.old → OnOk result (file self.new name.now ≡ Some []) }
        ensures not_created { Tells self.old → OnErr result ((file self.new name.now ≡ file self.old name.now) ⊎ (file self.new name.now ≡ Some [])) }
        ensures untouched { Tells self.old → IsErrOf result PutFault.NoMemory → file self.new name.now ≡ file self.old name.now }
        ensures sure { IsSureToWrite self.old name.now → IfOk result Self.Out.IsSure }
        ensures faults { Counts faults (λ s. IsSureToWrite s name.now) self.old self.new (IsErrOf result PutFault.Failed) }
        ensures uncounted { OnOk result (faults self.new ≡ faults self.old) }
        ensures others { OthersStay Tells file IsSureToRead IsSureToWrite (Some name.now) self.old self.new }
        ensures closed { Tells self.old → closed self.new ≡ closed self.old };

    /// Ends the writing of a sink. The file of its name then holds what was put; after a refusal, a prefix of it.
    /// A sink may come from another shelf. Its name then gets a file here, and may so become sure to read.
    fn close_out(&mut self, out: Self::Out) -> Result<(), PutFault>
        requires { IsSome (Self.Out.name out) }
        ensures held { Tells self.old → OnOk result ((n held : List ℕ) → Self.Out.name out ≡ Some n → Self.Out.contents out ≡ Some held → file self.new n ≡ Some held) }
        ensures refused { Tells self.old → OnErr result ((n held : List ℕ) → Self.Out.name out ≡ Some n → Self.Out.contents out ≡ Some held → HoldsPrefix held (file self.new n)) }
        ensures faults { Counts faults (λ _. Self.Out.IsSure out) self.old self.new (IsErrOf result PutFault.Failed) }
        ensures uncounted { OnOk result (faults self.new ≡ faults self.old) }
        ensures others { OthersStay Tells file IsSureToRead IsSureToWrite (Self.Out.name out) self.old self.new }
        ensures stays_to_read { (n : List ℕ) → IsSureToRead self.old n → IsSureToRead self.new n }
        ensures closed { Tells self.old → (n held : List ℕ) → Self.Out.name out ≡ Some n → Self.Out.contents out ≡ Some held
            → closed self.new ≡ closed self.old ++ (record { name = n; held = held } ∷ []) };
}
