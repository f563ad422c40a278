//! What the pipeline writes to.
ghost use Rattle.std.specs.Prelude.{◌≡◌, ℕ, List, Option, IsErrOf, OnOk, OnErr};

use qos_base::NoMemory;
use std::alloc::AllocError;

/// Why bytes were not put, or a file was not opened, created or closed.
#[derive(Clone, Copy, Debug, PartialEq, Eq)]
pub enum PutFault {
    /// The outside failed, and the object has counted it.
    Failed,
    /// Memory was refused.
    NoMemory,
}

impl From<NoMemory> for PutFault {
    ghost use Rattle.std.specs.Prelude.{◌≡◌};
    ghost use Rattle.qos_io.specs.declared.sink.PutFault.TheVariants.{NoMemory};

    ghost from_gives = { λ _ fault. fault ≡ NoMemory };

    fn from(_: NoMemory) -> PutFault {
        PutFault::NoMemory
    }
}

impl From<AllocError> for PutFault {
    ghost use Rattle.std.specs.Prelude.{◌≡◌};
    ghost use Rattle.qos_io.specs.declared.sink.PutFault.TheVariants.{NoMemory};

    ghost from_gives = { λ _ fault. fault ≡ NoMemory };

    fn from(_: AllocError) -> PutFault {
        PutFault::NoMemory
    }
}

/// A stream of bytes to write to.
pub trait Sink: Drop {
    ghost use Rattle.qos_io.specs.declared.sink.PutFault.TheVariants.{Failed};
    ghost use Rattle.qos_io.specs.Fault.{Counts};
    ghost use Rattle.qos_io.specs.Bytes.{held_after, PutSome};

    /// The bytes that it holds, where the sink tells them.
    ghost contents: { Self → Option (List ℕ) };

    /// The name of the file that it writes, if a shelf created it.
    ghost name: { Self → Option (List ℕ) };

    /// How often a call has failed.
    ghost faults: { Self → ℕ };

    /// No call of this sink fails from now on, but for want of memory. Code cannot ask this.
    ghost IsSure: { Self → Type 0 };

    /// Adds the bytes at the end. A refusal adds the first few of them, or none.
    fn put(&mut self, bytes: &[u8]) -> Result<(), PutFault>
        ensures added { OnOk result (contents self.new ≡ held_after bytes.now (contents self.old)) }
        ensures refused { OnErr result (PutSome bytes.now (contents self.old) (contents self.new)) }
        ensures name { name self.new ≡ name self.old }
        ensures faults { Counts faults IsSure self.old self.new (IsErrOf result PutFault.Failed) };
}
