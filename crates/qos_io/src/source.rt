//! What the pipeline reads from.
ghost use Rattle.std.specs.Prelude.{◌≡◌, ◌≤◌, ◌<◌, ℕ, List, Option, length, IsErr, IfOk, IfSome, OnErr};

/// A read failed, and the source has counted it. What is left to read stays.
#[derive(Clone, Copy, Debug, PartialEq, Eq)]
pub struct Failed;

/// A stream of bytes to read from.
pub trait Source: Drop {
    ghost use Rattle.qos_io.specs.Fault.{Counts};
    ghost use Rattle.qos_io.specs.Bytes.{Moves, left_after};

    /// The bytes that are left to read, where the source tells them.
    ghost remaining: { Self → Option (List ℕ) };

    /// How often a call has failed.
    ghost faults: { Self → ℕ };

    /// No call of this source fails from now on. Code cannot ask this.
    ghost IsSure: { Self → Type 0 };

    /// Moves the first bytes that are left into the front of `buf` and answers how many; 0 is the end.
    fn read(&mut self, buf: &mut [u8]) -> Result<usize, Failed>
        requires { 0 < length buf.old }
        ensures within { IfOk result (λ n. n ≤ length buf.old) }
        ensures bytes { IfOk result (λ n. IfSome (remaining self.old) (λ left. Moves n buf.old buf.new left)) }
        ensures left { IfOk result (λ n. remaining self.new ≡ left_after n (remaining self.old)) }
        ensures kept { OnErr result (remaining self.new ≡ remaining self.old) }
        ensures faults { Counts faults IsSure self.old self.new (IsErr result) };
}
