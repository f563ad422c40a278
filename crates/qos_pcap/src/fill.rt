//! Reading as many bytes as are wanted, where a source gives them in parts.
ghost use Rattle.std.specs.Prelude.{◌≡◌, ◌≤◌, ℕ, List, Option, Some, length, min, IsErr, IfOk};
ghost use Rattle.qos_io.specs.Bytes.{left_after};
ghost use Rattle.qos_io.specs.Fault.{Counts};
ghost use Rattle.qos_pcap.specs.Fill.{Fills};

use qos_io::{Failed, Source};

/// Fills a buffer, or what the source has left of it, and answers how many bytes were moved.
pub(crate) fn fill<S: Source>(source: &mut S, buf: &mut [u8]) -> Result<usize, Failed>
    ensures within { IfOk result (λ n. n ≤ length buf.old) }
    ensures bytes { IfOk result (λ n. (left : List ℕ) → S.remaining source.old ≡ Some left → Fills n buf.old buf.new left) }
    ensures left { IfOk result (λ n. S.remaining source.new ≡ left_after n (S.remaining source.old)) }
    ensures faults { Counts S.faults S.IsSure source.old source.new (IsErr result) }
{
    let mut filled = 0;
    while filled < buf.len() {
        let n = source.read(&mut buf[filled..])?;
        if n == 0 {
            return Ok(filled);
        }
        filled += n;
    }
    Ok(filled)
}

/// Passes over `count` bytes, or what the source has left of them, and answers how many these were.
pub(crate) fn skip<S: Source>(source: &mut S, count: usize) -> Result<usize, Failed>
    ensures bytes { IfOk result (λ n. (left : List ℕ) → S.remaining source.old ≡ Some left → n ≡ min count (length left)) }
    ensures left { IfOk result (λ n. S.remaining source.new ≡ left_after n (S.remaining source.old)) }
    ensures faults { Counts S.faults S.IsSure source.old source.new (IsErr result) }
{
    let mut passed = [0u8; 4096];
    let mut done = 0;
    while done < count {
        let part = (count - done).min(4096);
        let n = source.read(&mut passed[..part])?;
        if n == 0 {
            return Ok(done);
        }
        done += n;
    }
    Ok(done)
}
