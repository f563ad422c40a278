//! The text of a file.
ghost use Rattle.std.specs.Prelude.{◌≡◌, ◌≢◌, ◌≤◌, ◌<◌, ◌+◌, ◌++◌, ℕ, List, [], Some, Err, length, take, IfOk, OnOk};
ghost use Rattle.qos_io.specs.Bytes.{left_after};
ghost use Rattle.qos_profile.specs.declared.limits.TheConstants.{MAX_TEXT};
ghost use Rattle.profile_file.specs.Loaded.{text_in};
ghost use Rattle.profile_file.specs.Reading.{AddsPart};

use qos_io::{Failed, PutFault, Source};
use qos_profile::MAX_TEXT;
use std::alloc::Global;

// The bytes of one read.
const PART: usize = 4096;

/// What the source has left, or its first bytes where these are already too many for a text.
pub(crate) fn read_text<S: Source>(alloc: Global, source: S) -> Result<Vec<u8>, PutFault>
    ensures text { IfOk result (λ text. (left : List ℕ) → S.remaining source ≡ Some left → text.items ≡ text_in left) }
    ensures sure { S.IsSure source → result ≡ Err PutFault.Failed → ⊥ }
{
    let mut source = source;
    let mut text = Vec::new(alloc);
    while text.len() <= MAX_TEXT {
        if read_part(&mut source, &mut text)? == 0 {
            return Ok(text);
        }
    }
    Ok(text)
}

// Adds what one read gives to the text, and answers how many bytes that were; 0 is the end.
fn read_part<S: Source>(source: &mut S, text: &mut Vec<u8>) -> Result<usize, PutFault>
    requires { length text.old.items ≤ MAX_TEXT }
    ensures count { IfOk result (λ n. length text.new.items ≡ length text.old.items + n) }
    ensures within { OnOk result (length text.new.items ≤ MAX_TEXT + 1) }
    ensures bytes { IfOk result (λ n. (left : List ℕ) → S.remaining source.old ≡ Some left
        → AddsPart n text.old.items text.new.items left) }
    ensures left { IfOk result (λ n. S.remaining source.new ≡ left_after n (S.remaining source.old)) }
    ensures sure { S.IsSure source.old → (result ≢ Err PutFault.Failed) × S.IsSure source.new }
{
    let mut part = [0u8; PART];
    let room = (MAX_TEXT + 1 - text.len()).min(PART);
    let n = match source.read(&mut part[..room]) {
        Ok(n) => n,
        Err(Failed) => return Err(PutFault::Failed),
    };
    match text.extend_from_slice(&part[..n]) {
        Ok(()) => Ok(n),
        Err(_) => Err(PutFault::NoMemory),
    }
}
