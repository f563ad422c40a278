//! Bytes to words.
ghost use Rattle.std.specs.Prelude.{◌≡◌, ◌++◌, map, IfOk};
ghost use Rattle.profile_lines.specs.Lines.{is_blank, words_of};

use qos_base::NoMemory;
use std::alloc::Global;

/// Whether a byte is a space or a tab.
pub(crate) fn is_blank(byte: u8) -> bool
    ensures { result ≡ is_blank byte }
{
    byte == b' ' || byte == b'\t'
}

/// The words that stand between blanks.
pub fn words(alloc: Global, bytes: &[u8]) -> Result<Vec<&[u8]>, NoMemory>
    ensures { IfOk result (λ ws. map (λ w. w.now) ws.items ≡ words_of bytes.now) }
{
    let mut words = Vec::new(alloc);
    for piece in bytes.split(|byte| is_blank(*byte)) {
        if !piece.is_empty() {
            words.push(piece).map_err(|_| NoMemory)?;
        }
    }
    Ok(words)
}
