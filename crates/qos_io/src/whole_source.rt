//! A source in memory that never fails.
ghost use Rattle.std.specs.Prelude.{◌≡◌, min, length, take, drop, ◌++◌, IfOk, IsOk};

use crate::{Failed, Source};
use std::marker::Model;

/// Bytes in memory to read from. It never fails. A contract sees it as the bytes that are left.
#[derive(Debug, Drop)]
pub struct WholeSource {
    bytes: Vec<u8>,
    at: usize,
}

impl Model for WholeSource {
    ghost use Rattle.std.specs.Prelude.{ℕ, List, drop, ◌≤◌, vec_len};

    ghost Value = { List ℕ };

    ghost view = { λ a. drop a.at a.bytes.items };

    ghost invariant = { λ a. a.at ≤ vec_len a.bytes };
}

impl WholeSource {
    /// A source that has these bytes left.
    pub fn new(bytes: Vec<u8>) -> WholeSource
        ensures { result ≡ bytes.items }
    {
        WholeSource { bytes, at: 0 }
    }
}

impl Source for WholeSource {
    ghost use Rattle.std.specs.Prelude.{Some, ⊤};

    ghost remaining = { λ left. Some left };

    ghost faults = { λ _. 0 };

    ghost IsSure = { λ _. ⊤ };

    /// Moves as many of the bytes that are left as `buf` has room for.
    fn read(&mut self, buf: &mut [u8]) -> Result<usize, Failed>
        ensures succeeds { IsOk result }
        ensures many { IfOk result (λ n. n ≡ min (length buf.old) (length self.old)) }
        ensures moved { IfOk result (λ n. buf.new ≡ take n self.old ++ drop n buf.old) }
        ensures left { IfOk result (λ n. self.new ≡ drop n self.old) }
    {
        let left = &self.bytes.as_slice()[self.at..];
        let n = copy_front(left, buf);
        self.at += n;
        Ok(n)
    }
}

// Copies as many of the first bytes as `to` has room for to its front, and answers how many.
fn copy_front(from: &[u8], to: &mut [u8]) -> usize
    ensures many { result ≡ min (length to.old) (length from.now) }
    ensures copied { to.new ≡ take result from.now ++ drop result to.old }
{
    let n = to.len().min(from.len());
    to[..n].copy_from_slice(&from[..n]);
    n
}
