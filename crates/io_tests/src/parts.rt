//! A source in memory that gives its bytes in small parts.
ghost use Rattle.std.specs.Prelude.{◌≤◌, Some, drop, vec_len};

use qos_io::{Failed, Source};

/// Bytes to read from, at most seven at once.
#[derive(Drop)]
pub(crate) struct Parts {
    pub(crate) bytes: Vec<u8>,
    pub(crate) at: usize,
    ghost within: { at ≤ vec_len bytes },
}

impl Source for Parts {
    ghost remaining = { λ s. Some (drop s.at s.bytes.items) };

    ghost faults = { λ s. 0 };

    ghost IsSure = { λ s. Unit {0} };

    fn read(&mut self, buf: &mut [u8]) -> Result<usize, Failed> {
        let n = buf.len().min(self.bytes.len() - self.at).min(7);
        buf[..n].copy_from_slice(&self.bytes[self.at..self.at + n]);
        self.at += n;
        Ok(n)
    }
}
