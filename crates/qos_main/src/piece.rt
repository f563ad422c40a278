//! A piece of a file: what is read at once, or written at once.
ghost use Rattle.std.specs.Prelude.{◌≡◌, ◌≤◌, ◌↔◌, ◌+◌, ◌-◌, ◌++◌, [], min, take, drop, length, vec_len, vec_capacity, IfOk, IsTrue};
ghost use Rattle.qos_main.specs.declared.piece.TheConstants.{PIECE};

use std::alloc::{AllocError, Global};
use std::fs::File;
use std::io::{ErrorKind, Read, Write};
use std::marker::Model;

/// The bytes of a full piece.
pub const PIECE: usize = 1024 * 1024;

/// Bytes of a file, of which the first were given out.
#[derive(Drop)]
pub struct Piece {
    bytes: Vec<u8>,
    given: usize,
    ghost within: { given ≤ vec_len bytes },
    ghost most: { vec_len bytes ≤ PIECE },
    ghost room: { PIECE ≤ vec_capacity bytes },
}

impl Model for Piece {
    ghost use Rattle.std.specs.Prelude.{drop};
    ghost use Rattle.qos_main.specs.Piece.{Held};

    ghost Value = { Held };

    ghost view = { λ p. record { given = p.given; left = drop p.given p.bytes.items } };
}

impl Piece {
    /// No bytes, and room for a full piece.
    pub fn new(alloc: Global) -> Result<Piece, AllocError>
        ensures { IfOk result (λ piece. (piece.given ≡ 0) × (piece.left ≡ [])) }
    {
        Ok(Piece {
            bytes: Vec::with_capacity(alloc, PIECE)?,
            given: 0,
        })
    }

    /// Whether all its bytes were given out.
    #[inline(always)]
    pub fn is_empty(&self) -> bool
        ensures { IsTrue result ↔ (length self.now.left ≡ 0) }
    {
        self.given == self.bytes.len()
    }

    /// Whether it has as many bytes as a piece can have, and none was given out.
    pub fn is_full(&self) -> bool
        ensures { IsTrue result ↔ ((self.now.given ≡ 0) × (length self.now.left ≡ PIECE)) }
    {
        self.given == 0 && self.bytes.len() == PIECE
    }

    /// Gives its next bytes to the front of `buf`, as far as there is room, and answers how many.
    #[inline(always)]
    pub fn give(&mut self, buf: &mut [u8]) -> usize
        ensures count { result ≡ min (length buf.old) (length self.old.left) }
        ensures moved { buf.new ≡ take result self.old.left ++ drop result buf.old }
        ensures left { self.new.left ≡ drop result self.old.left }
        ensures given { self.new.given ≡ self.old.given + result }
    {
        let n = buf.len().min(self.bytes.len() - self.given);
        buf[..n].copy_from_slice(&self.bytes[self.given..self.given + n]);
        self.given += n;
        n
    }

    /// Takes bytes behind those that it has, as far as there is room, and answers how many.
    #[inline(always)]
    pub fn take(&mut self, bytes: &[u8]) -> usize
        ensures count { result ≡ min (length bytes.now) (PIECE - (self.old.given + length self.old.left)) }
        ensures added { self.new.left ≡ self.old.left ++ take result bytes.now }
        ensures given { self.new.given ≡ self.old.given }
    {
        let n = bytes.len().min(PIECE - self.bytes.len());
        let Ok(()) = self.bytes.extend_from_slice(&bytes[..n]) else {
            unreachable!()
        };
        n
    }

    /// Has the next bytes of a file in place of its own: so many that it is full, or those before the end of the file or
    /// a read that fails. Whether no read failed.
    pub fn fill(&mut self, file: &mut File) -> bool
        ensures { self.new.given ≡ 0 }
    {
        self.given = 0;
        let Ok(()) = self.bytes.resize(PIECE, 0) else {
            unreachable!()
        };
        let (count, well) = read_full(file, &mut self.bytes);
        self.bytes.truncate(count);
        well
    }

    /// Writes its bytes to a file, and has none then. Whether that went well.
    pub fn write(&mut self, file: &mut File) -> bool
        ensures { (self.new.given ≡ 0) × (self.new.left ≡ []) }
    {
        let well = file.write_all(&self.bytes).is_ok();
        self.given = 0;
        self.bytes.clear();
        well
    }
}

// Reads until the buffer is full, the file ends or a read fails: how many bytes, and whether none failed. Where a signal
// interrupts a read, it is made again.
fn read_full(file: &mut File, buf: &mut [u8]) -> (usize, bool) {
    let mut count = 0;
    for _ in 0..u64::MAX {
        if count >= buf.len() {
            break;
        }
        match file.read(&mut buf[count..]) {
            Ok(0) => break,
            Ok(n) => count += n,
            Err(error) if error.kind() == ErrorKind::Interrupted => {}
            Err(_) => return (count, false),
        }
    }
    (count, true)
}
