//! Reading a file piece by piece: while one is given out, the next is read.
ghost use Rattle.std.specs.Prelude.{◌≤◌, length, IfSome};

use crate::mover::{Moved, Mover, Transfers, Way};
use crate::piece::Piece;
use std::alloc::{AllocError, Global};
use std::fs::File;
use std::mem;
use std::sync::Wait;

/// A file that is read.
#[derive(Drop)]
pub struct PieceReader<'a, R> {
    transfers: Transfers<'a, R>,
    piece: Piece,
}

impl<'a, R: Wait> PieceReader<'a, R> {
    /// Reads the first piece of this file; the others are read by this mover.
    pub fn new(
        rt: &'a R,
        alloc: Global,
        mover: &Mover,
        file: File,
    ) -> Result<PieceReader<'a, R>, AllocError> {
        let mut transfers = Transfers::new(rt, alloc, Way::Read, mover)?;
        let piece = Piece::new(alloc)?;
        transfers.make(file, Piece::new(alloc)?);
        Ok(PieceReader { transfers, piece })
    }

    /// Moves the next bytes to the front of `buf` and answers how many, 0 at the end; `None` where a read failed.
    #[inline(always)]
    pub fn read(&mut self, buf: &mut [u8]) -> Option<usize>
        ensures { IfSome result (λ n. n ≤ length buf.old) }
    {
        if self.piece.is_empty() && !self.advance() {
            return None;
        }
        Some(self.piece.give(buf))
    }

    // Goes on to the next piece, and lets the one after it be read meanwhile. Behind one that is not full is the end of the
    // file, or the read that failed. Whether there are bytes, or no read failed.
    fn advance(&mut self) -> bool {
        let Some(Moved { file, piece, well }) = self.transfers.end() else {
            return false;
        };
        let used = mem::replace(&mut self.piece, piece);
        if self.piece.is_full() {
            self.transfers.begin(file, used);
        } else {
            self.transfers.keep(Moved {
                file,
                piece: used,
                well,
            });
        }
        well || !self.piece.is_empty()
    }
}
