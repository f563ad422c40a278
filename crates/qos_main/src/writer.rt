//! Writing a file piece by piece: while one is filled, the one before it is written.
use crate::mover::{Moved, Mover, Transfers, Way};
use crate::piece::{PIECE, Piece};
use std::alloc::{AllocError, Global};
use std::fs::File;
use std::mem;
use std::sync::Wait;

/// All the memory that a file takes while it is written.
#[derive(Drop)]
pub struct Pieces<'a, R> {
    transfers: Transfers<'a, R>,
    piece: Piece,
    spare: Piece,
}

impl<'a, R: Wait> Pieces<'a, R> {
    /// Memory for a file that this mover writes.
    pub fn new(rt: &'a R, alloc: Global, mover: &Mover) -> Result<Pieces<'a, R>, AllocError> {
        Ok(Pieces {
            transfers: Transfers::new(rt, alloc, Way::Write, mover)?,
            piece: Piece::new(alloc)?,
            spare: Piece::new(alloc)?,
        })
    }
}

/// A file that is written. What could not be written is told by a later call.
#[derive(Drop)]
pub struct PieceWriter<'a, R> {
    transfers: Transfers<'a, R>,
    piece: Piece,
}

impl<'a, R: Wait> PieceWriter<'a, R> {
    /// Writes this file.
    pub fn new(pieces: Pieces<'a, R>, file: File) -> PieceWriter<'a, R> {
        let Pieces {
            mut transfers,
            piece,
            spare,
        } = pieces;
        transfers.keep(Moved {
            file,
            piece: spare,
            well: true,
        });
        PieceWriter { transfers, piece }
    }

    /// Writes bytes behind those before. Whether no write has failed so far.
    #[inline(always)]
    pub fn put(&mut self, bytes: &[u8]) -> bool {
        let taken = self.piece.take(bytes);
        taken == bytes.len() || self.put_rest(&bytes[taken..])
    }

    // Where the piece is full.
    fn put_rest(&mut self, bytes: &[u8]) -> bool {
        for part in bytes.chunks(PIECE) {
            if !self.send() {
                return false;
            }
            self.piece.take(part);
        }
        true
    }

    // Lets the piece be written, once the one before it was. No piece is written behind one that could not be.
    fn send(&mut self) -> bool {
        let Some(moved) = self.transfers.end() else {
            return false;
        };
        if !moved.well {
            self.transfers.keep(moved);
            return false;
        }
        let Moved { file, piece, .. } = moved;
        let full = mem::replace(&mut self.piece, piece);
        self.transfers.begin(file, full);
        true
    }

    /// Writes what is left, once all before it was written. Whether no write has failed.
    pub fn finish(self) -> bool {
        let PieceWriter {
            mut transfers,
            mut piece,
        } = self;
        let Some(Moved { mut file, well, .. }) = transfers.end() else {
            return false;
        };
        well && piece.write(&mut file)
    }
}
