//! Threads that read and write files while packets move.
use crate::piece::Piece;
use crossbeam_channel::{Receiver, Sender, bounded};
use std::alloc::{AllocError, Global};
use std::fs::File;
use std::sync::Wait;
use std::thread;
use std::thread::Threads;

// How many orders may wait for a mover.
const WAITING: usize = 16;

/// What a transfer does to a file.
#[derive(Clone, Copy)]
pub enum Way {
    Read,
    Write,
}

/// What a transfer leaves.
#[derive(Drop)]
pub struct Moved {
    pub file: File,
    pub piece: Piece,
    /// Whether the read or the write went well.
    pub well: bool,
}

fn transfer(way: Way, mut file: File, mut piece: Piece) -> Moved {
    let well = match way {
        Way::Read => piece.fill(&mut file),
        Way::Write => piece.write(&mut file),
    };
    Moved { file, piece, well }
}

// A transfer that is to be made, and who waits for it.
#[derive(Drop)]
struct Order {
    way: Way,
    file: File,
    piece: Piece,
    to: Sender<Moved>,
}

impl Order {
    // Where nobody waits for it any more, the file is closed here.
    fn carry_out<R: Wait>(self, rt: &R) {
        let Order {
            way,
            file,
            piece,
            to,
        } = self;
        drop(to.send(rt, transfer(way, file, piece)));
    }
}

fn carry_out_all<R: Wait>(rt: &R, orders: Receiver<Order>) {
    for order in orders.iter(rt) {
        order.carry_out(rt);
    }
}

/// A thread that makes transfers, one after another, until nobody can order one any more.
#[derive(Drop)]
pub struct Mover {
    orders: Sender<Order>,
}

impl Mover {
    /// Where no thread can be started, each transfer is made by who begins it.
    pub fn new<R: Threads + Wait + Copy + Send + 'static>(
        rt: &R,
        alloc: Global,
    ) -> Result<Mover, AllocError> {
        let (orders, taken) = bounded(alloc, WAITING)?;
        let there = *rt;
        drop(thread::spawn(rt, move || carry_out_all(&there, taken)));
        Ok(Mover { orders })
    }
}

/// The transfers of one file, of which one at most is under way.
#[derive(Drop)]
pub struct Transfers<'a, R> {
    rt: &'a R,
    way: Way,
    orders: Sender<Order>,
    to: Sender<Moved>,
    moved: Receiver<Moved>,
}

impl<'a, R: Wait> Transfers<'a, R> {
    /// Transfers this way, by this mover.
    pub fn new(
        rt: &'a R,
        alloc: Global,
        way: Way,
        mover: &Mover,
    ) -> Result<Transfers<'a, R>, AllocError> {
        let (to, moved) = bounded(alloc, 1)?;
        Ok(Transfers {
            rt,
            way,
            orders: mover.orders.clone()?,
            to,
            moved,
        })
    }

    /// Makes the transfer between a file and a piece, here and now.
    pub fn make(&mut self, file: File, piece: Piece) {
        self.keep(transfer(self.way, file, piece));
    }

    /// Begins the transfer between a file and a piece.
    pub fn begin(&mut self, file: File, piece: Piece) {
        let Ok(to) = self.to.clone() else {
            return self.make(file, piece);
        };
        let order = Order {
            way: self.way,
            file,
            piece,
            to,
        };
        if let Err(refused) = self.orders.send(self.rt, order) {
            refused.into_inner().carry_out(self.rt);
        }
    }

    /// Has the next `end` answer this.
    pub fn keep(&mut self, moved: Moved) {
        drop(self.to.send(self.rt, moved));
    }

    /// What the last transfer leaves, once it is over.
    pub fn end(&mut self) -> Option<Moved> {
        self.moved.recv(self.rt).ok()
    }
}
