//! A subport, which is a group of subscribers.
ghost use Rattle.std.specs.Prelude.{◌≡◌, ◌+◌, ◌≤◌, ◌<◌, length, count_by};
ghost use Rattle.active_bitmap.specs.NextActive.{next_active};
ghost use Rattle.active_bitmap.specs.declared.bitmap.TheConstants.{MAX_PROBES};
ghost use Rattle.port_sched.specs.Pipe.{has_packet};
ghost use Rattle.port_sched.specs.Subport.{active};
ghost use Rattle.port_sched.specs.Books.{Stands, KnowsActive};

use crate::active::ActivePipes;
use crate::level::LevelBooks;
use crate::pipe::PipeBooks;
use credit_book::Watermark;
use qos_base::{Parcel, Steps};
use std::sync::ledger::Ledger;

/// The credits, the watermark and the pipes of a subport.
#[derive(Drop)]
pub(crate) struct SubportBooks<T: Parcel> {
    pub(crate) level: LevelBooks,
    pub(crate) oversub: bool,
    pub(crate) oversubscribed: bool,
    pub(crate) watermark: Watermark,
    pub(crate) period: u64,
    pub(crate) cursor: usize,
    pub(crate) pipes: Vec<PipeBooks<T>>,
    pub(crate) active: ActivePipes,
}

impl<T: Parcel> SubportBooks<T> {
    // How many pipes have a packet.
    pub(crate) fn active(&self) -> usize
        requires { KnowsActive self.now }
        ensures { Stands (λ s. result ≡ count_by has_packet s.pipes) self.now }
    {
        self.active.count()
    }

    // The next pipe with a packet, from the cursor on; None where no pipe has one.
    pub(crate) fn next_pipe<L: Ledger>(&self, steps: &mut Steps<L>) -> Option<usize>
        requires active { KnowsActive self.now }
        requires cursor { self.now.cursor < length self.now.pipes.items }
        ensures next { Stands (λ s. result ≡ next_active self.now.cursor (active s)) self.now }
        ensures probes { steps.new ≤ steps.old + MAX_PROBES }
    {
        self.active.next_from(self.cursor, steps)
    }
}
