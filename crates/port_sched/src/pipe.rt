//! A pipe, which is a subscriber.
ghost use Rattle.std.specs.Prelude.{◌≡◌, ◌+◌, ◌≤◌, ◌<◌, ◌^◌, length, slice_index, true};
ghost use Rattle.queue_store.specs.Queues.{list_of};
ghost use Rattle.wrr_pick.specs.declared.wrr.TheConstants.{MAX_COST};
ghost use Rattle.port_sched.specs.Pipe.{has_packet, filled};
ghost use Rattle.port_sched.specs.Classes.{best_effort_waits, charged, share_paid};
ghost use Rattle.port_sched.specs.Books.{pipe_of, strict_waits};

use crate::level::LevelBooks;
use qos_base::Parcel;
use queue_store::QueueStore;
use wrr_pick::{QUEUES, Wrr};

/// The number of the first best effort queue of a pipe.
pub(crate) const FIRST_BEST_EFFORT: u32 = 12;

/// How many queues a pipe has.
pub(crate) const PIPE_QUEUES: u32 = 16;

/// The credits, the round robin and the queues of a pipe.
#[derive(Drop)]
pub(crate) struct PipeBooks<T: Parcel> {
    pub(crate) level: LevelBooks,
    pub(crate) wrr: Wrr,
    pub(crate) weight: u8,
    pub(crate) share: u64,
    pub(crate) seen: Option<u64>,
    pub(crate) queues: QueueStore<T>,
}

impl<T: Parcel> PipeBooks<T> {
    // Which best effort queues have a packet.
    pub(crate) fn filled(&self) -> [bool; QUEUES]
        requires { length self.now.queues.lists ≡ 16 }
        ensures { result ≡ filled (pipe_of self.now) }
    {
        [
            self.queues.len(12) > 0,
            self.queues.len(13) > 0,
            self.queues.len(14) > 0,
            self.queues.len(15) > 0,
        ]
    }

    // Whether a packet waits in one of the strict classes' queues: whether more queues have one than those of best effort.
    pub(crate) fn strict_waits(&self) -> bool
        requires { length self.now.queues.lists ≡ 16 }
        ensures { result ≡ strict_waits self.now }
    {
        let [a, b, c, d] = self.filled();
        let best_effort = usize::from(a) + usize::from(b) + usize::from(c) + usize::from(d);
        self.queues.filled() > best_effort
    }

    // Whether a packet waits in one of the queues.
    pub(crate) fn has_packet(&self) -> bool
        ensures { result ≡ has_packet (pipe_of self.now) }
    {
        self.queues.has_packet()
    }

    // Whether a packet waits in one of the best effort queues.
    pub(crate) fn best_effort_waits(&self) -> bool
        requires { length self.now.queues.lists ≡ 16 }
        ensures { result ≡ best_effort_waits (pipe_of self.now) }
    {
        for queue in FIRST_BEST_EFFORT..PIPE_QUEUES {
            if self.queues.len(queue) > 0 {
                return true;
            }
        }
        false
    }

    // Best effort queue `queue` is charged for its front, which is about to go out: in tokens, and where credits are shared
    // out also in the pipe's share.
    pub(crate) fn charge(&mut self, queue: usize, cost: u64, oversub: bool)
        requires queues { length self.old.queues.lists ≡ 16 }
        requires queue { queue < 4 }
        requires ready { slice_index self.old.wrr.tokens queue ≡ 0 }
        requires limit { cost ≤ MAX_COST }
        requires share { oversub ≡ true → cost ≤ self.old.share }
        ensures exact { let from = pipe_of self.old in
            pipe_of self.new ≡ record (share_paid oversub cost from) { round = record from.round { tokens = charged queue cost from } } }
        ensures level { self.new.level ≡ self.old.level }
        ensures queues { self.new.queues ≡ self.old.queues }
    {
        if oversub {
            self.share -= cost;
        }
        self.wrr.charge(queue, cost);
        if self.queues.len(FIRST_BEST_EFFORT + queue as u32) == 1 {
            self.wrr.emptied(queue);
        }
    }
}
