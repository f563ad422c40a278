//! What one visit of a pipe sends: the strict classes in their order, and then best effort.
ghost use Rattle.std.specs.Prelude.{◌≡◌, ◌+◌, ◌≤◌, ◌<◌, ◌^◌, ◌↔◌, min, [], take, length, slice_get, option_map, IfSome, IsTrue};
ghost use Rattle.std.specs.Bool.{OnTrue, OnFalse};
ghost use Rattle.queue_store.specs.Queues.{list_of};
ghost use Rattle.wrr_pick.specs.declared.wrr.TheConstants.{MAX_COST};
ghost use Rattle.port_sched.specs.Sends.{total_cost};
ghost use Rattle.port_sched.specs.Level.{allowance};
ghost use Rattle.port_sched.specs.Classes.{four_allow, front_sent, strict_turn, strict_turns};
ghost use Rattle.port_sched.specs.Classes.{best_effort_allows, best_effort_turn, classes_turn};
ghost use Rattle.port_sched.specs.PortDequeue.{cost_with};
ghost use Rattle.port_sched.specs.Books.{level_of, pipe_of, visit_of};
ghost use Rattle.port_sched.specs.Standing.{standing, visit_at, AreQueues, IsReady, IsOnward};

use crate::level::{BEST_EFFORT, LevelBooks};
use crate::pipe::{FIRST_BEST_EFFORT, PipeBooks};
use crate::serving::Serving;
use qos_base::{Departure, Parcel};

impl Serving {
    // The classes 0 to 12 are looked at once each, and send what room and credits allow.
    pub(crate) fn classes<T: Parcel>(
        &mut self,
        level: &mut LevelBooks,
        pipe: &mut PipeBooks<T>,
        out: &mut Vec<Departure<T>>,
    )
        requires { IsReady T.packet (standing self.old level.old pipe.old out.old) }
        ensures exact { visit_at (standing self.new level.new pipe.new out.new)
            ≡ classes_turn (cost_with T.packet self.old.overhead) (visit_at (standing self.old level.old pipe.old out.old)) }
        ensures onward { IsOnward T.packet (standing self.old level.old pipe.old out.old) (standing self.new level.new pipe.new out.new) }
    {
        self.strict_classes(level, pipe, out);
        self.best_effort(level, pipe, out);
    }

    // The strict classes are looked at once each, unless no packet waits in any.
    fn strict_classes<T: Parcel>(
        &mut self,
        level: &mut LevelBooks,
        pipe: &mut PipeBooks<T>,
        out: &mut Vec<Departure<T>>,
    )
        requires { IsReady T.packet (standing self.old level.old pipe.old out.old) }
        ensures exact { visit_at (standing self.new level.new pipe.new out.new)
            ≡ strict_turns (cost_with T.packet self.old.overhead) (visit_at (standing self.old level.old pipe.old out.old)) }
        ensures onward { IsOnward T.packet (standing self.old level.old pipe.old out.old) (standing self.new level.new pipe.new out.new) }
    {
        if !pipe.strict_waits() {
            return;
        }
        for class in 0..BEST_EFFORT {
            self.strict(class, level, pipe, out);
        }
    }

    // A strict class sends from its queue while room is left and the front fits.
    fn strict<T: Parcel>(
        &mut self,
        class: usize,
        level: &mut LevelBooks,
        pipe: &mut PipeBooks<T>,
        out: &mut Vec<Departure<T>>,
    )
        requires class { class < 12 }
        requires ready { IsReady T.packet (standing self.old level.old pipe.old out.old) }
        ensures exact { visit_at (standing self.new level.new pipe.new out.new)
            ≡ strict_turn (cost_with T.packet self.old.overhead) (visit_at (standing self.old level.old pipe.old out.old)) class }
        ensures onward { IsOnward T.packet (standing self.old level.old pipe.old out.old) (standing self.new level.new pipe.new out.new) }
    {
        while self.room > 0 && self.send_strict(class, level, pipe, out) {}
    }

    // Best effort picks queues and sends their fronts while room is left, a packet waits, and the front fits.
    fn best_effort<T: Parcel>(
        &mut self,
        level: &mut LevelBooks,
        pipe: &mut PipeBooks<T>,
        out: &mut Vec<Departure<T>>,
    )
        requires ready { IsReady T.packet (standing self.old level.old pipe.old out.old) }
        ensures exact { visit_at (standing self.new level.new pipe.new out.new)
            ≡ best_effort_turn (cost_with T.packet self.old.overhead) (visit_at (standing self.old level.old pipe.old out.old)) }
        ensures onward { IsOnward T.packet (standing self.old level.old pipe.old out.old) (standing self.new level.new pipe.new out.new) }
    {
        while self.room > 0 && self.send_best_effort(level, pipe, out) {}
    }

    // Sends the packet at the front of a strict class's queue where it fits, and tells whether it did. Room is left.
    fn send_strict<T: Parcel>(
        &mut self,
        class: usize,
        level: &mut LevelBooks,
        pipe: &mut PipeBooks<T>,
        out: &mut Vec<Departure<T>>,
    ) -> bool
        requires class { class < 12 }
        requires room { 0 < self.old.room }
        requires ready { IsReady T.packet (standing self.old level.old pipe.old out.old) }
        ensures goes_on { OnTrue result (
            strict_turn (cost_with T.packet self.old.overhead) (visit_at (standing self.new level.new pipe.new out.new)) class
            ≡ strict_turn (cost_with T.packet self.old.overhead) (visit_at (standing self.old level.old pipe.old out.old)) class) }
        ensures over { OnFalse result (visit_at (standing self.new level.new pipe.new out.new)
            ≡ strict_turn (cost_with T.packet self.old.overhead) (visit_at (standing self.old level.old pipe.old out.old)) class) }
        ensures room { OnTrue result (self.new.room < self.old.room) }
        ensures onward { IsOnward T.packet (standing self.old level.old pipe.old out.old) (standing self.new level.new pipe.new out.new) }
    {
        let Some(cost) = self.front_cost(pipe, class as u32) else {
            return false;
        };
        if !fits(class, cost, level, pipe) {
            return false;
        }
        self.send(class, class as u32, cost, level, pipe, out);
        true
    }

    // Picks a best effort queue and sends its front where it fits, and tells whether it did. The pick's tokens are taken all
    // the same. Room is left.
    fn send_best_effort<T: Parcel>(
        &mut self,
        level: &mut LevelBooks,
        pipe: &mut PipeBooks<T>,
        out: &mut Vec<Departure<T>>,
    ) -> bool
        requires room { 0 < self.old.room }
        requires ready { IsReady T.packet (standing self.old level.old pipe.old out.old) }
        ensures goes_on { OnTrue result (
            best_effort_turn (cost_with T.packet self.old.overhead) (visit_at (standing self.new level.new pipe.new out.new))
            ≡ best_effort_turn (cost_with T.packet self.old.overhead) (visit_at (standing self.old level.old pipe.old out.old))) }
        ensures over { OnFalse result (visit_at (standing self.new level.new pipe.new out.new)
            ≡ best_effort_turn (cost_with T.packet self.old.overhead) (visit_at (standing self.old level.old pipe.old out.old))) }
        ensures room { OnTrue result (self.new.room < self.old.room) }
        ensures onward { IsOnward T.packet (standing self.old level.old pipe.old out.old) (standing self.new level.new pipe.new out.new) }
    {
        if !pipe.best_effort_waits() {
            return false;
        }
        let filled = pipe.filled();
        let queue = pipe.wrr.pick(filled);
        let number = FIRST_BEST_EFFORT + queue as u32;
        let Some(cost) = self.front_cost(pipe, number) else {
            return false;
        };
        if !self.best_effort_fits(cost, level, pipe) {
            return false;
        }
        pipe.charge(queue, cost, self.oversub);
        self.send(BEST_EFFORT, number, cost, level, pipe, out);
        true
    }

    // Whether a best effort packet fits the subport's and the pipe's credits, and the pipe's share where credits are shared out.
    fn best_effort_fits<T: Parcel>(
        &self,
        cost: u64,
        level: &LevelBooks,
        pipe: &PipeBooks<T>,
    ) -> bool
        ensures { IsTrue result ↔ (cost ≤ best_effort_allows (visit_of self.now level.now pipe.now [])) }
    {
        fits(BEST_EFFORT, cost, level, pipe) && (!self.oversub || cost <= pipe.share)
    }

    // What the packet at the front of a queue costs, in byte times; None where the queue is empty.
    fn front_cost<T: Parcel>(&self, pipe: &PipeBooks<T>, queue: u32) -> Option<u64>
        requires queue { queue < 16 }
        requires overhead { self.now.overhead ≤ 255 }
        requires queues { AreQueues T.packet pipe.now.queues }
        ensures exact { result ≡ option_map (cost_with T.packet self.now.overhead) (slice_get (list_of queue pipe.now.queues) 0) }
        ensures limit { IfSome result (λ cost. cost ≤ MAX_COST) }
    {
        let parcel = pipe.queues.front(queue)?;
        Some(u64::from(parcel.pkt().wire + self.overhead))
    }

    // The packet at the front of a queue, which costs this and fits, is paid for and goes out.
    fn send<T: Parcel>(
        &mut self,
        class: usize,
        queue: u32,
        cost: u64,
        level: &mut LevelBooks,
        pipe: &mut PipeBooks<T>,
        out: &mut Vec<Departure<T>>,
    )
        requires class { class ≤ 12 }
        requires queue { queue < 16 }
        requires room { 0 < self.old.room }
        requires waits { 0 < length (list_of queue pipe.old.queues) }
        requires cost { cost ≡ total_cost (cost_with T.packet self.old.overhead) (take 1 (list_of queue pipe.old.queues)) }
        requires limit { cost ≤ MAX_COST }
        requires fits { cost ≤ min (allowance class (level_of level.old)) (allowance class (level_of pipe.old.level)) }
        requires ready { IsReady T.packet (standing self.old level.old pipe.old out.old) }
        ensures exact { visit_at (standing self.new level.new pipe.new out.new)
            ≡ front_sent (cost_with T.packet self.old.overhead) class queue 1 (visit_at (standing self.old level.old pipe.old out.old)) }
        ensures room { self.new.room + 1 ≡ self.old.room }
        ensures onward { IsOnward T.packet (standing self.old level.old pipe.old out.old) (standing self.new level.new pipe.new out.new) }
    {
        level.pay(class, cost);
        pipe.level.pay(class, cost);
        if let Some(parcel) = pipe.queues.pop(queue) {
            out.push_reserved(Departure {
                parcel,
                time: self.time,
            });
            self.time += cost;
            self.room -= 1;
        }
    }
}

// Whether a packet of a class fits the subport's and the pipe's credits.
fn fits<T: Parcel>(class: usize, cost: u64, level: &LevelBooks, pipe: &PipeBooks<T>) -> bool
    requires { class ≤ 12 }
    ensures { IsTrue result ↔ (cost ≤ min (allowance class (level_of level.now)) (allowance class (level_of pipe.now.level))) }
{
    level.fits(class, cost) && pipe.level.fits(class, cost)
}
