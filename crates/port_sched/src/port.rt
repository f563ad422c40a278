//! A port of a profile: its subports, their pipes, and the scheduler over them.
ghost use Rattle.std.specs.Prelude.{◌≡◌, ◌≤◌, ◌<◌, ◌+◌, ◌*◌, ◌%◌, ◌^◌, ◌++◌, length, max, slice_get, vec_len, vec_capacity};

use crate::round::around;
use crate::serving::Serving;
use crate::subport::SubportBooks;
use credit_book::laws::{multiples_add_up, periods_add_up};
use qos_base::{Departure, Parcel, Steps};
use std::marker::Model;
use std::sync::ledger::Ledger;

/// The scheduler of a port (DPDK Programmer's Guide, chapter Quality of Service Framework).
///
/// Times are in byte times of the line.
#[derive(Drop)]
pub struct PortSched<T: Parcel> {
    pub(crate) overhead: u32,
    pub(crate) mtu: u32,
    pub(crate) time: u64,
    // the moment up to which every bucket counts as stepped
    pub(crate) ticked: u64,
    pub(crate) cursor: usize,
    pub(crate) subports: Vec<SubportBooks<T>>,
}

impl<T: Parcel> Model for PortSched<T> {
    ghost use Rattle.std.specs.Prelude.{map};
    ghost use Rattle.port_sched.specs.Port.{Port};
    ghost use Rattle.port_sched.specs.Books.{subport_up_to};
    ghost use Rattle.port_sched.specs.Sound.{IsPortSched};

    ghost Value = { Port T };

    ghost view = { λ s. record {
      overhead = s.overhead;
      mtu = s.mtu;
      time = s.time;
      ticked = s.ticked;
      cursor = s.cursor;
      subports = map (subport_up_to s.ticked) s.subports.items;
    } };

    ghost invariant = { λ s. IsPortSched T.packet s.overhead s.mtu s.time s.ticked s.cursor s.subports.items };
}

impl<T: Parcel> PortSched<T> {
    ghost use Rattle.port_sched.specs.Port.{Port, tick};
    ghost use Rattle.port_sched.specs.PortDequeue.{visit, visits, turn_of, active_count, pipe_count, dequeue_port};
    ghost use Rattle.port_sched.specs.Visits.{visit_steps, visit_count, turn_visits, dequeue_visits};
    ghost use Rattle.port_sched.specs.Stage.{max_cost, stage, course_of, IsReady, GoesTo};

    /// Port time, in byte times of the line.
    pub fn time(&self) -> u64
        ensures { result ≡ self.now.time }
    {
        self.time
    }

    /// Port time becomes the later of itself and `now`; then each subport has a turn while `room` is left. What is sent is
    /// added to `out`; the answer is how many packets.
    ///
    /// `now` and [`PortSched::time`] are in byte times, at most 2^62. `room` is at most 256, and `out` has room reserved for
    /// that many. No memory is taken. `steps` counts bucket updates, class renewals and words of the
    /// bitmap that are read, at most 24 for each visit of a pipe.
    pub fn dequeue<L: Ledger>(
        &mut self,
        now: u64,
        room: u32,
        out: &mut Vec<Departure<T>>,
        steps: &mut Steps<L>,
    ) -> u32
        requires space { vec_len out.old + room ≤ vec_capacity out.old }
        requires room { room ≤ 256 }
        requires now { now ≤ 2 ^ 62 }
        requires time { self.old.time ≤ 2 ^ 62 }
        ensures state { self.new ≡ (dequeue_port T.packet now room self.old).port }
        ensures sends { out.new.items ≡ out.old.items ++ (dequeue_port T.packet now room self.old).sends }
        ensures count { result ≡ length (dequeue_port T.packet now room self.old).sends }
        ensures capacity { vec_capacity out.new ≡ vec_capacity out.old }
        ensures steps { steps.new ≤ steps.old + visit_steps * dequeue_visits T.packet now room self.old }
    {
        self.move_to(now);
        let first = out.len();
        let from = self.cursor;
        let subports = self.subports.len();
        let mut left = room;
        for ahead in 0..subports {
            left = self.turn(around(from + ahead, subports), left, first, out, steps);
        }
        room - left
    }

    fn move_to(&mut self, now: u64)
        ensures { self.new ≡ record self.old { time = max self.old.time now } }
    {
        self.time = self.time.max(now);
    }

    // The turn of a subport, if room is left for it; the room that is left then.
    fn turn<L: Ledger>(
        &mut self,
        subport: usize,
        room: u32,
        first: usize,
        out: &mut Vec<Departure<T>>,
        steps: &mut Steps<L>,
    ) -> u32
        requires ready { IsReady subport first (stage self.old room out.old) }
        requires time { self.old.time + max_cost * room ≤ 2 ^ 62 + 2 ^ 28 }
        ensures exact { course_of first (stage self.new result out.new)
            ≡ turn_of T.packet (course_of first (stage self.old room out.old)) subport }
        ensures goes { GoesTo first (stage self.old room out.old) (stage self.new result out.new) }
        ensures steps { steps.new ≤ steps.old + visit_steps * turn_visits T.packet subport (course_of first (stage self.old room out.old)) }
    {
        if room == 0 {
            return 0;
        }
        let left = self.visits(subport, room, first, out, steps);
        if left == 0 {
            self.move_on(subport);
        }
        left
    }

    // Visits in a subport, until the room is used up or as many in a row have sent nothing as its pipes have a packet.
    fn visits<L: Ledger>(
        &mut self,
        subport: usize,
        room: u32,
        first: usize,
        out: &mut Vec<Departure<T>>,
        steps: &mut Steps<L>,
    ) -> u32
        requires ready { IsReady subport first (stage self.old room out.old) }
        requires time { self.old.time + max_cost * room ≤ 2 ^ 62 + 2 ^ 28 }
        ensures exact { let most = (room + 1) * (pipe_count T.packet (slice_get self.old.subports subport) + 1) in
            course_of first (stage self.new result out.new)
            ≡ visits T.packet most subport 0 (course_of first (stage self.old room out.old)) }
        ensures goes { GoesTo first (stage self.old room out.old) (stage self.new result out.new) }
        ensures steps { let most = (room + 1) * (pipe_count T.packet (slice_get self.old.subports subport) + 1) in
            steps.new ≤ steps.old + visit_steps * visit_count T.packet most subport 0 (course_of first (stage self.old room out.old)) }
    {
        let mut left = room;
        let mut misses = 0;
        while left > 0 && misses < self.active(subport) {
            let after = self.visit(subport, left, first, out, steps);
            misses = if after == left { misses + 1 } else { 0 };
            left = after;
        }
        left
    }

    // The next dequeue begins with the subport after this one.
    fn move_on(&mut self, subport: usize)
        requires { subport < length self.old.subports }
        ensures { self.new ≡ record self.old { cursor = (subport + 1) % length self.old.subports } }
    {
        let subports = self.subports.len();
        self.cursor = around(subport + 1, subports);
    }

    // How many pipes of a subport have a packet.
    fn active(&self, subport: usize) -> usize
        requires { subport < length self.now.subports }
        ensures { result ≡ active_count T.packet (slice_get self.now.subports subport) }
    {
        self.subports[subport].active()
    }

    // Visits the next pipe of a subport at port time; the room that is left then.
    fn visit<L: Ledger>(
        &mut self,
        subport: usize,
        room: u32,
        first: usize,
        out: &mut Vec<Departure<T>>,
        steps: &mut Steps<L>,
    ) -> u32
        requires ready { IsReady subport first (stage self.old room out.old) }
        requires time { self.old.time ≤ 2 ^ 62 + 2 ^ 28 }
        ensures exact { course_of first (stage self.new result out.new)
            ≡ visit T.packet subport (course_of first (stage self.old room out.old)) }
        ensures goes { GoesTo first (stage self.old room out.old) (stage self.new result out.new) }
        ensures pipes { pipe_count T.packet (slice_get self.new.subports subport)
            ≡ pipe_count T.packet (slice_get self.old.subports subport) }
        ensures steps { steps.new ≤ steps.old + visit_steps }
    {
        self.tick();
        let visited = &mut self.subports[subport];
        let Some(pipe) = visited.next_pipe(steps) else {
            return room;
        };
        let mut serving = Serving {
            overhead: self.overhead,
            oversub: visited.oversub,
            time: self.time,
            room,
            first,
        };
        visited.visit(pipe, &mut serving, out, steps);
        self.time = serving.time;
        serving.room
    }

    // Every bucket stands for what it is at port time. It is brought up to it when it is used.
    fn tick(&mut self)
        ensures { self.new ≡ tick self.old.time self.old }
    {
        periods_add_up();
        multiples_add_up();
        self.ticked = self.time;
    }
}
