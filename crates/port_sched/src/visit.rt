//! A visit of one pipe of a subport.
ghost use Rattle.std.specs.Prelude.{◌≡◌, ◌+◌, ◌*◌, ◌-◌, ◌≤◌, ◌<◌, ◌^◌, take, length, vec_len, vec_capacity};
ghost use Rattle.port_sched.specs.Visit.{cursor_after, visit_pipe};
ghost use Rattle.port_sched.specs.Renewal.{subport_renewed, pipe_renewed};
ghost use Rattle.port_sched.specs.Subport.{Subport};
ghost use Rattle.port_sched.specs.PortDequeue.{cost_with};
ghost use Rattle.port_sched.specs.Books.{service_up_to, pipe_of, Moves, IsSubportBooks};

use crate::level::BEST_EFFORT;
use crate::pipe::PipeBooks;
use crate::round::around;
use crate::serving::Serving;
use crate::subport::SubportBooks;
use qos_base::{Departure, Parcel, Steps};
use std::sync::ledger::Ledger;

impl<T: Parcel> SubportBooks<T> {
    /// Pipe `pipe` is visited: its bucket and the subport's are brought up to port time, what is due is renewed, its classes
    /// send, and the cursor moves on.
    pub(crate) fn visit<L: Ledger>(
        &mut self,
        pipe: usize,
        serving: &mut Serving,
        out: &mut Vec<Departure<T>>,
        steps: &mut Steps<L>,
    )
        requires pipe { pipe < length self.old.pipes.items }
        requires sound { IsSubportBooks T.packet serving.old.time self.old }
        requires oversub { serving.old.oversub ≡ self.old.oversub }
        requires overhead { serving.old.overhead ≤ 255 }
        requires room { serving.old.room ≤ 256 }
        requires time { serving.old.time ≤ 2 ^ 62 + 2 ^ 28 }
        requires first { serving.old.first ≤ length out.old.items }
        requires space { vec_len out.old + serving.old.room ≤ vec_capacity out.old }
        ensures exact { service_up_to serving.old.time serving.new self.new out.new.items
            ≡ visit_pipe (cost_with T.packet serving.old.overhead) pipe (service_up_to serving.old.time serving.old self.old out.old.items) }
        ensures sound { IsSubportBooks T.packet serving.old.time self.new }
        ensures same { (serving.new.overhead ≡ serving.old.overhead)
            × (serving.new.oversub ≡ serving.old.oversub) × (serving.new.first ≡ serving.old.first) }
        ensures room { serving.new.room ≤ serving.old.room }
        ensures no_sooner { serving.old.time ≤ serving.new.time }
        ensures no_later { serving.new.time ≤ serving.old.time + 262399 * (serving.old.room - serving.new.room) }
        ensures sent { vec_len out.new + serving.new.room ≡ vec_len out.old + serving.old.room }
        ensures kept { length self.new.pipes.items ≡ length self.old.pipes.items }
        ensures held { take serving.old.first out.new.items ≡ take serving.old.first out.old.items }
        ensures capacity { vec_capacity out.new ≡ vec_capacity out.old }
        ensures steps { steps.new ≡ steps.old + 4 }
    {
        self.level.bring(serving.time, steps);
        self.renew(serving.time, steps);
        let pipes = self.pipes.len();
        let visited = &mut self.pipes[pipe];
        let had = visited.has_packet();
        visited.level.bring(serving.time, steps);
        visited.renew(
            serving.time,
            self.oversub,
            self.watermark.value(),
            self.period,
            steps,
        );
        serving.classes(&mut self.level, visited, out);
        let has = visited.has_packet();
        self.active.change(pipe, had, has);
        self.cursor = moved_cursor(pipe, pipes, serving.room);
    }

    // Where the subport's renewal is due, its watermark takes a step, its classes are whole, and a new period begins.
    fn renew<L: Ledger>(&mut self, time: u64, steps: &mut Steps<L>)
        requires time { time ≤ 2 ^ 63 }
        requires periods { self.old.period < self.old.level.classes.due }
        ensures exact { Moves (λ from to. to ≡ subport_renewed time from) self.old self.new }
        ensures periods { self.new.period < self.new.level.classes.due }
        ensures bucket { self.new.level.bucket ≡ self.old.level.bucket }
        ensures pipes { self.new.pipes ≡ self.old.pipes }
        ensures active { self.new.active ≡ self.old.active }
        ensures step { steps.new ≡ steps.old + 1 }
    {
        if self.oversub && self.oversubscribed && self.level.is_due(time) {
            self.watermark.renew(
                self.level.used_above(),
                self.level.classes.used(BEST_EFFORT),
            );
        }
        if self.level.renew(time, steps) {
            self.period += 1;
        }
    }
}

impl<T: Parcel> PipeBooks<T> {
    // The pipe's classes are whole where its renewal is due; in a period that it has not seen it gets its share.
    fn renew<L: Ledger>(
        &mut self,
        time: u64,
        oversub: bool,
        watermark: u64,
        period: u64,
        steps: &mut Steps<L>,
    )
        requires time { time ≤ 2 ^ 63 }
        requires watermark { watermark ≤ 2 ^ 48 }
        ensures exact { (s : Subport T) → s.oversub ≡ oversub → s.watermark.value ≡ watermark → s.period ≡ period
            → pipe_of self.new ≡ pipe_renewed time s (pipe_of self.old) }
        ensures bucket { self.new.level.bucket ≡ self.old.level.bucket }
        ensures queues { self.new.queues ≡ self.old.queues }
        ensures step { steps.new ≡ steps.old + 1 }
    {
        self.level.renew(time, steps);
        if oversub && self.seen != Some(period) {
            self.share = watermark * u64::from(self.weight);
            self.seen = Some(period);
        }
    }
}

// Where the cursor of so many pipes goes after a visit of one of them that left so much room.
fn moved_cursor(pipe: usize, pipes: usize, room: u32) -> usize
    requires { pipe < pipes }
    ensures exact { result ≡ cursor_after pipe pipes room }
    ensures within { result < pipes }
{
    if room == 0 {
        pipe
    } else {
        around(pipe + 1, pipes)
    }
}
