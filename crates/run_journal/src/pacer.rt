//! The pacer: it tells the moments at which a port is to be dequeued.
ghost use Rattle.std.specs.Prelude.{◌≡◌, ◌≤◌, ◌<◌, ◌^◌, max};
ghost use Rattle.std.specs.Option.{unwrap_or};

use std::marker::Model;

/// How many idle dequeues an advance makes at most.
const IDLE_DEQUEUES: u64 = 1024;

/// A clock in byte times of the line that is advanced to a packet's arrival, with a dequeue at each
/// moment of the pacing rule on the way.
#[derive(Debug, Drop)]
pub struct Pacer {
    quantum: u64,
    clock: u64,
    aim: u64,
    step: u64,
    went: bool,
}

impl Model for Pacer {
    ghost use Rattle.run_journal.specs.Pacer.{PacerState};
    ghost use Rattle.std.specs.Prelude.{◌≤◌, ◌^◌};

    ghost Value = { PacerState };

    ghost view = { λ p. record { quantum = p.quantum; clock = p.clock; aim = p.aim; step = p.step; went = p.went } };

    ghost invariant = { λ p. (p.step ≤ 2 ^ 63) × (p.aim ≤ 2 ^ 62) × (p.quantum ≤ 2 ^ 30) };
}

impl Pacer {
    ghost use Rattle.run_journal.specs.Pacer.{PacerState, new_pacer, after_aim, next_in, after_at};

    /// A pacer with clock 0 and aim 0. `quantum` is the least step of an idle dequeue, 1 to 10^9 byte times.
    pub fn new(quantum: u64) -> Pacer
        requires some { 1 ≤ quantum }
        requires most { quantum ≤ 1000000000 }
        ensures { result ≡ new_pacer quantum }
    {
        Pacer {
            quantum,
            clock: 0,
            aim: 0,
            step: quantum,
            went: false,
        }
    }

    /// Begins an advance to `b`, at most 2^62. The clock has come to the aim before.
    pub fn aim(&mut self, b: u64)
        requires byte_time { b ≤ 2 ^ 62 }
        requires there { self.old.aim ≤ self.old.clock }
        ensures { self.new ≡ after_aim b self.old }
    {
        self.aim = b;
        if b > self.clock {
            self.step = self.quantum.max((b - self.clock) / IDLE_DEQUEUES + 1);
        }
    }

    /// The moment of the advance's next dequeue, for so many packets that wait and this port time, at most
    /// 2^62. None where the advance is over; the clock is then at the aim or past it.
    pub fn next(&mut self, queued: u64, time: u64) -> Option<u64>
        requires { time ≤ 2 ^ 62 }
        ensures moment { result ≡ next_in self.old queued time }
        ensures clock { self.new ≡ record self.old { clock = unwrap_or (next_in self.old queued time) (max self.old.clock self.old.aim) } }
    {
        if self.clock >= self.aim {
            return None;
        }
        let next = if self.went {
            self.clock.max(time)
        } else {
            self.clock + self.step
        };
        if queued == 0 || next > self.aim {
            self.clock = self.aim;
            return None;
        }
        self.clock = next;
        Some(next)
    }

    /// Tells whether the last dequeue sent something.
    pub fn went(&mut self, sent: bool)
        ensures { self.new ≡ record self.old { went = sent } }
    {
        self.went = sent;
    }

    /// The moment of the dequeue that follows an arrival: the clock, or None exactly where port time, at
    /// most 2^62, is past it.
    pub fn after(&self, time: u64) -> Option<u64>
        requires { time ≤ 2 ^ 62 }
        ensures { result ≡ after_at self.now time }
    {
        (time <= self.clock).then_some(self.clock)
    }

    /// The clock, in byte times of the line.
    pub fn clock(&self) -> u64
        ensures { result ≡ self.now.clock }
    {
        self.clock
    }
}
