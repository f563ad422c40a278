//! A sender's end of a ring, and what is left of it.
ghost use Rattle.std.specs.Prelude.{◌≡◌, [], true, false, length};
ghost use Rattle.stage_ring.specs.declared.msg.Msg.TheVariants.{Parcel};
ghost use Rattle.mbuf_pool.specs.declared.mbuf.Mbuf.{Mbuf};
ghost use Rattle.std.specs.Arc.{arc_value};
ghost use Rattle.crossbeam_queue.specs.Passes.{view, IsPassOf};

use crate::line::{Known, Line, Post};
use crate::msg::{Full, Msg, Posted};
use crossbeam_queue::Pass;
use mbuf_pool::Mbuf;
use std::alloc::Global;
use std::sync::{Arc, Wait};

/// A sender's end of a ring.
#[derive(Drop)]
pub struct Outlet {
    pub(crate) line: Arc<Line, Global>,
    pub(crate) pass: Pass<Posted, Known>,
    pub(crate) number: u32,
    pub(crate) count: u64,
    ghost own: { IsPassOf (arc_value line) pass },
    ghost sends: { (view pass).sends ≡ true },
    ghost not_done: { (view pass).done ≡ false },
    ghost numbered: { (view pass).from ≡ number },
    ghost counted: { length (view pass).parcels ≡ count },
}

/// What is left of a sender that has ended.
#[derive(Drop)]
pub struct Sent {
    /// The sender's number.
    pub sender: u32,
    /// How many parcels it sent.
    pub count: u64,
    pub(crate) pass: Pass<Posted, Known>,
    ghost no_slot: { pass.me.1 ≡ [] },
    ghost done: { (view pass).done ≡ true },
    ghost numbered: { (view pass).from ≡ sender },
    pub ghost counted: { length (view pass).parcels ≡ count },
}

// The parcel of a message that is one.
fn parcel_of(x: Posted) -> Mbuf
    requires { (m : Mbuf) × (x.msg ≡ Parcel m) }
    ensures { x.msg ≡ Parcel result }
{
    match x.msg {
        Msg::Parcel(m) => m,
        Msg::Fin(_) => unreachable!(),
    }
}

impl Outlet {
    ghost use Rattle.std.specs.Prelude.{ℕ, ◌+◌, ◌^◌, ◌<◌, [], ◌∷◌, ◌++◌, true, Ok, IfErr, IfOk, OnOk, MatchResult};
    ghost use Rattle.crossbeam_queue.specs.Fifo.{Held};
    ghost use Rattle.stage_ring.specs.Ends.{capacity_of, parcels_put, outlet_knows, IsSameOutlet, IsSentBy};
    ghost use Rattle.stage_ring.specs.Line.{MayHold};

    /// Puts a parcel into the ring. Full only where the ring held as many messages as its capacity at one
    /// moment of the call; then the parcel comes back and nothing was put.
    ///
    /// The outlet has sent fewer than 2^56 parcels. It may wait for another thread that is just putting or
    /// taking a message.
    pub fn push<R: Wait>(&mut self, rt: &R, m: Mbuf) -> Result<(), Full>
        requires { length (parcels_put self.old) < 2 ^ 56 }
        ensures same { IsSameOutlet self.old self.new }
        ensures put { OnOk result (parcels_put self.new ≡ parcels_put self.old ++ m ∷ []) }
        ensures back { IfErr result (λ f. (f.parcel ≡ m) × (parcels_put self.new ≡ parcels_put self.old)) }
        ensures full { IfErr result (λ _. Held (capacity_of self.old) (MayHold (outlet_knows self.old))) }
    {
        let x = Posted {
            from: self.number,
            msg: Msg::Parcel(m),
        };
        match self.line.push_as::<Post, R>(rt, &mut self.pass, x) {
            Ok(()) => {
                self.count += 1;
                Ok(())
            }
            Err(x) => {
                let parcel = parcel_of(x);
                Err(Full { parcel })
            }
        }
    }

    /// Ends the sender: puts its Fin into the ring, as its last message. The outlet comes back, as it was,
    /// only where the ring held as many messages as its capacity at one moment of the call.
    pub fn finish<R: Wait>(self, rt: &R) -> Result<Sent, Outlet>
        ensures sent { IfOk result (IsSentBy self) }
        ensures back { IfErr result (λ o. IsSameOutlet self o × (parcels_put o ≡ parcels_put self)) }
        ensures full { IfErr result (λ _. Held (capacity_of self) (MayHold (outlet_knows self))) }
    {
        let Outlet {
            line,
            mut pass,
            number,
            count,
        } = self;
        let x = Posted {
            from: number,
            msg: Msg::Fin(number),
        };
        match line.push_as::<Post, R>(rt, &mut pass, x) {
            Ok(()) => Ok(Sent {
                sender: number,
                count,
                pass,
            }),
            Err(_) => Err(Outlet {
                line,
                pass,
                number,
                count,
            }),
        }
    }
}
