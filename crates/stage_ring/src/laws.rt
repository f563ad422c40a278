//! Where the ends of a ring meet.
ghost use Rattle.std.specs.Prelude.{◌≡◌, ℕ, ◌∷◌, ◌++◌, [], List, true, length};
ghost use Rattle.stage_ring.specs.Ends.{inlet_ring, taken_by, taken_of, met_by, sent_ring, parcels_sent, all_sent, IsSameInlet, IsSameSent, IsEnded};
ghost use Rattle.stage_ring.specs.declared.msg.Msg.{Msg};

use crate::inlet::Inlet;
use crate::line::{Hear, Receive, Tell};
use crate::outlet::Sent;
use std::sync::Wait;

/// What was taken of a sender is a first part of what it put; once the inlet has ended it is all of it.
/// Both come back as they were, and from now on the inlet knows all that this sender put.
///
/// They are of one ring. The handle is that of the ring's other calls.
pub fn meet<R: Wait>(_rt: &R, inlet: &mut Inlet, mut sent: Sent) -> Sent
    requires { sent_ring sent ≡ inlet_ring inlet.old }
    ensures same { IsSameInlet inlet.old inlet.new }
    ensures taken { taken_by inlet.new ≡ taken_by inlet.old }
    ensures met { met_by inlet.new ≡ met_by inlet.old ++ (sent.sender, all_sent sent) ∷ [] }
    ensures sent { IsSameSent sent result }
    ensures count { sent.count ≡ length (parcels_sent sent) }
    ensures first_part { (rest : List Msg) × (taken_of sent.sender inlet.old ++ rest ≡ all_sent sent) }
    ensures whole { IsEnded inlet.old → taken_of sent.sender inlet.old ≡ all_sent sent }
{
    let told = inlet.line.another::<Tell>(&mut sent.pass);
    inlet.line.absorb::<Hear>(&mut inlet.pass, told);
    inlet.line.learn_as::<Receive>(&mut inlet.pass);
    sent
}
