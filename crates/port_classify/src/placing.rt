//! The place of a frame.
ghost use Rattle.std.specs.Prelude.{◌≡◌, ◌<◌, Some, None, length, slice_get, IfSome};
ghost use Rattle.code_table.specs.Entry.{IsValid};
ghost use Rattle.profile_plan.specs.Profile.{IsRule, subport_of};
ghost use Rattle.port_classify.specs.Frame.{HasCodes};
ghost use Rattle.port_classify.specs.Place.{pipes_of, below, pipe_by, entry_by, place_by, place_with, place_of, IsPlaceIn};

use crate::matching::{is_same, meets};
use crate::{Frame, Place};
use code_table::Entry;
use profile_plan::{CodeChoice, PipeChoice, Profile, Proto, RulePlan};

/// The bits of an IPv4 destination that name a host's pipe, as the number of their values.
const HOSTS: u32 = 4096;

/// The pipes of a rule's subport.
fn pipes_of(p: &Profile, rule: &RulePlan) -> usize
    requires { IsRule p.now.ports p.now.meters rule.now }
    ensures { result ≡ pipes_of p.now rule.now }
{
    let port = p.port(rule.port as usize);
    port.subports.as_slice()[rule.subport as usize]
        .pipes
        .as_slice()
        .len()
}

fn below(count: usize, pipe: u32) -> Option<u32>
    ensures { result ≡ below count pipe }
{
    ((pipe as usize) < count).then_some(pipe)
}

/// The pipe that a rule gives a frame, if it has one that is there.
fn pipe_for(p: &Profile, rule: &RulePlan, f: &Frame) -> Option<u32>
    requires { IsRule p.now.ports p.now.meters rule.now }
    ensures { result ≡ pipe_by rule.now.pipe (pipes_of p.now rule.now) f.now }
{
    match rule.pipe {
        PipeChoice::Fixed(pipe) => Some(pipe),
        PipeChoice::Vlan => below(pipes_of(p, rule), u32::from(f.vlan?)),
        PipeChoice::Host if is_same(f.proto, Proto::Ipv4) => {
            below(pipes_of(p, rule), f.dst % HOSTS)
        }
        PipeChoice::Host => None,
    }
}

/// The class, queue and colour that a rule gives a frame.
fn entry_for(p: &Profile, rule: &RulePlan, f: &Frame) -> Entry
    requires rule { IsRule p.now.ports p.now.meters rule.now }
    requires frame { HasCodes f.now }
    ensures value { entry_by rule.now.code p.now.codes f.now.dscp ≡ Some result }
    ensures valid { IsValid result }
{
    match rule.code {
        CodeChoice::Dscp => p.codes.get(usize::from(f.dscp)),
        CodeChoice::Fixed(entry) => entry,
    }
}

/// The place that a rule gives a frame whose pipe is this one.
fn place_in(p: &Profile, rule: &RulePlan, f: &Frame, pipe: u32) -> Place
    requires rule { IsRule p.now.ports p.now.meters rule.now }
    requires frame { HasCodes f.now }
    requires pipe { pipe_by rule.now.pipe (pipes_of p.now rule.now) f.now ≡ Some pipe }
    ensures value { place_by p.now f.now rule.now ≡ Some result }
    ensures there { IsPlaceIn p.now result }
{
    let entry = entry_for(p, rule, f);
    Place {
        port: rule.port,
        subport: rule.subport,
        pipe,
        queue: entry.queue_number(),
        pre: entry.colour,
        meter: rule.meter,
    }
}

/// The place of a frame of an input: that of the rule with the least number that matches it, or none where no
/// rule does.
///
/// The frame's code point is below 64, its priority and traffic class are below 8, as [`crate::look`] gives
/// them. A place that is given is there: port, subport, pipe and meter are the profile's.
pub fn place(p: &Profile, input: u32, f: &Frame) -> Option<Place>
    requires { HasCodes f.now }
    ensures value { result ≡ place_of p.now input f.now }
    ensures there { IfSome result (IsPlaceIn p.now) }
{
    p.limits();
    for rule in p.rules.as_slice() {
        if meets(rule, input, f)
            && let Some(pipe) = pipe_for(p, rule, f)
        {
            return Some(place_in(p, rule, f, pipe));
        }
    }
    None
}
