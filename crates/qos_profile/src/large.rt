//! What is too large in the whole.
ghost use Rattle.std.specs.Prelude.{◌≡◌, ◌≤◌, ◌*◌, ◌^◌, length};
ghost use Rattle.qos_profile.specs.declared.limits.TheConstants.{MAX_TEXT};
ghost use Rattle.qos_profile.specs.Large.{pipe_room, room_with, pipes_in, room_in, queue_total, pipe_total, slot_total, meters_in, meter_total, first_above, too_large};

use crate::defaults::{SLOT_BYTES, SLOTS};
use crate::fact::Fact;
use crate::head::Head;
use crate::lookup::{facts_at, number_at, value_at};
use crate::section::Section;
use crate::value::Value;
use profile_plan::{
    MAX_METERS, MAX_PIPES, MAX_POOL_BYTES, MAX_QUEUE, MAX_QUEUED, MAX_SLOT_BYTES, MAX_SLOTS,
    MAX_SUBPORT_PIPES,
};

fn pipe_room(sizes: &[u32; 13]) -> u64
    ensures value { result ≡ pipe_room sizes.now }
    ensures within { result ≤ 16 * MAX_QUEUE }
{
    let mut room: u64 = 0;
    for size in sizes {
        room += u64::from(*size).min(MAX_QUEUE);
    }
    room + 3 * u64::from(sizes[12]).min(MAX_QUEUE)
}

fn room_with(sizes: Option<Value>) -> u64
    ensures value { result ≡ room_with sizes }
    ensures within { result ≤ 16 * MAX_QUEUE }
{
    match sizes {
        Some(Value::Sizes(sizes)) => pipe_room(&sizes),
        _ => 0,
    }
}

fn pipes_in(head: &Head, facts: &[Fact]) -> u64
    ensures value { result ≡ pipes_in head.now facts.now }
    ensures within { result ≤ MAX_SUBPORT_PIPES }
{
    match head {
        Head::Subport(_, _) => number_at(facts, 1, 0, 0).min(MAX_SUBPORT_PIPES),
        _ => 0,
    }
}

fn room_in(section: &Section) -> u64
    ensures value { result ≡ room_in section.now }
    ensures within { result ≤ 2 ^ 32 }
{
    let facts = section.facts.as_slice();
    pipes_in(&section.head, facts) * room_with(value_at(facts, 2, 0))
}

fn queue_total(sections: &[Section]) -> u64
    requires { length sections.now ≤ MAX_TEXT }
    ensures { result ≡ queue_total sections.now }
{
    let mut total: u64 = 0;
    for section in sections {
        total += room_in(section);
    }
    total
}

fn pipe_total(sections: &[Section]) -> u64
    requires { length sections.now ≤ MAX_TEXT }
    ensures { result ≡ pipe_total sections.now }
{
    let mut total: u64 = 0;
    for section in sections {
        total += pipes_in(&section.head, section.facts.as_slice());
    }
    total
}

#[tactic(auto, unfolding(crate::specs::Planned::pool_of))]
fn slot_total(facts: &[Fact]) -> u64
    ensures { result ≡ slot_total facts.now }
{
    let slots = number_at(facts, 0, 0, SLOTS).min(MAX_SLOTS);
    let bytes = number_at(facts, 1, 0, SLOT_BYTES).min(MAX_SLOT_BYTES);
    slots * bytes
}

fn meters_in(head: &Head) -> u64
    ensures value { result ≡ meters_in head.now }
    ensures within { result ≤ 1 }
{
    match head {
        Head::Meter(_) => 1,
        _ => 0,
    }
}

fn meter_total(sections: &[Section]) -> u64
    requires { length sections.now ≤ MAX_TEXT }
    ensures { result ≡ meter_total sections.now }
{
    let mut total: u64 = 0;
    for section in sections {
        total += meters_in(&section.head);
    }
    total
}

fn first_above(queues: u64, pipes: u64, slots: u64, meters: u64) -> Option<u64>
    ensures { result ≡ first_above queues pipes slots meters }
{
    if queues > MAX_QUEUED {
        Some(queues)
    } else if pipes > MAX_PIPES {
        Some(pipes)
    } else if slots > MAX_POOL_BYTES {
        Some(slots)
    } else if meters > MAX_METERS {
        Some(meters)
    } else {
        None
    }
}

/// The first total that is too large.
#[tactic(auto, unfolding(crate::specs::Large::too_large))]
pub(crate) fn too_large(sections: &[Section]) -> Option<u64>
    requires { length sections.now ≤ MAX_TEXT }
    ensures { result ≡ too_large sections.now }
{
    first_above(
        queue_total(sections),
        pipe_total(sections),
        slot_total(facts_at(sections, &Head::Pool)),
        meter_total(sections),
    )
}
