//! The words of a meter's cell, as numbers of 64 bits: what the meter is set to, and then how it stands and its last
//! mark.
ghost use Rattle.std.specs.Prelude.{◌≡◌, ◌^◌, ◌<◌, ◌≤◌, List, slice_index};
ghost use Rattle.profile_plan.specs.Limits.{IsMeter};
ghost use Rattle.color_meter.specs.Meter.{IsMeterState, full};
ghost use Rattle.color_meter.specs.Setting.{setting_of};
ghost use Rattle.meter_table.specs.Asked.{request_in, request_of};
ghost use Rattle.meter_table.specs.Cell.{IsCell, IsNext, colour_word, kind_word, running_words, settled_words};
ghost use Rattle.meter_table.specs.Log.{meter_after};
ghost use Rattle.meter_table.specs.declared.mark.Mark.{Mark};

use crate::mark::Mark;
use color_meter::Meter;
use color_meter::laws::{limits_are_kept, setting_is_kept};
use profile_plan::{MeterKind, MeterPlan};
use qos_base::Colour;

/// A packet that a meter is asked about.
#[derive(Clone, Copy)]
pub struct Ask {
    pub meter: u32,
    pub input: u32,
    pub index: u32,
    pub at: u64,
    pub len: u32,
    pub pre: Colour,
}

fn colour_word(colour: Colour) -> u64
    ensures { result ≡ colour_word colour }
{
    match colour {
        Colour::Green => 0,
        Colour::Yellow => 1,
        Colour::Red => 2,
    }
}

fn kind_word(kind: MeterKind) -> u64
    ensures { result ≡ kind_word kind }
{
    match kind {
        MeterKind::SrTcm => 0,
        MeterKind::TrTcm => 1,
        MeterKind::Rfc4115 => 2,
    }
}

/// The words of a meter that has made no mark.
pub fn settled_words(meter: u32, plan: &MeterPlan) -> [u64; 12]
    requires { IsMeter plan.now }
    ensures exact { result ≡ settled_words meter (setting_of plan.now) }
    ensures sound { IsMeterState (full (setting_of plan.now)) }
{
    let (cir_bytes, cir_period) = plan.cir.periods();
    let (other_bytes, other_period) = plan.other.periods();
    // A full meter's counts are the sizes of its buckets.
    let (cbs, other_size) = Meter::new(plan).counts();
    [
        0,
        u64::from(meter),
        kind_word(plan.kind),
        u64::from(plan.aware),
        cir_bytes,
        cir_period,
        other_bytes,
        other_period,
        cbs,
        other_size,
        0,
        0,
    ]
}

// The words of a meter as its last mark left it.
fn running_words(meter: &Meter, mark: &Mark) -> [u64; 12]
    requires { mark.now.turn < 2 ^ 63 }
    ensures { result ≡ running_words meter.now mark.now }
{
    let [committed, rest, high, cir_time, other_time] = meter.words();
    [
        mark.turn + 1,
        committed,
        rest,
        high,
        cir_time,
        other_time,
        u64::from(mark.input),
        u64::from(mark.index),
        mark.at,
        u64::from(mark.len),
        colour_word(mark.pre),
        colour_word(mark.colour),
    ]
}

// The meter that the words tell; `start` is what it was when it began.
fn meter_in(start: &Meter, words: &[u64; 12]) -> Meter
    requires start { start.now ≡ full start.now.setting }
    requires words { (log : List Mark) × IsCell start.now.setting log words.now }
    ensures { (log : List Mark) → IsCell start.now.setting log words.now → result ≡ meter_after start.now.setting log }
{
    if words[0] == 0 {
        return *start;
    }
    start.with_words(&[words[1], words[2], words[3], words[4], words[5]])
}

/// The mark that the meter makes of a packet, and the words that it leaves.
pub fn next_words(start: &Meter, ask: &Ask, words: &[u64; 12]) -> (Mark, [u64; 12])
    requires start { start.now ≡ full start.now.setting }
    requires at { ask.now.at ≤ 2 ^ 50 }
    requires words { (log : List Mark) × IsCell start.now.setting log words.now }
    requires few { slice_index words.now 0 < 2 ^ 63 }
    ensures asked { request_in result.0 ≡ request_of ask.now }
    ensures next { IsNext ask.now.meter start.now.setting words.now result.0 result.1 }
{
    limits_are_kept();
    setting_is_kept();
    let mut meter = meter_in(start, words);
    let colour = meter.check(ask.at, ask.len, ask.pre);
    let mark = Mark {
        meter: ask.meter,
        turn: words[0],
        input: ask.input,
        index: ask.index,
        at: ask.at,
        len: ask.len,
        pre: ask.pre,
        colour,
    };
    (mark, running_words(&meter, &mark))
}
