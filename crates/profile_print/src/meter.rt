//! The sections `[meter NAME]`.
ghost use Rattle.std.specs.Prelude.{◌≡◌, ◌<◌, ◌++◌, map, OnOk};
ghost use Rattle.std.specs.List.{flat_map};
ghost use Rattle.profile_print.specs.Written.{key_text, block_text};
ghost use Rattle.profile_print.specs.Text.{kind_word, mode_word, meter_rate_keys, other_rate_keys, size_word, action_word, action_keys, front_keys, meter_block};

use crate::text::Text;
use crate::text::Word::{Is, Name};
use profile_plan::{MeterKind, MeterPlan, MeterRate};
use qos_base::NoMemory;

pub(crate) fn write_meters(text: &mut Text, meters: &[MeterPlan]) -> Result<(), NoMemory>
    ensures { OnOk result (text.new ≡ text.old ++ flat_map block_text (map meter_block meters.now)) }
{
    for meter in meters {
        write_meter(text, meter)?;
    }
    Ok(())
}

#[tactic(auto, unfolding(crate::specs::Text::meter_block))]
fn write_meter(text: &mut Text, meter: &MeterPlan) -> Result<(), NoMemory>
    ensures { OnOk result (text.new ≡ text.old ++ block_text (meter_block meter.now)) }
{
    text.head(&[Is("meter"), Name(meter.name.as_slice())])?;
    write_front(text, meter)?;
    text.number(&[Is("cbs")], meter.cbs)?;
    text.number(&[Is(size_word(meter.kind))], meter.other_size)?;
    write_actions(text, &meter.drops)?;
    Ok(())
}

// The meter's kind, mode and rates.
#[tactic(auto, unfolding(crate::specs::Text::front_keys))]
fn write_front(text: &mut Text, meter: &MeterPlan) -> Result<(), NoMemory>
    ensures { OnOk result (text.new ≡ text.old ++ flat_map key_text (front_keys meter.now)) }
{
    text.word("kind", Is(kind_word(meter.kind)))?;
    text.word("mode", Is(mode_word(meter.aware)))?;
    write_rate(text, "cir", meter.cir)?;
    write_other_rate(text, meter.kind, meter.other)
}

fn write_actions(text: &mut Text, drops: &[bool; 3]) -> Result<(), NoMemory>
    ensures { OnOk result (text.new ≡ text.old ++ flat_map key_text (action_keys drops.now)) }
{
    text.word("green", Is(action_word(drops, 0)))?;
    text.word("yellow", Is(action_word(drops, 1)))?;
    text.word("red", Is(action_word(drops, 2)))
}

fn kind_word(kind: MeterKind) -> &'static str
    ensures { result.now ≡ kind_word kind }
{
    match kind {
        MeterKind::SrTcm => "srtcm",
        MeterKind::TrTcm => "trtcm",
        MeterKind::Rfc4115 => "rfc4115",
    }
}

fn mode_word(aware: bool) -> &'static str
    ensures { result.now ≡ mode_word aware }
{
    if aware { "aware" } else { "blind" }
}

fn size_word(kind: MeterKind) -> &'static str
    ensures { result.now ≡ size_word kind }
{
    match kind {
        MeterKind::TrTcm => "pbs",
        _ => "ebs",
    }
}

fn action_word(drops: &[bool; 3], colour: usize) -> &'static str
    requires { colour < 3 }
    ensures { result.now ≡ action_word drops.now colour }
{
    if drops[colour] { "drop" } else { "pass" }
}

fn write_rate(text: &mut Text, name: &str, rate: MeterRate) -> Result<(), NoMemory>
    ensures { OnOk result (text.new ≡ text.old ++ flat_map key_text (meter_rate_keys name.now rate)) }
{
    match rate {
        MeterRate::Periods { bytes, period } => {
            text.number(&[Is(name), Is("bytes")], bytes)?;
            text.number(&[Is(name), Is("period")], period)?;
            Ok(())
        }
        MeterRate::PerSecond(rate) => text.number(&[Is(name), Is("rate")], rate),
    }
}

fn write_other_rate(text: &mut Text, kind: MeterKind, rate: MeterRate) -> Result<(), NoMemory>
    ensures { OnOk result (text.new ≡ text.old ++ flat_map key_text (other_rate_keys kind rate)) }
{
    match kind {
        MeterKind::SrTcm => Ok(()),
        MeterKind::TrTcm => write_rate(text, "pir", rate),
        MeterKind::Rfc4115 => write_rate(text, "eir", rate),
    }
}
