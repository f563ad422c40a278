//! The lines of meters.
ghost use Rattle.std.specs.Prelude.{◌≡◌, ◌++◌, OnOk};
ghost use Rattle.std.specs.List.{flat_map};
ghost use Rattle.run_report.specs.Report.{is_colour, marked, meter_name, meter_line};

use crate::text::Text;
use meter_table::{Mark, MeterLog};
use profile_plan::Profile;
use qos_base::{Colour, NoMemory};

pub(crate) fn push_meters(
    text: &mut Text,
    p: &Option<Profile>,
    logs: &[MeterLog],
) -> Result<(), NoMemory>
    ensures { OnOk result (text.new ≡ text.old ++ flat_map (meter_line p.now) logs.now) }
{
    for log in logs {
        push_meter(text, p, log)?;
    }
    Ok(())
}

#[tactic(auto, unfolding(crate::specs::Report::meter_line))]
fn push_meter(text: &mut Text, p: &Option<Profile>, log: &MeterLog) -> Result<(), NoMemory>
    ensures { OnOk result (text.new ≡ text.old ++ meter_line p.now log.now) }
{
    let marks = log.marks.as_slice();
    text.push(b"meter ")?;
    text.push(meter_name(p, log.meter))?;
    text.end_with_pairs(&[
        ("green", marked(Colour::Green, marks)),
        ("yellow", marked(Colour::Yellow, marks)),
        ("red", marked(Colour::Red, marks)),
    ])
}

// The name of a meter; no bytes where there is no such meter.
fn meter_name(p: &Option<Profile>, n: u32) -> &[u8]
    ensures { result.now ≡ meter_name p.now n }
{
    let Some(p) = p else { return b"" };
    match p.meters.as_slice().get(n as usize) {
        Some(meter) => meter.name.as_slice(),
        None => b"",
    }
}

fn is_colour(colour: Colour, other: Colour) -> bool
    ensures { result ≡ is_colour colour other }
{
    match (colour, other) {
        (Colour::Green, Colour::Green) => true,
        (Colour::Yellow, Colour::Yellow) => true,
        (Colour::Red, Colour::Red) => true,
        _ => false,
    }
}

// How many packets were marked so.
fn marked(colour: Colour, marks: &[Mark]) -> u64
    ensures { result ≡ marked colour marks.now }
{
    marks
        .iter()
        .filter(|mark| is_colour(colour, mark.colour))
        .count() as u64
}
