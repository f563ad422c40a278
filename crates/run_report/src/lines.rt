//! The text of a report.
ghost use Rattle.std.specs.Prelude.{◌≡◌, ◌++◌, IfOk, OnOk};
ghost use Rattle.std.specs.List.{flat_map};
ghost use Rattle.run_report.specs.Report.{skipped_line, skipped_in, run_lines, kind_number, profile_fault_line, noted_lines, told_lines, status_line, report_of};

use crate::ended::{Ended, Note};
use crate::input::push_inputs;
use crate::meter::push_meters;
use crate::port::push_ports;
use crate::status::Status;
use crate::text::Text;
use profile_plan::Profile;
use qos_base::NoMemory;
use qos_profile::{FaultKind, ProfileFault};
use std::alloc::Global;

/// The text of the report of a command that ended so.
#[tactic(auto, unfolding(crate::specs::Report::report_of))]
pub(crate) fn report_text(
    alloc: Global,
    p: &Option<Profile>,
    status: Status,
    ended: &Ended,
) -> Result<Vec<u8>, NoMemory>
    ensures { IfOk result (λ text. text.items ≡ report_of status p.now ended.now) }
{
    let mut text = Text::new(alloc);
    push_told(&mut text, p, status, ended)?;
    push_status(&mut text, status)?;
    Ok(text.into_bytes())
}

// The lines before the last.
#[tactic(auto, unfolding(crate::specs::Report::told_lines))]
fn push_told(
    text: &mut Text,
    p: &Option<Profile>,
    status: Status,
    ended: &Ended,
) -> Result<(), NoMemory>
    ensures { OnOk result (text.new ≡ text.old ++ told_lines status p.now ended.now) }
{
    match status {
        Status::Usage => text.push(b"usage\n"),
        Status::Memory => text.push(b"memory\n"),
        _ => push_noted(text, p, ended),
    }
}

fn push_noted(text: &mut Text, p: &Option<Profile>, ended: &Ended) -> Result<(), NoMemory>
    ensures { OnOk result (text.new ≡ text.old ++ noted_lines p.now ended.now ended.now.note) }
{
    match ended.note {
        Note::Nothing => push_run(text, p, ended),
        Note::ProfileRead => text.push(b"profile read fault\n"),
        Note::Profile(fault) => push_profile_fault(text, fault),
    }
}

#[tactic(auto, unfolding(crate::specs::Report::profile_fault_line))]
fn push_profile_fault(text: &mut Text, fault: ProfileFault) -> Result<(), NoMemory>
    ensures { OnOk result (text.new ≡ text.old ++ profile_fault_line fault) }
{
    text.push_pair("profile line", u64::from(fault.line))?;
    text.end_with_pairs(&[("fault", kind_number(fault.kind))])
}

// The number of a profile's fault.
#[tactic(auto, unfolding(crate::specs::Report::kind_number))]
fn kind_number(kind: FaultKind) -> u64
    ensures { result ≡ kind_number kind }
{
    match kind {
        FaultKind::NotText => 1,
        FaultKind::BadLine => 2,
        FaultKind::UnknownKey => 3,
        FaultKind::BadNumber => 4,
        FaultKind::OutOfRange => 5,
        FaultKind::Twice => 6,
        FaultKind::Missing => 7,
        FaultKind::NoSuchName => 8,
        FaultKind::TooLarge => 9,
    }
}

// What a run over a profile came to.
#[tactic(auto, unfolding(crate::specs::Report::run_lines))]
fn push_run(text: &mut Text, p: &Option<Profile>, ended: &Ended) -> Result<(), NoMemory>
    ensures { OnOk result (text.new ≡ text.old ++ run_lines p.now ended.now) }
{
    push_skipped(text, skipped_in(p))?;
    push_inputs(text, ended.inputs.as_slice())?;
    push_ports(text, ended.write_fault.as_slice(), ended.ports.as_slice())?;
    push_meters(text, p, ended.meters.as_slice())
}

fn skipped_in(p: &Option<Profile>) -> &[u32]
    ensures { result.now ≡ skipped_in p.now }
{
    match p {
        Some(p) => p.skipped.as_slice(),
        None => &[],
    }
}

fn push_skipped(text: &mut Text, lines: &[u32]) -> Result<(), NoMemory>
    ensures { OnOk result (text.new ≡ text.old ++ flat_map skipped_line lines.now) }
{
    for line in lines {
        text.pair_line("note line", u64::from(*line), b" skipped")?;
    }
    Ok(())
}

// The last line.
fn push_status(text: &mut Text, status: Status) -> Result<(), NoMemory>
    ensures { OnOk result (text.new ≡ text.old ++ status_line status) }
{
    text.push_pair("status", u64::from(status.number()))?;
    text.push(b"\n")
}
