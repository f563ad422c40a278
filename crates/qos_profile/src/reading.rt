//! A text to its sections, line by line.
ghost use Rattle.std.specs.Prelude.{◌≡◌, ◌≤◌, [], map, length, Ok, Err, OnOk, IfOk, IfErr};
ghost use Rattle.qos_profile.specs.declared.limits.TheConstants.{MAX_TEXT};
ghost use Rattle.profile_lines.specs.Lines.{line_of, Head as HeadLine, Entry, Neither};
ghost use Rattle.profile_lines.specs.View.{line_view};
ghost use Rattle.qos_profile.specs.Sections.{fault_in, fault_of_neither, last_of};
ghost use Rattle.qos_profile.specs.Steps.{Takes, ReadsSections, lines_of, error_of};

use crate::fact::read_fact;
use crate::fault::{FaultKind, ProfileError, ProfileFault};
use crate::head::{is_red, read_head};
use crate::outline::Outline;
use profile_lines::{Line, read_line, split_line};
use qos_base::NoMemory;
use std::alloc::Global;

/// Why a line was not taken.
#[derive(Clone, Copy)]
pub(crate) enum Stop {
    Fault(FaultKind),
    NoMemory,
}

fn take_head(
    alloc: Global,
    sections: &mut Outline,
    number: u32,
    words: &[&[u8]],
) -> Result<(), Stop>
    ensures { Takes sections.old sections.new number (HeadLine (map (λ w. w.now) words.now)) result }
{
    match read_head(words) {
        Ok(head) => match sections.begin(alloc, number, head) {
            Ok(true) => Ok(()),
            Ok(false) => Err(Stop::Fault(FaultKind::Twice)),
            Err(NoMemory) => Err(Stop::NoMemory),
        },
        Err(fault) => Err(Stop::Fault(fault)),
    }
}

fn take_entry(
    sections: &mut Outline,
    number: u32,
    words: &[&[u8]],
    value: &[&[u8]],
) -> Result<(), Stop>
    ensures { Takes sections.old sections.new number (Entry (map (λ w. w.now) words.now) (map (λ w. w.now) value.now)) result }
{
    let Some(section) = sections.last() else {
        return Err(Stop::Fault(FaultKind::BadLine));
    };
    if is_red(&section.head) {
        return Ok(());
    }
    match read_fact(&section.head, &section.facts, number, words, value) {
        Ok(fact) => match sections.add_fact(fact) {
            Ok(()) => Ok(()),
            Err(NoMemory) => Err(Stop::NoMemory),
        },
        Err(fault) => Err(Stop::Fault(fault)),
    }
}

fn take_neither(sections: &Outline) -> Option<FaultKind>
    ensures { result ≡ fault_of_neither (last_of sections.now) }
{
    let Some(section) = sections.last() else {
        return Some(FaultKind::BadLine);
    };
    if is_red(&section.head) {
        None
    } else {
        Some(FaultKind::BadLine)
    }
}

fn take_line(alloc: Global, sections: &mut Outline, number: u32, line: &[u8]) -> Result<(), Stop>
    ensures { Takes sections.old sections.new number (line_of line.now) result }
{
    match read_line(alloc, line) {
        Ok(read) => {
            let taken = take_read(alloc, sections, number, &read);
            drop(read);
            taken
        }
        Err(NoMemory) => Err(Stop::NoMemory),
    }
}

fn take_read(alloc: Global, sections: &mut Outline, number: u32, line: &Line) -> Result<(), Stop>
    ensures { Takes sections.old sections.new number (line_view line.now) result }
{
    match line {
        Line::NotText => Err(Stop::Fault(FaultKind::NotText)),
        Line::Blank => Ok(()),
        Line::Head(words) => take_head(alloc, sections, number, words.as_slice()),
        Line::Entry(words, value) => {
            take_entry(sections, number, words.as_slice(), value.as_slice())
        }
        Line::Neither => match take_neither(sections) {
            Some(fault) => Err(Stop::Fault(fault)),
            None => Ok(()),
        },
    }
}

fn error_of(line: u32, stop: Stop) -> ProfileError
    ensures { result ≡ error_of line stop }
{
    match stop {
        Stop::Fault(kind) => ProfileError::Fault(ProfileFault {
            line,
            kind,
            total: 0,
        }),
        Stop::NoMemory => ProfileError::NoMemory,
    }
}

/// The sections of a text of at most [`MAX_TEXT`](crate::MAX_TEXT) bytes, or its first fault of a line.
pub(crate) fn read_sections(alloc: Global, text: &[u8]) -> Result<Outline, ProfileError>
    requires { length text.now ≤ MAX_TEXT }
    ensures sections { ReadsSections (lines_of text.now) result }
    ensures few { IfOk result (λ sections. length sections ≤ MAX_TEXT) }
{
    let mut sections = Outline::new(alloc);
    match take_lines(alloc, &mut sections, text) {
        Ok(()) => Ok(sections),
        Err(error) => {
            drop(sections);
            Err(error)
        }
    }
}

// Takes line after line, up to the first that is not taken.
fn take_lines(alloc: Global, sections: &mut Outline, text: &[u8]) -> Result<(), ProfileError>
    requires short { length text.now ≤ MAX_TEXT }
    requires none { sections.old ≡ [] }
    ensures taken { OnOk result (ReadsSections (lines_of text.now) (Ok sections.new)) }
    ensures few { OnOk result (length sections.new ≤ MAX_TEXT) }
    ensures fault { IfErr result (λ error. ReadsSections (lines_of text.now) (Err error)) }
{
    let mut rest = text;
    let mut number: u32 = 0;
    while !rest.is_empty() {
        let (line, after) = split_line(rest);
        number += 1;
        match take_line(alloc, sections, number, line) {
            Ok(()) => {}
            Err(stop) => return Err(error_of(number, stop)),
        }
        rest = after;
    }
    Ok(())
}
