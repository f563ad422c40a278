//! The text of a command's report, from its numbers.
use crate::ended::Seen;
use qos_main::{Note, PcapFault, Stop};
use std::alloc::{AllocError, Global};
use std::fmt::Write;

const INPUT: &str =
    "read sent left unparsed unmatched oversize toolong noslot policed tailfull unwritten";

const PORT: &str = "arrived sent left tailfull unwritten dequeues time";

const METER: &str = "green yellow red";

// What the line is of, and each number behind its name, which single spaces part.
fn put_line(text: &mut String, of: &str, names: &str, numbers: &[u64]) -> Result<(), AllocError> {
    text.push_str(of)?;
    for (name, number) in names.split(' ').zip(numbers) {
        put_number(text, name, *number)?;
    }
    text.push_str("\n")
}

fn put_number(text: &mut String, name: &str, number: u64) -> Result<(), AllocError> {
    write!(text, " {name} {number}")
}

// The number of a capture's fault, and where it is; a read that fails has none.
fn number_of(fault: PcapFault) -> Option<[u64; 2]> {
    match fault {
        PcapFault::BadMagic => Some([1, 0]),
        PcapFault::BadVersion => Some([2, 0]),
        PcapFault::BadLink => Some([3, 0]),
        PcapFault::CutHeader(length) => Some([4, u64::from(length)]),
        PcapFault::CutRecord(at) => Some([5, at]),
        PcapFault::HugeRecord(at, _) => Some([6, at]),
        PcapFault::TooMany(at) => Some([8, at]),
        PcapFault::Read => None,
    }
}

fn put_fault(text: &mut String, fault: PcapFault) -> Result<(), AllocError> {
    match number_of(fault) {
        Some(numbers) => put_line(text, "input 0", "fault at", &numbers),
        None => text.push_str("input 0 read fault\n"),
    }
}

fn put_stop(text: &mut String, stopped: Stop) -> Result<(), AllocError> {
    match stopped {
        Stop::End => Ok(()),
        Stop::NotOpened => text.push_str("input 0 not opened\n"),
        Stop::Fault(fault) => put_fault(text, fault),
    }
}

fn put_port(text: &mut String, seen: &Seen, port: usize, name: &str) -> Result<(), AllocError> {
    if port >= seen.lists[0].min(2) {
        return Ok(());
    }
    put_line(text, name, PORT, &seen.ports[port])?;
    if seen.write_faults[port] {
        text.push_str(name)?;
        text.push_str(" write fault\n")?;
    }
    Ok(())
}

fn put_meter(text: &mut String, seen: &Seen, meter: usize, name: &str) -> Result<(), AllocError> {
    if meter >= seen.lists[3].min(2) {
        return Ok(());
    }
    put_line(text, name, METER, &seen.meters[meter])
}

fn put_run(text: &mut String, seen: &Seen) -> Result<(), AllocError> {
    put_line(text, "input 0", INPUT, &seen.input)?;
    put_stop(text, seen.stopped)?;
    put_port(text, seen, 0, "port 0")?;
    put_port(text, seen, 1, "port 1")?;
    put_meter(text, seen, 0, "meter m")?;
    put_meter(text, seen, 1, "meter n")
}

fn put_told(text: &mut String, seen: &Seen) -> Result<(), AllocError> {
    if seen.status == 7 {
        return text.push_str("memory\n");
    }
    match seen.note {
        Note::ProfileRead => text.push_str("profile read fault\n"),
        _ => put_run(text, seen),
    }
}

/// The report of a command that ended so, where its words are in order, and its profile too, with meters m and n, of
/// which no section is skipped.
pub fn report_of(alloc: Global, seen: &Seen) -> Result<String, AllocError> {
    let mut text = String::new(alloc);
    put_told(&mut text, seen)?;
    writeln!(text, "status {}", seen.status)?;
    Ok(text)
}
