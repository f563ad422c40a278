//! Reading a capture to its stop, and what is seen of it.
ghost use Rattle.std.specs.Prelude.{◌≡◌, Some, None};
ghost use Rattle.qos_pcap.specs.Given.{untaken};

use crate::capture_bytes::{STAMP, changed};
use crate::parts::Parts;
use qos_io::Source;
use qos_pcap::{Capture, Head, PcapFault, Stop, open_capture};
use std::process::Abort;

/// What was read of a capture.
#[derive(Clone, Copy, Debug, PartialEq, Eq)]
pub(crate) struct Seen {
    /// How many heads were given.
    pub(crate) heads: u32,
    /// How many of them had a whole body.
    pub(crate) records: u32,
    /// The stamp and the length on the line of the first head; 0 where there was none.
    pub(crate) stamp: u64,
    pub(crate) wire: u32,
    pub(crate) stop: Stop,
    /// After the stop there was no head more.
    pub(crate) stays: bool,
}

/// So many heads and whole records, of which the first is as in the capture of three records, and this stop.
pub(crate) fn expected(heads: u32, records: u32, stop: Stop) -> Seen {
    let first = if heads > 0 { (STAMP, 60) } else { (0, 0) };
    Seen {
        heads,
        records,
        stamp: first.0,
        wire: first.1,
        stop,
        stays: true,
    }
}

/// Reads a capture to its stop. Each second body is skipped.
pub(crate) fn read<S: Source>(src: S, limit: u32) -> Seen {
    let mut seen = Seen {
        heads: 0,
        records: 0,
        stamp: 0,
        wire: 0,
        stop: Stop::NotOpened,
        stays: true,
    };
    match open_capture(src, limit) {
        Ok(mut capture) => read_records(&mut capture, &mut seen),
        Err(fault) => seen.stop = Stop::Fault(fault),
    }
    seen
}

/// Reads the capture of three records that was changed and cut, in small parts.
pub(crate) fn read_changed<R: Abort + AllocGlobal>(
    rt: &R,
    at: u8,
    with: [u8; 4],
    len: usize,
    limit: u32,
) -> Seen {
    let bytes = changed(rt, at, with, len);
    read(Parts { bytes, at: 0 }, limit)
}

fn read_records<S: Source>(capture: &mut Capture<S>, seen: &mut Seen)
    requires { untaken capture.old ≡ None }
{
    for _ in 0..100u32 {
        match read_record(capture, seen) {
            None => {}
            Some(stop) => {
                seen.stop = stop;
                seen.stays = capture.next_head() == Ok(None);
                return;
            }
        }
    }
}

/// Reads a record, or answers why there is none.
fn read_record<S: Source>(capture: &mut Capture<S>, seen: &mut Seen) -> Option<Stop>
    requires { untaken capture.old ≡ None }
    ensures { untaken capture.new ≡ None }
{
    let head = match capture.next_head() {
        Ok(Some(head)) => head,
        Ok(None) => return Some(Stop::End),
        Err(fault) => return Some(Stop::Fault(fault)),
    };
    if seen.heads == 0 {
        seen.stamp = head.stamp;
        seen.wire = head.wire;
    }
    seen.heads = seen.heads.saturating_add(1);
    match pass(capture, head) {
        Ok(()) => {
            seen.records = seen.records.saturating_add(1);
            None
        }
        Err(fault) => Some(Stop::Fault(fault)),
    }
}

/// Takes the body of each first of two records of 60 bytes, and passes over all others.
fn pass<S: Source>(capture: &mut Capture<S>, head: Head) -> Result<(), PcapFault>
    requires { untaken capture.old ≡ Some head }
    ensures { untaken capture.new ≡ None }
{
    let mut body = [0u8; 60];
    if head.cap == 60 && head.index % 2 == 0 {
        capture.body_into(&mut body)
    } else {
        capture.skip_body()
    }
}
