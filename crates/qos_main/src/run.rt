//! The run of a command whose profile is loaded.
ghost use Rattle.std.specs.Prelude.{◌≡◌, ◌<◌, ◌≤◌, ◌^◌, IfOk, OnErr};
ghost use Rattle.std.specs.List.{sum_by};
ghost use Rattle.qos_main.specs.Ended.{IsEndOf, ended_at, sums_over};
ghost use Rattle.qos_main.specs.Run.{HasRefused, IsRun};

use pkt_receive::{Receiver, open_input};
use profile_plan::Profile;
use qos_base::{NoMemory, Sequence};
use qos_io::{Shelf, Source};
use qos_pcap::laws::reads_one_way;
use qos_pipeline::{RunEnd, run_outputs};
use qos_words::RunWords;
use run_journal::PortEnd;
use run_report::{Ended, InputEnd, Note, Status};
use std::alloc::Global;
use std::sync::Wait;

// The sums of the numbers of all ports.
#[derive(Clone, Copy)]
struct Sums {
    sent: u64,
    left: u64,
    tailfull: u64,
    unwritten: u64,
}

fn sums_of(ports: &[PortEnd]) -> Sums
    requires { sum_by ended_at ports.now < 2 ^ 64 }
    ensures { result ≡ sums_over ports.now }
{
    let mut sums = Sums {
        sent: 0,
        left: 0,
        tailfull: 0,
        unwritten: 0,
    };
    for port in ports {
        sums.sent += port.counts.sent;
        sums.left += port.counts.left;
        sums.tailfull += port.counts.tailfull;
        sums.unwritten += port.counts.unwritten;
    }
    sums
}

// The numbers of an input whose packets went through these ports.
fn input_end<S: Source>(alloc: Global, input: &Receiver<S>, ports: &[PortEnd]) -> InputEnd
    requires { sum_by ended_at ports.now ≤ input.now.read }
    ensures { IsEndOf input.now (sums_over ports.now) result }
{
    let (read, losses) = (input.read, input.losses);
    let sums = sums_of(ports);
    InputEnd {
        read,
        sent: sums.sent,
        left: sums.left,
        reasons: [
            losses.unparsed,
            losses.unmatched,
            losses.oversize,
            losses.too_long,
            0,
            losses.policed,
            sums.tailfull,
        ],
        unwritten: sums.unwritten,
        unslotted: Sequence::of(Vec::new(alloc)),
        stopped: input.stopped,
    }
}

/// Runs a command over its profile: the capture is opened, and its packets go one after another through the ports of the
/// profile and into the outputs.
///
/// `NoMemory`: memory was refused, and the run is over. The call may wait.
pub fn run<R: Wait, H: Shelf>(
    rt: &R,
    alloc: Global,
    command: &RunWords<'_>,
    p: &Profile,
    shelf: &mut H,
) -> Result<(Ended, Status), NoMemory>
    ensures ran { IfOk result (λ r. IsRun H.Shelf command.now p.now shelf.old shelf.new r.1 r.0) }
    ensures refused { OnErr result (HasRefused H.Shelf command.now p.now shelf.old shelf.new) }
{
    reads_one_way();
    let mut input = open_input(shelf, command.capture, 0)?;
    let mut inputs = Vec::with_capacity(alloc, 1)?;
    let RunEnd {
        ports,
        meters,
        write_fault,
    } = run_outputs(rt, alloc, shelf, p, command.prefix, &mut input)?;
    let status = Status::of_run(input.stopped, &write_fault);
    inputs.push_reserved(input_end(alloc, &input, &ports));
    let ended = Ended {
        status: status.number(),
        ports: Sequence::of(ports),
        meters: Sequence::of(meters),
        inputs: Sequence::of(inputs),
        write_fault: Sequence::of(write_fault),
        note: Note::Nothing,
    };
    Ok((ended, status))
}
