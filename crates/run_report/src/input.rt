//! The lines of inputs.
ghost use Rattle.std.specs.Prelude.{◌≡◌, ◌++◌, OnOk};
ghost use Rattle.run_report.specs.Line.{lines_from};
ghost use Rattle.run_report.specs.Report.{input_line, fault_line, stop_line, input_lines};

use crate::ended::InputEnd;
use crate::text::Text;
use qos_base::NoMemory;
use qos_pcap::{PcapFault, Stop};

pub(crate) fn push_inputs(text: &mut Text, inputs: &[InputEnd]) -> Result<(), NoMemory>
    ensures { OnOk result (text.new ≡ text.old ++ lines_from input_lines 0 inputs.now) }
{
    for (n, input) in inputs.iter().enumerate() {
        push_input(text, n as u64, input)?;
    }
    Ok(())
}

fn push_input(text: &mut Text, n: u64, input: &InputEnd) -> Result<(), NoMemory>
    ensures { OnOk result (text.new ≡ text.old ++ input_lines n input.now) }
{
    push_records(text, n, input)?;
    push_stop(text, n, input.stopped)
}

// Where its records went.
#[tactic(auto, unfolding(crate::specs::Report::input_line))]
fn push_records(text: &mut Text, n: u64, input: &InputEnd) -> Result<(), NoMemory>
    ensures { OnOk result (text.new ≡ text.old ++ input_line n input.now) }
{
    let reasons = &input.reasons;
    text.push_pair("input", n)?;
    text.end_with_pairs(&[
        ("read", input.read),
        ("sent", input.sent),
        ("left", input.left),
        ("unparsed", reasons[0]),
        ("unmatched", reasons[1]),
        ("oversize", reasons[2]),
        ("toolong", reasons[3]),
        ("noslot", reasons[4]),
        ("policed", reasons[5]),
        ("tailfull", reasons[6]),
        ("unwritten", input.unwritten),
    ])
}

// Why it was not read to its end.
fn push_stop(text: &mut Text, n: u64, stopped: Stop) -> Result<(), NoMemory>
    ensures { OnOk result (text.new ≡ text.old ++ stop_line n stopped) }
{
    match stopped {
        Stop::End => Ok(()),
        Stop::NotOpened => text.pair_line("input", n, b" not opened"),
        Stop::Fault(fault) => push_fault(text, n, fault),
    }
}

#[tactic(auto, unfolding(crate::specs::Report::fault_line))]
fn push_fault(text: &mut Text, n: u64, fault: PcapFault) -> Result<(), NoMemory>
    ensures { OnOk result (text.new ≡ text.old ++ fault_line n fault) }
{
    if let PcapFault::Read = fault {
        return text.pair_line("input", n, b" read fault");
    }
    text.push_pair("input", n)?;
    text.end_with_pairs(&[("fault", u64::from(fault.number())), ("at", fault.offset())])
}
