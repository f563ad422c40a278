//! The lines of ports.
ghost use Rattle.std.specs.Prelude.{◌≡◌, ◌++◌, false, slice_index_or, OnOk};
ghost use Rattle.run_report.specs.Line.{lines_from};
ghost use Rattle.run_report.specs.Report.{port_line, port_fault_line, port_lines};

use crate::text::Text;
use qos_base::NoMemory;
use run_journal::PortEnd;

pub(crate) fn push_ports(
    text: &mut Text,
    write_faults: &[bool],
    ports: &[PortEnd],
) -> Result<(), NoMemory>
    ensures { OnOk result (text.new ≡ text.old ++ lines_from (port_lines write_faults.now) 0 ports.now) }
{
    for (n, port) in ports.iter().enumerate() {
        push_port(text, write_faults, n, port)?;
    }
    Ok(())
}

fn push_port(
    text: &mut Text,
    write_faults: &[bool],
    n: usize,
    port: &PortEnd,
) -> Result<(), NoMemory>
    ensures { OnOk result (text.new ≡ text.old ++ port_lines write_faults.now n port.now) }
{
    push_numbers(text, n as u64, port)?;
    push_write_fault(text, n as u64, is_true(write_faults, n))
}

#[tactic(auto, unfolding(crate::specs::Report::port_line))]
fn push_numbers(text: &mut Text, n: u64, port: &PortEnd) -> Result<(), NoMemory>
    ensures { OnOk result (text.new ≡ text.old ++ port_line n port.now) }
{
    let counts = &port.counts;
    text.push_pair("port", n)?;
    text.end_with_pairs(&[
        ("arrived", counts.arrived),
        ("sent", counts.sent),
        ("left", counts.left),
        ("tailfull", counts.tailfull),
        ("unwritten", counts.unwritten),
        ("dequeues", counts.dequeues),
        ("time", counts.time),
    ])
}

// Whether there is such a place and it is true.
fn is_true(places: &[bool], n: usize) -> bool
    ensures { result ≡ slice_index_or places.now n false }
{
    match places.get(n) {
        Some(place) => *place,
        None => false,
    }
}

fn push_write_fault(text: &mut Text, n: u64, failed: bool) -> Result<(), NoMemory>
    ensures { OnOk result (text.new ≡ text.old ++ port_fault_line n failed) }
{
    if failed {
        text.pair_line("port", n, b" write fault")
    } else {
        Ok(())
    }
}
