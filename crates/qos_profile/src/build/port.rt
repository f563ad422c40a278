//! The ports, by number, and their subports.
ghost use Rattle.std.specs.Prelude.{◌≡◌, IfOk};
ghost use Rattle.qos_profile.specs.Lookups.{number_at, facts_at};
ghost use Rattle.qos_profile.specs.Fits.{FitSubports, FitsPort, FitPorts};
ghost use Rattle.qos_profile.specs.Planned.{drain_of, subports_of, port_of, port_count, ports_of};

use crate::build::subport::subport;
use crate::defaults::{BURST, DRAIN_MS, FRAME_OVERHEAD, MTU, QUANTUM};
use crate::fact::Fact;
use crate::head::Head;
use crate::list::add;
use crate::lookup::{facts_at, has, number_at};
use crate::missing::ports_to;
use crate::section::Section;
use profile_plan::{PortPlan, Span, SubportPlan};
use qos_base::{NoMemory, Sequence};
use std::alloc::Global;

#[tactic(auto, unfolding(crate::specs::Planned::drain_of))]
fn drain(facts: &[Fact]) -> Span
    ensures { result ≡ drain_of facts.now }
{
    if has(facts, 6, 0) {
        Span::Bytes(number_at(facts, 6, 0, 0))
    } else {
        Span::Ms(number_at(facts, 6, 2, DRAIN_MS))
    }
}

fn subports(
    alloc: Global,
    sections: &[Section],
    port: u64,
    count: u64,
) -> Result<Sequence<SubportPlan>, NoMemory>
    requires { FitSubports sections.now port count }
    ensures { IfOk result (λ subports. subports ≡ subports_of sections.now port count) }
{
    let mut subports = Vec::new(alloc);
    for number in 0..count {
        let next = subport(alloc, facts_at(sections, &Head::Subport(port, number)))?;
        add(&mut subports, next)?;
    }
    Ok(Sequence::of(subports))
}

#[tactic(auto, unfolding(crate::specs::Planned::port_of))]
fn port(
    alloc: Global,
    sections: &[Section],
    number: u64,
    facts: &[Fact],
) -> Result<PortPlan, NoMemory>
    requires numbers { FitsPort (port_of sections.now number facts.now) }
    requires subports { FitSubports sections.now number (number_at facts.now 1 0 0) }
    ensures { IfOk result (λ port. port ≡ port_of sections.now number facts.now) }
{
    let subports = subports(alloc, sections, number, number_at(facts, 1, 0, 0))?;
    Ok(PortPlan {
        line: number_at(facts, 0, 0, 0),
        overhead: number_at(facts, 2, 0, FRAME_OVERHEAD) as u32,
        mtu: number_at(facts, 3, 0, MTU) as u32,
        burst: number_at(facts, 4, 0, BURST) as u32,
        quantum: number_at(facts, 5, 0, QUANTUM),
        drain: drain(facts),
        subports,
    })
}

// One more than the greatest number of a port.
fn port_count(sections: &[Section]) -> u64
    ensures { result ≡ port_count sections.now }
{
    let mut count = 0;
    for section in sections {
        count = ports_to(&section.head).max(count);
    }
    count
}

/// The ports by number.
pub(crate) fn ports(alloc: Global, sections: &[Section]) -> Result<Sequence<PortPlan>, NoMemory>
    requires { FitPorts sections.now }
    ensures { IfOk result (λ ports. ports ≡ ports_of sections.now) }
{
    let mut ports = Vec::new(alloc);
    for number in 0..port_count(sections) {
        let facts = facts_at(sections, &Head::Port(number));
        let next = port(alloc, sections, number, facts)?;
        add(&mut ports, next)?;
    }
    Ok(Sequence::of(ports))
}
