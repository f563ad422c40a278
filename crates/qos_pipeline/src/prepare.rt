//! The memory that a run needs before an output is created.
ghost use Rattle.std.specs.Prelude.{◌≡◌, ◌≤◌, ℕ, List, length, map, string_bytes, IfOk};
ghost use Rattle.port_egress.specs.Egress.{IsUnbegun};
ghost use Rattle.qos_pipeline.specs.Ports.{AtPorts};
ghost use Rattle.qos_pipeline.specs.Prepared.{HasRoom, IsPrepared};

use port_egress::Egress;
use profile_plan::Profile;
use qos_base::NoMemory;
use qos_io::{PutFault, Sink};
use qos_words::output_names;
use run_journal::PortEnd;
use std::alloc::Global;

// Lists with room for a place for each port.
#[derive(Drop)]
pub(crate) struct Rooms<K: Sink> {
    pub(crate) sinks: Vec<Option<K>>,
    pub(crate) ends: Vec<PortEnd>,
    pub(crate) faults: Vec<Option<PutFault>>,
    pub(crate) failed: Vec<bool>,
    pub(crate) write_fault: Vec<bool>,
}

// The egresses of all ports, the names of their outputs, and room for what they come to.
#[derive(Drop)]
pub(crate) struct Prepared<'p, K: Sink> {
    pub(crate) egresses: Vec<Egress<'p, K>>,
    pub(crate) names: Vec<String>,
    pub(crate) outs: Vec<Option<K>>,
    pub(crate) rooms: Rooms<K>,
}

pub(crate) fn prepare<'p, K: Sink>(
    alloc: Global,
    p: &'p Profile,
    prefix: &str,
    origin: u64,
) -> Result<Prepared<'p, K>, NoMemory>
    ensures { IfOk result (IsPrepared p.now prefix.now origin) }
{
    p.limits();
    let count = p.ports.as_slice().len();
    Ok(Prepared {
        egresses: open_ports(alloc, p, origin)?,
        names: output_names(alloc, prefix, count)?,
        outs: Vec::with_capacity(alloc, count)?,
        rooms: reserve(alloc, count)?,
    })
}

// The egresses of all ports.
fn open_ports<'p, K: Sink>(
    alloc: Global,
    p: &'p Profile,
    origin: u64,
) -> Result<Vec<Egress<'p, K>>, NoMemory>
    ensures { IfOk result (λ egresses. AtPorts p.now origin (λ n s e. IsUnbegun s e) egresses.items) }
{
    p.limits();
    let count = p.ports.as_slice().len();
    let mut egresses = Vec::with_capacity(alloc, count)?;
    for port in 0..count as u32 {
        egresses.push_reserved(Egress::new(alloc, p, port, origin)?);
    }
    Ok(egresses)
}

fn reserve<K: Sink>(alloc: Global, count: usize) -> Result<Rooms<K>, NoMemory>
    ensures { IfOk result (HasRoom count) }
{
    Ok(Rooms {
        sinks: Vec::with_capacity(alloc, count)?,
        ends: Vec::with_capacity(alloc, count)?,
        faults: Vec::with_capacity(alloc, count)?,
        failed: Vec::with_capacity(alloc, count)?,
        write_fault: Vec::with_capacity(alloc, count)?,
    })
}
