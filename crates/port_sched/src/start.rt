//! How a port of a profile starts.
ghost use Rattle.std.specs.Prelude.{◌≡◌, ◌≤◌, ◌<◌, length, map, filter_map, All, IfOk, vec_len, Some};
ghost use Rattle.qos_base.specs.Time.{IsLineRate};
ghost use Rattle.profile_plan.specs.Limits.{IsPipeKind};
ghost use Rattle.profile_plan.specs.Profile.{IsPort, IsSubport};
ghost use Rattle.port_sched.specs.Pipe.{pipe_start, queue_sizes};
ghost use Rattle.port_sched.specs.Start.{kinds_of, subport_start, port_start};
ghost use Rattle.port_sched.specs.Books.{pipe_up_to, subport_up_to, IsPipeBooks, IsSubportBooks};

use crate::active::ActivePipes;
use crate::level::{BEST_EFFORT, LevelBooks};
use crate::pipe::PipeBooks;
use crate::port::PortSched;
use crate::shares::Shares;
use crate::subport::SubportBooks;
use profile_plan::{CLASSES, PipeKind, PortPlan, Profile, SubportPlan};
use qos_base::{NoMemory, Parcel};
use queue_store::QueueStore;
use std::alloc::Global;
use wrr_pick::Wrr;

impl<T: Parcel> PortSched<T> {
    /// The port of this number of a profile, at its start: time 0, every bucket half full, every class with its whole
    /// credits, every queue empty. The profile has the port.
    ///
    /// All memory is taken here, and no later call takes any.
    pub fn new(alloc: Global, p: &Profile, port: u32) -> Result<PortSched<T>, NoMemory>
        requires { port < length p.now.ports }
        ensures { IfOk result (λ s. port_start p.now port ≡ Some s) }
    {
        let plan = p.port(port as usize);
        let subports = subports_at(alloc, p, plan)?;
        Ok(PortSched {
            overhead: plan.overhead,
            mtu: plan.mtu,
            time: 0,
            ticked: 0,
            cursor: 0,
            subports,
        })
    }
}

fn subports_at<T: Parcel>(
    alloc: Global,
    p: &Profile,
    port: &PortPlan,
) -> Result<Vec<SubportBooks<T>>, NoMemory>
    requires { IsPort p.now.subport_kinds p.now.pipe_kinds port.now }
    ensures start { IfOk result (λ v. map (subport_up_to 0) v.items ≡ filter_map (subport_start p.now port.now) port.now.subports) }
    ensures sound { IfOk result (λ v. All (IsSubportBooks T.packet 0) v.items) }
    ensures count { IfOk result (λ v. vec_len v ≡ length port.now.subports) }
{
    let plans = port.subports.as_slice();
    let mut subports = Vec::with_capacity(alloc, plans.len())?;
    for plan in plans {
        subports.push(subport_at(alloc, p, port, plan)?)?;
    }
    Ok(subports)
}

fn subport_at<T: Parcel>(
    alloc: Global,
    p: &Profile,
    port: &PortPlan,
    s: &SubportPlan,
) -> Result<SubportBooks<T>, NoMemory>
    requires port { IsPort p.now.subport_kinds p.now.pipe_kinds port.now }
    requires subport { IsSubport p.now.subport_kinds p.now.pipe_kinds s.now }
    ensures start { IfOk result (λ b. subport_start p.now port.now s.now ≡ Some (subport_up_to 0 b)) }
    ensures sound { IfOk result (λ b. IsSubportBooks T.packet 0 b) }
{
    let pipes = pipes_at(alloc, p, port.line, s)?;
    let plan = p.subport_kind(s.kind).whole(port.line);
    let shares = Shares::of(p, port.line, s, &plan);
    let mtu_cost = u64::from(port.mtu + port.overhead);
    Ok(SubportBooks {
        level: LevelBooks::new(&plan),
        oversub: s.oversub,
        oversubscribed: shares.oversubscribe(&plan),
        watermark: shares.watermark(mtu_cost, &plan),
        period: 0,
        cursor: 0,
        active: ActivePipes::none(alloc, pipes.len())?,
        pipes,
    })
}

fn pipes_at<T: Parcel>(
    alloc: Global,
    p: &Profile,
    line: u64,
    s: &SubportPlan,
) -> Result<Vec<PipeBooks<T>>, NoMemory>
    requires line { IsLineRate line }
    requires subport { IsSubport p.now.subport_kinds p.now.pipe_kinds s.now }
    ensures start { IfOk result (λ v. map (pipe_up_to 0) v.items ≡ map (pipe_start line s.now.sizes) (kinds_of p.now s.now)) }
    ensures sound { IfOk result (λ v. All (IsPipeBooks T.packet 0) v.items) }
    ensures count { IfOk result (λ v. vec_len v ≡ length s.now.pipes) }
{
    let numbers = s.pipes.as_slice();
    let mut pipes = Vec::with_capacity(alloc, numbers.len())?;
    for number in numbers {
        pipes.push(pipe_at(alloc, line, &s.sizes, p.pipe_kind(*number))?)?;
    }
    Ok(pipes)
}

// An empty pipe of a kind, on a line of this rate.
fn pipe_at<T: Parcel>(
    alloc: Global,
    line: u64,
    sizes: &[u32; CLASSES],
    kind: &PipeKind,
) -> Result<PipeBooks<T>, NoMemory>
    requires line { IsLineRate line }
    requires kind { IsPipeKind kind.now }
    ensures start { IfOk result (λ p. pipe_up_to 0 p ≡ pipe_start line sizes.now kind.now) }
    ensures sound { IfOk result (λ p. IsPipeBooks T.packet 0 p) }
{
    Ok(PipeBooks {
        level: LevelBooks::new(&kind.shaping.whole(line)),
        wrr: Wrr::new(kind.weights),
        weight: kind.ov_weight,
        share: 0,
        seen: None,
        queues: QueueStore::new(alloc, &queue_sizes_of(sizes))?,
    })
}

// The sizes of a pipe's queues: the last size is that of each best effort queue.
fn queue_sizes_of(sizes: &[u32; CLASSES]) -> [u32; 16]
    ensures exact { result ≡ queue_sizes sizes.now }
    ensures count { length result ≡ 16 }
{
    let mut all = [sizes[BEST_EFFORT]; 16];
    for class in 0..BEST_EFFORT {
        all[class] = sizes[class];
    }
    all
}
