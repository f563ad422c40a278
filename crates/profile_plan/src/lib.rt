//! What a profile says: the pool of slots, the ports with their subports and pipes, the meters and the
//! rules, after DPDK's `profile.cfg`. It stands on `qos_base` and `code_table`.
//!
//! It promises that every number of a [`Profile`] is within its limits and that every profile, port,
//! subport, pipe and meter that a profile names is there, so that whoever holds one need not test it;
//! and the exact whole-period numbers of a shaping at a line.
#![tactic(auto)]

mod limits;
mod meter;
mod port;
mod profile;
mod rule;
mod shaping;

pub use limits::{
    MAX_METERS, MAX_MTU, MAX_PIPES, MAX_POOL_BYTES, MAX_QUEUE, MAX_QUEUED, MAX_SLOT_BYTES,
    MAX_SLOTS, MAX_SUBPORT_PIPES,
};
pub use meter::{MeterKind, MeterPlan, MeterRate};
pub use port::{PoolPlan, PortPlan, Span, SubportPlan};
pub use profile::Profile;
pub use rule::{CodeChoice, PipeChoice, Prefix, Proto, RulePlan, VlanTest};
pub use shaping::{CLASSES, PipeKind, Rates, Shaping, Whole};
