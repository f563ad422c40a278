//! The journal of a port: what its scheduler is driven by, when it is dequeued, and what comes of it. It
//! stands on `port_sched` for the scheduler and on `profile_plan` for the numbers of a port.
//!
//! It promises that the scheduler stands where the schedule of its journal stands, that each packet which arrived was
//! sent, waits or was turned away, and by its laws that its calls one after another make the paced journal of the
//! packets that arrive.
#![tactic(auto)]

mod ended;
mod entry;
pub mod laws;
mod limits;
mod pace;
mod pacer;
mod port_run;
mod tally;

pub use ended::{PortCounts, PortEnd};
pub use entry::Entry;
pub use limits::MAX_ARRIVALS;
pub use pace::Pace;
pub use pacer::Pacer;
pub use port_run::PortRun;
pub use tally::Tally;
