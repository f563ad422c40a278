//! The profile text: the profile that a text says, or its first fault.
//!
//! It stands on `profile_lines` for the lines of a text, on `profile_plan` for what a profile says and on
//! `profile_print` for its canonical text, which it gives out with what reading it says.
#![tactic(auto)]

mod across;
mod build;
mod checking;
mod defaults;
mod fact;
mod fault;
mod forms;
mod head;
mod large;
pub mod laws;
mod limits;
mod list;
mod lookup;
mod matching;
mod missing;
mod name;
mod naming;
mod outline;
mod printing;
mod reading;
mod section;
mod sections;
mod table;
mod value;

pub use checking::read_profile;
pub use fault::{FaultKind, ProfileError, ProfileFault};
pub use limits::MAX_TEXT;
pub use printing::profile_text;
pub use profile_plan::{
    CLASSES, CodeChoice, MeterKind, MeterPlan, MeterRate, PipeChoice, PipeKind, PoolPlan, PortPlan,
    Prefix, Profile, Proto, Rates, RulePlan, Shaping, Span, SubportPlan, VlanTest, Whole,
};
