//! Tests of a port's scheduler, of the parts that it stands on, and of how it is paced.
//!
//! They stand apart so that each of these crates is proved once. The expected numbers are worked by hand, from the rules of
//! the scheduler and of pacing; `docs/DEFINITIONS.md` has the working of those that its last part names.
#![tactic(auto)]

#[cfg(test)]
mod bitmaps;
#[cfg(test)]
mod check;
#[cfg(test)]
mod credits;
#[cfg(test)]
mod paced;
#[cfg(test)]
mod pacer;
#[cfg(test)]
mod picks;
#[cfg(test)]
mod play;
#[cfg(test)]
mod profiles;
#[cfg(test)]
mod queues;
#[cfg(test)]
mod rows;
