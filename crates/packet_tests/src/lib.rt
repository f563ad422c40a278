//! Tests of the way of a packet: frames, the rules that give them places, meters, slots, receive and egress.
//!
//! They stand apart so that the crates on this way are proved once. Profiles are read from text, and the expected values
//! are worked by hand, from the standards and from the rules of receive and of pacing.
#![tactic(auto)]

#[cfg(test)]
mod capture;
#[cfg(test)]
mod check;
#[cfg(test)]
mod egress;
#[cfg(test)]
mod frames;
#[cfg(test)]
mod laws;
#[cfg(test)]
mod meters;
#[cfg(test)]
mod profiles;
#[cfg(test)]
mod receive;
#[cfg(test)]
mod rules;
#[cfg(test)]
mod slots;
#[cfg(test)]
mod stamps;
