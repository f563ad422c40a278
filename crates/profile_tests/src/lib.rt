//! Tests of a profile's text, by the public calls of `profile_lines`, `profile_plan`, `qos_profile` and `profile_file`.
//!
//! They stand apart so that each of these crates is proved once. The expected profiles and faults are worked by hand, from
//! the tables of the profile's sections and keys.
#![tactic(auto)]

#[cfg(test)]
mod check;
#[cfg(test)]
mod faults;
#[cfg(test)]
mod files;
#[cfg(test)]
mod lines;
#[cfg(test)]
mod parts;
#[cfg(test)]
mod rates;
#[cfg(test)]
mod shelf;
#[cfg(test)]
mod texts;
#[cfg(test)]
mod totals;
#[cfg(test)]
mod writing;
