//! Tests of whole commands over files in memory, with their reports, by the public calls of `qos_main`.
//!
//! They stand apart so that `qos_main` is proved once. The expected numbers are worked by hand, from the rules of
//! pacing, of the token bucket, of the meters and of the capture format, or by the rule that a test names.
#![tactic(auto)]

#[cfg(test)]
mod check;
#[cfg(test)]
mod cuts;
#[cfg(test)]
mod input;
#[cfg(test)]
mod many;
#[cfg(test)]
mod metered;
#[cfg(test)]
mod ports;
#[cfg(test)]
mod profiles;
#[cfg(test)]
mod refused;
#[cfg(test)]
mod report;
#[cfg(test)]
mod reports;
#[cfg(test)]
mod rows;
