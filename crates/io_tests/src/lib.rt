//! Tests of numbers and times, tables by code, objects in memory, captures, the files of outputs and the words of the
//! command line, by the public calls of their crates.
//!
//! They stand apart so that these crates, on which all others stand, are proved once. The expected values are worked by
//! hand, from the capture format, from the standards that a test names, and from the rules of each call.
#![tactic(auto)]

#[cfg(test)]
mod capture_bytes;
#[cfg(test)]
mod capture_seen;
#[cfg(test)]
mod captures;
#[cfg(test)]
mod check;
#[cfg(test)]
mod codes;
#[cfg(test)]
mod numbers;
#[cfg(test)]
mod objects_in_memory;
#[cfg(test)]
mod outputs;
#[cfg(test)]
mod parts;
#[cfg(test)]
mod planned_shelf;
#[cfg(test)]
mod words;
#[cfg(test)]
mod written;
