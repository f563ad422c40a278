//! Tests of whole commands over calls of the outside that fail, and over the system's files, by the public calls of
//! `qos_main`.
//!
//! They stand apart so that `qos_main` is proved once, and from the tests over files in memory so that both are proved
//! side by side. The expected numbers are worked by hand, from the rules of pacing, of meters and of the capture
//! format.
#![tactic(auto)]

#[cfg(test)]
mod check;
#[cfg(test)]
mod faults;
#[cfg(test)]
mod faulty;
#[cfg(test)]
mod files;
#[cfg(test)]
mod memory;
#[cfg(test)]
mod system;
#[cfg(test)]
mod two_ports;
#[cfg(test)]
mod whole;
