//! Tests of reports, line by line, and of the statuses of runs, by the public calls of `run_report`.
//!
//! They stand apart so that `run_report` is proved once. The expected lines and statuses are written by hand, from the
//! lines that a report has and from the order of the statuses.
#![tactic(auto)]

#[cfg(test)]
mod build;
#[cfg(test)]
mod check;
#[cfg(test)]
mod ends;
#[cfg(test)]
mod profiles;
#[cfg(test)]
mod runs;
#[cfg(test)]
mod statuses;
