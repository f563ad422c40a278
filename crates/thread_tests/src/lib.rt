//! Tests of what threads share: boards of counters, pools of slots, rings between stages and tables of meters, by the
//! public calls of `count_board`, `mbuf_pool`, `stage_ring` and `meter_table`.
//!
//! They stand apart so that each of these is proved once. The expected numbers are worked by hand; they are the same
//! in whatever order the threads run.
#![tactic(auto)]

#[cfg(test)]
mod boards;
#[cfg(test)]
mod callers;
#[cfg(test)]
mod check;
#[cfg(test)]
mod meters;
#[cfg(test)]
mod pools;
#[cfg(test)]
mod profiles;
#[cfg(test)]
mod rings;
