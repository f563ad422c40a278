//! Meters, which colour the packets of a flow: the single rate three color marker (RFC 2697), the two rate
//! three color marker (RFC 2698) and that of RFC 4115. It stands on `qos_base` for colours and on
//! `profile_plan` for what a meter is set to.
//!
//! It promises that a meter's tokens are those that dripped into its buckets one by one, that its reply to a
//! packet is the standard's, that no number wraps within the limits, and what follows from that ([`laws`]).
//! No call takes memory.
#![tactic(auto)]

mod clock;
pub mod laws;
mod meter;
mod rfc4115;
mod sr_tcm;
mod standard;
mod tr_tcm;

pub use meter::Meter;
