//! The scheduler of a port.
//!
//! `PortSched` is a port of a profile: subports, their pipes, and in each pipe thirteen traffic classes and
//! sixteen queues, after the hierarchical scheduler of DPDK. A visit touches its subport and its pipe alone:
//! the next pipe is found by a bitmap, and a bucket is brought up to date when it is used. In the definition
//! every bucket is stepped at every visit; what the code keeps stands for that at each moment.
//!
//! It stands on `credit_book` for credits and the watermark, on `wrr_pick` for the best effort queues, on
//! `queue_store` for what waits, on `active_bitmap` for the next pipe, and on `profile_plan` for the numbers
//! of a port. It promises that each call is exactly one step of the port's definition: the same packets go
//! out at the same times, and it holds the very parcels that it was given; and that a dequeue takes no more
//! than 24 steps for each of its visits.
#![tactic(auto)]

mod active;
mod arrival;
mod classes;
pub mod laws;
mod level;
mod pipe;
mod port;
mod round;
mod serving;
mod shares;
mod start;
mod subport;
mod visit;
mod waiting;

pub use port::PortSched;
