//! What every other crate of the pipeline speaks of: a packet and its colour, the reasons for which a
//! packet is lost, the times of a port, and the counter of steps. It stands on std alone.
//!
//! It promises the exact values of the two conversions of time: from nanoseconds to byte times of a
//! line, and from a byte time back to the stamp of a packet that is sent; and of the greatest common
//! divisor.
#![tactic(auto)]

mod divisor;
mod memory;
mod packet;
mod reason;
mod sequence;
mod steps;
mod time;

pub use divisor::gcd;
pub use memory::NoMemory;
pub use packet::{Colour, Departure, Parcel, Pkt, TailFull};
pub use reason::Reason;
pub use sequence::Sequence;
pub use steps::Steps;
pub use time::{LAST_STAMP, MAX_LINE, MAX_MOMENT, MIN_LINE, NANOSECONDS, byte_time, send_stamp};
