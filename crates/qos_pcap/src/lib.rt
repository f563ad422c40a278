//! Captures in libpcap's classic format: reading one record at a time from any source, and writing.
//!
//! It stands on `byteorder` for the fields. All four magic numbers are read: microseconds and nanoseconds, in
//! either byte order. It promises that what is read are the records and the stop that the format gives to the
//! source's bytes, to the byte, and that what is written are the texts of the format.
#![tactic(auto)]

mod capture;
mod fault;
mod fields;
mod fill;
mod form;
mod head;
pub mod laws;
mod limits;
mod opening;
mod write;

pub use capture::Capture;
pub use fault::{PcapFault, Stop};
pub use head::Head;
pub use limits::MAX_CAP;
pub use opening::open_capture;
pub use write::{put_header, put_record};
