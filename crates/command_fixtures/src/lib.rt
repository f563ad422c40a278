//! What the crates of tests of whole commands share: the words of a line, captures made of records, and what a command
//! comes to, stated as an [`End`], seen as a [`Seen`] and told by its report.
//!
//! It stands on `qos_main`, whose commands it runs, and compares nothing itself. Its only error is want of memory.
#![tactic(auto)]

mod captures;
mod ended;
mod expected;
mod report;
mod words;

pub use captures::{FAR, FIRST, FRAME, Form, HEADER, PLAIN, Rec, capture, written};
pub use ended::{InputNumbers, MeterNumbers, PortNumbers, Seen, gather, run};
pub use expected::{EMPTY, End, wanted};
pub use report::report_of;
pub use words::words_of;
