//! Meters that several callers share: each caller marks packets by a seat of its own, and each mark is one step on its
//! meter. It stands on `color_meter` for what a meter replies and on `crossbeam_utils` for the cell that threads share.
//!
//! It promises that the marks of all seats form one legal log for each meter: turns 0, 1, 2 and so on, each colour the
//! meter's reply after the marks before it, each seat's marks once and in its order, and no others. `mark` may wait for
//! another caller.
#![tactic(auto)]

mod cell;
mod deal;
mod gather;
pub mod laws;
mod mark;
mod rule;
mod seat;
mod table;
mod words;

pub use mark::{Mark, MeterLog};
pub use rule::{Kept, View};
pub use seat::MeterSeat;
pub use table::MeterTable;
