//! The lines of a profile text: what each line is, its words, and numbers. It stands on `qos_base`.
//!
//! It promises the exact lines of a text, for each line whether it is a section's head, a key line, blank or
//! at fault, with its words, and the exact value of a number. It copies no byte of the text.
#![tactic(auto)]

mod blanks;
mod line;
mod number;
mod split;

pub use blanks::words;
pub use line::{Line, read_line};
pub use number::{read_number, read_range};
pub use split::{cut, split_line};
