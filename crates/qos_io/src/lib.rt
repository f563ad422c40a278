//! The outside of the pipeline: what it reads from, writes to and finds files on, each a trait whose
//! contract says what may fail and why, and objects in memory that keep these contracts.
//!
//! Each object counts its faults. A call answers `Failed` only where that count rose, and never of an
//! object that is sure. In memory an object also tells its bytes, so that a contract can name them.
#![tactic(auto)]

mod calls;
mod files;
mod gate;
mod mem_shelf;
mod mem_sink;
mod mem_source;
mod shelf;
mod sink;
mod source;
mod whole_shelf;
mod whole_sink;
mod whole_source;

pub use gate::{Gate, OpenGate};
pub use mem_shelf::MemShelf;
pub use mem_sink::MemSink;
pub use mem_source::MemSource;
pub use shelf::Shelf;
pub use sink::{PutFault, Sink};
pub use source::{Failed, Source};
pub use whole_shelf::WholeShelf;
pub use whole_sink::WholeSink;
pub use whole_source::WholeSource;
