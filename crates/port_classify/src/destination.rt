//! Where a frame goes.

use qos_base::Colour;

/// The place of a frame in the scheduler.
#[derive(Clone, Copy, Debug, PartialEq, Eq)]
pub struct Place {
    /// The port that sends it.
    pub port: u32,
    /// The subport of that port.
    pub subport: u32,
    /// The pipe of that subport.
    pub pipe: u32,
    /// The queue of that pipe, 0 to 15: classes 0 to 11, then the four best effort queues.
    pub queue: u32,
    /// The colour that it has before it is metered.
    pub pre: Colour,
    /// The number of its meter, if it has one.
    pub meter: Option<u32>,
}
