//! What a caller holds of a table.
use crate::cell::Pass;

/// A caller's right to mark packets by the meters of a table.
#[derive(Drop)]
pub struct MeterSeat {
    // One for each meter.
    pub(crate) passes: Vec<Pass>,
}
