//! The gate that each job passes at the start of a turn.

/// Holds a job back until it may begin a turn. Tests use it to force an interleaving.
pub trait Gate: Sync {
    /// Called by job `job` at the start of its turn `turn`, both from 0. It may wait, and answers nothing.
    fn pass(&self, job: u32, turn: u64);
}

/// A gate that is always open.
#[derive(Clone, Copy, Debug)]
pub struct OpenGate;

impl Gate for OpenGate {
    fn pass(&self, _job: u32, _turn: u64) {}
}
