//! How far a dequeue has come, as its visits see it.

/// Port time and the room of a dequeue; its sends are those of `out` from `first` on.
#[derive(Clone, Copy, Debug)]
pub(crate) struct Serving {
    pub(crate) overhead: u32,
    pub(crate) oversub: bool,
    pub(crate) time: u64,
    pub(crate) room: u32,
    pub(crate) first: usize,
}
