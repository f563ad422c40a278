//! A law of the queues: the function does nothing, and its contract is the law.
ghost use Rattle.queue_store.specs.Laws.{ChangesOneQueue};

/// A change of one queue's list leaves the other lists and all sizes as they were.
pub fn changes_one_queue<T>()
    ensures { ChangesOneQueue T }
{}
