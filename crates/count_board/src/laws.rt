//! Laws of the board's words: each function does nothing, and its contract is the law.
ghost use Rattle.count_board.specs.Laws.{AddsUp, LastIsLatest, LastIsSeen};

/// One more addition adds to its word and to no other.
pub fn adds_up()
    ensures { AddsUp }
{}

/// What was last seen in a word is what the last look at that word found.
pub fn last_is_latest()
    ensures { LastIsLatest }
{}

/// Where no word is below what was ever seen there, none is below what was last seen there.
pub fn last_is_seen()
    ensures { LastIsSeen }
{}
