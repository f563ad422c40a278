//! Laws of the next set bit: each function does nothing, and its contract is the law.
ghost use Rattle.active_bitmap.specs.Laws.{NextIsNearest, NoneIsAllClear};

/// The next set bit is one of the bits and set, and no set bit lies at a lesser distance ahead of the
/// place, going round.
pub fn next_is_nearest()
    ensures { NextIsNearest }
{}

/// Where there is no next set bit all bits are clear.
pub fn none_is_all_clear()
    ensures { NoneIsAllClear }
{}
