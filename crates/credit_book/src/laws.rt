//! Laws of the credits: each function does nothing, and its contract is the law.
ghost use Rattle.credit_book.specs.Laws.{BringsOnce, CreditsWithinSize, GainsPerPeriod, OnceIsStepwise, PeriodsAddUp, MultiplesAddUp, StaysWithinBounds};

/// Bringing a bucket to a moment and then to a later one is bringing it to the later one.
pub fn brings_once()
    ensures { BringsOnce }
{}

/// A bucket's credits never pass its size.
pub fn credits_within_size()
    ensures { CreditsWithinSize }
{}

/// From one moment to a later one a bucket gains at most its credits per period for each multiple of
/// its period that lies between them.
pub fn gains_per_period()
    ensures { GainsPerPeriod }
{}

/// Earning all periods at once and one period at a time give the same credits.
pub fn once_is_stepwise()
    ensures { OnceIsStepwise }
{}

/// Some periods and then some more are all of them.
pub fn periods_add_up()
    ensures { PeriodsAddUp }
{}

/// The multiples of a period up to a moment and those from there on are all of them.
pub fn multiples_add_up()
    ensures { MultiplesAddUp }
{}

/// A step leaves a watermark between the cost of the greatest packet and its maximum.
pub fn stays_within_bounds()
    ensures { StaysWithinBounds }
{}
