//! What follows for meters. A law is a function without parameters whose contract holds; there is nothing to
//! call it for.
ghost use Rattle.color_meter.specs.Laws.{SumIsDripping, EarlierEarnsNothing, TimeRises, SettingKept, LimitsKept};
ghost use Rattle.color_meter.specs.Laws.{NoColourUpgraded, BlindIsGreen};

/// The tokens in one sum for each bucket are the tokens one by one, for each standard.
pub fn sum_is_dripping()
    ensures { SumIsDripping }
{}

/// A moment that isn't above a meter's time earns nothing and moves nothing.
pub fn earlier_earns_nothing()
    ensures { EarlierEarnsNothing }
{}

/// A meter's time never falls, and a moment brings it at least as far.
pub fn time_rises()
    ensures { TimeRises }
{}

/// A meter that is aware of a packet's colour gives it no better one.
pub fn no_colour_is_upgraded()
    ensures { NoColourUpgraded }
{}

/// A meter that is blind takes each packet for a green one.
pub fn blind_is_green()
    ensures { BlindIsGreen }
{}

/// A meter's setting stays.
pub fn setting_is_kept()
    ensures { SettingKept }
{}

/// A meter stays within its limits.
pub fn limits_are_kept()
    ensures { LimitsKept }
{}
