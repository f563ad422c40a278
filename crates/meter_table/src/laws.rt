//! Laws of the logs and of the marks that callers keep. A law is a function without parameters whose contract holds;
//! there is nothing to call it for.
ghost use Rattle.meter_table.specs.Laws.{FreshMadeNone, OneMoreMade, OneSeatsLog, TogetherMade};

/// The log of a meter of which one seat made all marks is that seat's marks.
pub fn one_seats_log()
    ensures { OneSeatsLog }
{}

/// Fresh seats have made no marks.
pub fn fresh_made_none()
    ensures { FreshMadeNone }
{}

/// All marks of a seat, and one more that it makes, are all that it has made then.
pub fn one_more_made()
    ensures { OneMoreMade }
{}

/// All marks of some seats, and all of others, are all that the seats together made.
pub fn together_made()
    ensures { TogetherMade }
{}
