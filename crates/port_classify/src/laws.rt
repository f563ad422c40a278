//! What the definitions of a place say together. A law is a function without parameters whose contract holds;
//! there is nothing to call it for.
ghost use Rattle.port_classify.specs.Laws.{PlacesByLeast};
ghost use Rattle.port_classify.specs.Written.{ReadsBack};

/// A place is that of the least rule that matches, and there is none just where no rule matches.
pub fn places_by_least()
    ensures { PlacesByLeast }
{}

/// A frame that is written field by field is read as these fields.
pub fn reads_back()
    ensures { ReadsBack }
{}
