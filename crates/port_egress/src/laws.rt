//! Laws of the definitions. These functions do nothing; each has a law as its contract.
ghost use Rattle.profile_plan.specs.Profile.{Plan};
ghost use Rattle.port_egress.specs.Run.{PlacesAreThere};

/// A packet that has a place in a profile has one at its port.
pub fn places_are_there()
    ensures { (p : Plan) → PlacesAreThere p }
{}
