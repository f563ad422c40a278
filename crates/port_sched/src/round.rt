//! Places in a row that goes round.
ghost use Rattle.std.specs.Prelude.{◌≡◌, ◌<◌, ◌+◌, ◌%◌};

/// The place in a row of so many that goes round, for one less than twice round. It takes no division.
pub(crate) fn around(place: usize, count: usize) -> usize
    requires { place < count + count }
    ensures { result ≡ place % count }
{
    if place < count { place } else { place - count }
}
