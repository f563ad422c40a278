//! The two rate three color marker (RFC 2698).
ghost use Rattle.std.specs.Prelude.{◌≡◌, ◌≤◌};
ghost use Rattle.color_meter.specs.TrTcm.{aware};

use qos_base::Colour;

/// The colour of a packet of `len` bytes that had colour `pre`, and what it leaves of Tc and Tp (section 3).
pub fn reply(pre: Colour, len: u64, counts: (u64, u64)) -> (Colour, (u64, u64))
    ensures { result ≡ aware pre len counts }
{
    let (tc, tp) = counts;
    if pre == Colour::Red || tp < len {
        (Colour::Red, counts)
    } else if pre == Colour::Yellow || tc < len {
        (Colour::Yellow, (tc, tp - len))
    } else {
        (Colour::Green, (tc - len, tp - len))
    }
}
