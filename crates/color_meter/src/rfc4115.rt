//! The two rate three color marker of RFC 4115.
ghost use Rattle.std.specs.Prelude.{◌≡◌, ◌≤◌};
ghost use Rattle.color_meter.specs.Rfc4115.{aware};

use qos_base::Colour;

/// The colour of a packet of `len` bytes that had colour `pre`, and what it leaves of Tc and Te (section 3).
pub fn reply(pre: Colour, len: u64, counts: (u64, u64)) -> (Colour, (u64, u64))
    ensures { result ≡ aware pre len counts }
{
    let (tc, te) = counts;
    match pre {
        Colour::Green if tc >= len => (Colour::Green, (tc - len, te)),
        Colour::Green | Colour::Yellow if te >= len => (Colour::Yellow, (tc, te - len)),
        _ => (Colour::Red, counts),
    }
}
