//! The single rate three color marker (RFC 2697).
ghost use Rattle.std.specs.Prelude.{◌≡◌, ◌≤◌, ◌^◌};
ghost use Rattle.color_meter.specs.Closed.{overflowing};
ghost use Rattle.color_meter.specs.SrTcm.{aware};

use qos_base::Colour;

/// Tc and Te after so many tokens, which fill C, and what C has no room for E (section 3).
pub fn filled(counts: (u64, u64), tokens: u64, cbs: u64, ebs: u64) -> (u64, u64)
    requires committed { counts.0 ≤ cbs }
    requires excess { counts.1 ≤ ebs }
    ensures { result ≡ overflowing cbs ebs tokens counts }
{
    let (tc, te) = counts;
    let to_c = tokens.min(cbs - tc);
    let to_e = (tokens - to_c).min(ebs - te);
    (tc + to_c, te + to_e)
}

/// The colour of a packet of `len` bytes that had colour `pre`, and what it leaves of Tc and Te (section 3).
pub fn reply(pre: Colour, len: u64, counts: (u64, u64)) -> (Colour, (u64, u64))
    ensures { result ≡ aware pre len counts }
{
    let (tc, te) = counts;
    if pre == Colour::Green && tc >= len {
        (Colour::Green, (tc - len, te))
    } else if pre != Colour::Red && te >= len {
        (Colour::Yellow, (tc, te - len))
    } else {
        (Colour::Red, counts)
    }
}
