//! What the three standards do with tokens and packets.
ghost use Rattle.std.specs.Prelude.{◌≡◌, ◌≤◌, true};
ghost use Rattle.color_meter.specs.Closed.{filled_by};
ghost use Rattle.color_meter.specs.Meter.{reply_by};

use crate::{rfc4115, sr_tcm, tr_tcm};
use profile_plan::MeterKind;
use qos_base::Colour;

/// The counts, which are at most the sizes of the buckets, after so many tokens of the committed rate and of the
/// other one.
pub fn filled(
    kind: MeterKind,
    sizes: (u64, u64),
    tokens: (u64, u64),
    counts: (u64, u64),
) -> (u64, u64)
    requires committed { counts.0 ≤ sizes.0 }
    requires rest { counts.1 ≤ sizes.1 }
    ensures { result ≡ filled_by kind sizes tokens counts }
{
    match kind {
        MeterKind::SrTcm => sr_tcm::filled(counts, tokens.0, sizes.0, sizes.1),
        MeterKind::TrTcm | MeterKind::Rfc4115 => (
            counts.0 + tokens.0.min(sizes.0 - counts.0),
            counts.1 + tokens.1.min(sizes.1 - counts.1),
        ),
    }
}

/// The colour of a packet of `len` bytes that had colour `pre`, and the counts that it leaves.
pub fn replied(kind: MeterKind, pre: Colour, len: u64, counts: (u64, u64)) -> (Colour, (u64, u64))
    ensures { result ≡ reply_by kind true pre len counts }
{
    match kind {
        MeterKind::SrTcm => sr_tcm::reply(pre, len, counts),
        MeterKind::TrTcm => tr_tcm::reply(pre, len, counts),
        MeterKind::Rfc4115 => rfc4115::reply(pre, len, counts),
    }
}
