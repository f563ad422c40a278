//! Where a record goes, before a meter has coloured it.
ghost use Rattle.std.specs.Prelude.{◌≡◌, ◌<◌, ◌≤◌, ℕ, Err, Ok, length};
ghost use Rattle.qos_base.specs.declared.reason.Reason.{Reason};
ghost use Rattle.qos_pcap.specs.Heads.{recorded};
ghost use Rattle.pkt_receive.specs.Classes.{IsLoss, IsWithin, class_of};
ghost use Rattle.pkt_slots.specs.Placed.{mtu_at};

use port_classify::{Place, look, place};
use profile_plan::Profile;
use qos_base::Reason;
use qos_pcap::Head;

/// A record that has come to its place.
#[derive(Clone, Copy, Debug, PartialEq, Eq)]
pub struct Classified {
    /// Its place.
    pub place: Place,
    /// Its length on the line in bytes, without the link header and tags: what a meter counts.
    pub len: u32,
}

/// Where the record of an input with this head and body goes, or why it is lost: unparsed where it is no frame, unmatched
/// where no rule matches it, oversize where it is longer on the line than its port's longest frame. A slot holds the body.
pub(crate) fn classify(
    p: &Profile,
    input: u32,
    head: &Head,
    body: &[u8],
) -> Result<Classified, Reason>
    requires slot { head.now.cap ≤ p.now.pool.slot_bytes }
    ensures value { result ≡ class_of p.now input (recorded head.now body.now) }
    ensures reason { (reason : Reason) → result ≡ Err reason → IsLoss reason }
    ensures place { (c : Classified) → result ≡ Ok c → IsWithin p.now head.now.wire c.place }
{
    let Ok(frame) = look(body) else {
        return Err(Reason::Unparsed);
    };
    let Some(place) = place(p, input, &frame) else {
        return Err(Reason::Unmatched);
    };
    if head.wire > mtu_at(p, place.port) {
        return Err(Reason::Oversize);
    }
    let len = head.wire.saturating_sub(frame.header);
    Ok(Classified { place, len })
}

// The longest frame of the port of a number, in bytes.
fn mtu_at(p: &Profile, port: u32) -> u32
    requires there { port < length p.now.ports }
    ensures { result ≡ mtu_at p.now port }
{
    p.port(port as usize).mtu
}
