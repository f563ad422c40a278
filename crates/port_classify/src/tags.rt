//! The tags of a frame (IEEE 802.1Q, section 9).
ghost use Rattle.std.specs.Prelude.{◌≡◌};
ghost use Rattle.port_classify.specs.Frame.{is_tag, priority, vlan_id};
ghost use Rattle.port_classify.specs.Parts.{tags_in};

use crate::fields::u16_at;

/// The type of a customer's tag.
const CUSTOMER: u16 = 0x8100;

/// The type of a provider's tag.
const PROVIDER: u16 = 0x88a8;

/// The tags that stand before what a frame carries, two at most, and the type behind them.
#[derive(Clone, Copy)]
pub(crate) struct Tags {
    pub(crate) count: u8,
    pub(crate) vlan: Option<u16>,
    pub(crate) inner: Option<u16>,
    pub(crate) prio: u8,
    pub(crate) ethertype: u16,
}

fn is_tag(ethertype: u16) -> bool
    ensures { result ≡ is_tag ethertype }
{
    ethertype == CUSTOMER || ethertype == PROVIDER
}

fn priority(control: u16) -> u8
    ensures { result ≡ priority control }
{
    (control >> 13) as u8
}

fn vlan_id(control: u16) -> u16
    ensures { result ≡ vlan_id control }
{
    control & 0x0fff
}

/// The tags of a frame, or none where its bytes end before the type behind them does.
pub(crate) fn tags_in(bytes: &[u8]) -> Option<Tags>
    ensures { result ≡ tags_in bytes.now }
{
    if bytes.len() < 14 {
        return None;
    }
    let plain = Tags {
        count: 0,
        vlan: None,
        inner: None,
        prio: 0,
        ethertype: u16_at(bytes, 12),
    };
    if !is_tag(plain.ethertype) {
        return Some(plain);
    }
    if bytes.len() < 18 {
        return None;
    }
    let control = u16_at(bytes, 14);
    let tagged = Tags {
        count: 1,
        vlan: Some(vlan_id(control)),
        prio: priority(control),
        ethertype: u16_at(bytes, 16),
        ..plain
    };
    if !is_tag(tagged.ethertype) {
        return Some(tagged);
    }
    if bytes.len() < 22 {
        return None;
    }
    Some(Tags {
        count: 2,
        inner: Some(vlan_id(u16_at(bytes, 18))),
        ethertype: u16_at(bytes, 20),
        ..tagged
    })
}
