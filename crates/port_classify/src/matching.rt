//! Whether a frame meets the conditions of a rule.
ghost use Rattle.std.specs.Prelude.{◌≡◌, ◌==◌, ◌≤◌, IfSome};
ghost use Rattle.profile_plan.specs.Limits.{IsPrefix};
ghost use Rattle.port_classify.specs.Place.{passes, is_same, vlan_passes, begins_with, address_passes, meets};

use crate::Frame;
use profile_plan::{Prefix, Proto, RulePlan, VlanTest};

/// The bits of an IPv4 address.
const ADDRESS_BITS: u8 = 32;

fn input_passes(asked: Option<u32>, input: u32) -> bool
    ensures { result ≡ passes (λ n. n == input) asked }
{
    match asked {
        None => true,
        Some(n) => n == input,
    }
}

fn vlan_passes(asked: VlanTest, vlan: Option<u16>) -> bool
    ensures { result ≡ vlan_passes asked vlan }
{
    match (asked, vlan) {
        (VlanTest::Any, _) => true,
        (VlanTest::Untagged, vlan) => vlan.is_none(),
        (VlanTest::Id(id), Some(vlan)) => vlan == id,
        (VlanTest::Id(_), None) => false,
    }
}

/// Whether two protocols are the same.
pub(crate) fn is_same(one: Proto, other: Proto) -> bool
    ensures { result ≡ is_same one other }
{
    one == other
}

fn proto_passes(asked: Option<Proto>, proto: Proto) -> bool
    ensures { result ≡ passes (is_same proto) asked }
{
    match asked {
        None => true,
        Some(asked) => is_same(proto, asked),
    }
}

fn begins_with(prefix: Prefix, address: u32) -> bool
    requires { IsPrefix prefix }
    ensures { result ≡ begins_with prefix address }
{
    let rest = ADDRESS_BITS - prefix.bits;
    u64::from(address) >> rest == u64::from(prefix.addr) >> rest
}

fn address_passes(asked: Option<Prefix>, proto: Proto, address: u32) -> bool
    requires { IfSome asked IsPrefix }
    ensures { result ≡ passes (address_passes proto address) asked }
{
    match asked {
        None => true,
        Some(prefix) => is_same(proto, Proto::Ipv4) && begins_with(prefix, address),
    }
}

/// Whether a frame of an input meets the conditions that a rule names.
pub(crate) fn meets(rule: &RulePlan, input: u32, f: &Frame) -> bool
    requires src { IfSome rule.now.src IsPrefix }
    requires dst { IfSome rule.now.dst IsPrefix }
    ensures { result ≡ meets input f.now rule.now }
{
    input_passes(rule.input, input)
        && vlan_passes(rule.vlan, f.vlan)
        && proto_passes(rule.proto, f.proto)
        && address_passes(rule.src, f.proto, f.src)
        && address_passes(rule.dst, f.proto, f.dst)
}
