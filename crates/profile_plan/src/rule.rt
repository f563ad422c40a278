//! A rule, which says where a frame goes.

use code_table::Entry;

/// What a frame carries, by its ethertype.
#[derive(Clone, Copy, Debug, PartialEq, Eq)]
pub enum Proto {
    Ipv4,
    Ipv6,
    Mpls,
    Other,
}

/// What a rule asks of a frame's outer VLAN.
#[derive(Clone, Copy, Debug, PartialEq, Eq)]
pub enum VlanTest {
    /// Nothing.
    Any,
    /// That it has no tag.
    Untagged,
    /// That its id is this one, at most 4,095.
    Id(u16),
}

/// An IPv4 prefix.
#[derive(Clone, Copy, Debug, PartialEq, Eq)]
pub struct Prefix {
    /// The address. Its bits past `bits` are 0.
    pub addr: u32,
    /// How many bits count, 0 to 32.
    pub bits: u8,
}

/// The pipe of a rule.
#[derive(Clone, Copy, Debug, PartialEq, Eq)]
pub enum PipeChoice {
    /// This one.
    Fixed(u32),
    /// The outer VLAN id.
    Vlan,
    /// The low twelve bits of the IPv4 destination.
    Host,
}

/// The class, queue and colour of a rule.
#[derive(Clone, Copy, Debug, PartialEq, Eq)]
pub enum CodeChoice {
    /// Those of the frame's code point.
    Dscp,
    /// These, for every frame.
    Fixed(Entry),
}

/// A rule. It matches a frame where all its conditions do; what is `None` is no condition.
#[derive(Clone, Copy, Debug, PartialEq, Eq)]
pub struct RulePlan {
    /// Its number, 0 to 255. Rules are tried by number.
    pub number: u32,
    /// The input, 0 to 15.
    pub input: Option<u32>,
    /// The outer VLAN.
    pub vlan: VlanTest,
    /// What the frame carries.
    pub proto: Option<Proto>,
    /// The IPv4 source.
    pub src: Option<Prefix>,
    /// The IPv4 destination.
    pub dst: Option<Prefix>,
    /// The port that the frame goes to.
    pub port: u32,
    /// The subport of that port.
    pub subport: u32,
    /// The pipe of that subport.
    pub pipe: PipeChoice,
    /// The class, queue and colour.
    pub code: CodeChoice,
    /// The number of its meter, if it has one.
    pub meter: Option<u32>,
}
