//! The keys of each section.
ghost use Rattle.std.specs.Prelude.{◌≡◌, map};
ghost use Rattle.qos_profile.specs.Table.{row_view, pool_keys, port_keys, subport_kind_keys, pipe_kind_keys, subport_keys, code_keys, meter_keys, rule_keys};

use profile_plan::{MAX_MTU, MAX_SLOT_BYTES, MAX_SLOTS, MAX_SUBPORT_PIPES};

/// What stands in place of a key's empty word.
#[derive(Clone, Copy)]
pub(crate) enum Place {
    /// It has none.
    Nothing,
    /// A number or a range `A-B`, at most this.
    Range(u64),
    /// A number, at most this.
    One(u64),
}

/// In which forms or kinds of its section a key is listed.
#[derive(Clone, Copy)]
pub(crate) enum Only {
    /// In all.
    All,
    /// In this one, which it tells.
    In(usize),
    /// In all but this one.
    NotIn(usize),
    /// In all; its word is the one.
    Told,
}

/// The shape of a value.
#[derive(Clone, Copy)]
pub(crate) enum Shape {
    /// One number, from the least to the greatest.
    Number(u64, u64),
    /// One of these words.
    Word(&'static [&'static str]),
    /// One of these words, or a number.
    NumberOr(u64, u64, &'static [&'static str]),
    /// Thirteen queue sizes.
    Sizes,
    /// Four weights.
    Weights,
    /// `a.b.c.d/n` or `any`.
    Address,
    /// `C Q COLOUR`.
    Mark,
    /// `fixed C Q COLOUR` or `dscp`.
    Code,
    /// A meter's name.
    Named,
}

/// A key: its words, of which an empty one stands for a number or a range, the group and the slots that it
/// gives, where it is listed, and its value.
#[derive(Clone, Copy)]
pub(crate) struct Row {
    pub words: &'static [&'static str],
    pub place: Place,
    pub group: u8,
    pub first: u64,
    pub last: u64,
    pub only: Only,
    pub shape: Shape,
}

const MOST: u64 = u64::MAX;

const SIZE: u64 = 1 << 40;

const RATE: u64 = 12_500_000_000;

static POOL: [Row; 3] = [
    Row {
        words: &["slots"],
        place: Place::Nothing,
        group: 0,
        first: 0,
        last: 0,
        only: Only::All,
        shape: Shape::Number(1, MAX_SLOTS),
    },
    Row {
        words: &["slot", "bytes"],
        place: Place::Nothing,
        group: 1,
        first: 0,
        last: 0,
        only: Only::All,
        shape: Shape::Number(64, MAX_SLOT_BYTES),
    },
    Row {
        words: &["ring", "size"],
        place: Place::Nothing,
        group: 2,
        first: 0,
        last: 0,
        only: Only::All,
        shape: Shape::Number(1, 65536),
    },
];

static PORT: [Row; 8] = [
    Row {
        words: &["line", "rate"],
        place: Place::Nothing,
        group: 0,
        first: 0,
        last: 0,
        only: Only::All,
        shape: Shape::Number(1_000_000, RATE),
    },
    Row {
        words: &["subports"],
        place: Place::Nothing,
        group: 1,
        first: 0,
        last: 0,
        only: Only::All,
        shape: Shape::Number(1, 8),
    },
    Row {
        words: &["frame", "overhead"],
        place: Place::Nothing,
        group: 2,
        first: 0,
        last: 0,
        only: Only::All,
        shape: Shape::Number(0, 255),
    },
    Row {
        words: &["mtu"],
        place: Place::Nothing,
        group: 3,
        first: 0,
        last: 0,
        only: Only::All,
        shape: Shape::Number(60, MAX_MTU),
    },
    Row {
        words: &["burst"],
        place: Place::Nothing,
        group: 4,
        first: 0,
        last: 0,
        only: Only::All,
        shape: Shape::Number(1, 256),
    },
    Row {
        words: &["quantum"],
        place: Place::Nothing,
        group: 5,
        first: 0,
        last: 0,
        only: Only::All,
        shape: Shape::Number(1, 1_000_000_000),
    },
    Row {
        words: &["drain"],
        place: Place::Nothing,
        group: 6,
        first: 0,
        last: 1,
        only: Only::All,
        shape: Shape::Number(0, SIZE),
    },
    Row {
        words: &["drain", "ms"],
        place: Place::Nothing,
        group: 6,
        first: 1,
        last: 2,
        only: Only::All,
        shape: Shape::Number(0, 100_000),
    },
];

static SUBPORT_KIND: [Row; 7] = [
    Row {
        words: &["tb", "credits"],
        place: Place::Nothing,
        group: 0,
        first: 0,
        last: 0,
        only: Only::In(0),
        shape: Shape::Number(1, SIZE),
    },
    Row {
        words: &["tb", "rate"],
        place: Place::Nothing,
        group: 0,
        first: 0,
        last: 0,
        only: Only::In(1),
        shape: Shape::Number(1, RATE),
    },
    Row {
        words: &["tb", "period"],
        place: Place::Nothing,
        group: 1,
        first: 0,
        last: 0,
        only: Only::In(0),
        shape: Shape::Number(1, SIZE),
    },
    Row {
        words: &["tb", "size"],
        place: Place::Nothing,
        group: 2,
        first: 0,
        last: 0,
        only: Only::All,
        shape: Shape::Number(1, SIZE),
    },
    Row {
        words: &["tc", "", "credits"],
        place: Place::Range(12),
        group: 3,
        first: 0,
        last: 0,
        only: Only::In(0),
        shape: Shape::Number(0, SIZE),
    },
    Row {
        words: &["tc", "", "rate"],
        place: Place::Range(12),
        group: 3,
        first: 0,
        last: 0,
        only: Only::In(1),
        shape: Shape::Number(0, RATE),
    },
    Row {
        words: &["tc", "period"],
        place: Place::Nothing,
        group: 4,
        first: 0,
        last: 0,
        only: Only::All,
        shape: Shape::Number(0, MOST),
    },
];

static PIPE_KIND: [Row; 9] = [
    Row {
        words: &["tb", "credits"],
        place: Place::Nothing,
        group: 0,
        first: 0,
        last: 0,
        only: Only::In(0),
        shape: Shape::Number(1, SIZE),
    },
    Row {
        words: &["tb", "rate"],
        place: Place::Nothing,
        group: 0,
        first: 0,
        last: 0,
        only: Only::In(1),
        shape: Shape::Number(1, RATE),
    },
    Row {
        words: &["tb", "period"],
        place: Place::Nothing,
        group: 1,
        first: 0,
        last: 0,
        only: Only::In(0),
        shape: Shape::Number(1, SIZE),
    },
    Row {
        words: &["tb", "size"],
        place: Place::Nothing,
        group: 2,
        first: 0,
        last: 0,
        only: Only::All,
        shape: Shape::Number(1, SIZE),
    },
    Row {
        words: &["tc", "", "credits"],
        place: Place::Range(12),
        group: 3,
        first: 0,
        last: 0,
        only: Only::In(0),
        shape: Shape::Number(0, SIZE),
    },
    Row {
        words: &["tc", "", "rate"],
        place: Place::Range(12),
        group: 3,
        first: 0,
        last: 0,
        only: Only::In(1),
        shape: Shape::Number(0, RATE),
    },
    Row {
        words: &["tc", "period"],
        place: Place::Nothing,
        group: 4,
        first: 0,
        last: 0,
        only: Only::All,
        shape: Shape::Number(0, MOST),
    },
    Row {
        words: &["tc", "12", "wrr", "weights"],
        place: Place::Nothing,
        group: 5,
        first: 0,
        last: 0,
        only: Only::All,
        shape: Shape::Weights,
    },
    Row {
        words: &["tc", "12", "oversubscription", "weight"],
        place: Place::Nothing,
        group: 6,
        first: 0,
        last: 0,
        only: Only::All,
        shape: Shape::Number(1, 255),
    },
];

static SUBPORT: [Row; 5] = [
    Row {
        words: &["profile"],
        place: Place::Nothing,
        group: 0,
        first: 0,
        last: 0,
        only: Only::All,
        shape: Shape::Number(0, MOST),
    },
    Row {
        words: &["pipes"],
        place: Place::Nothing,
        group: 1,
        first: 0,
        last: 0,
        only: Only::All,
        shape: Shape::Number(1, MAX_SUBPORT_PIPES),
    },
    Row {
        words: &["queue", "sizes"],
        place: Place::Nothing,
        group: 2,
        first: 0,
        last: 0,
        only: Only::All,
        shape: Shape::Sizes,
    },
    Row {
        words: &["pipe", ""],
        place: Place::Range(MOST),
        group: 3,
        first: 0,
        last: 0,
        only: Only::All,
        shape: Shape::Number(0, MOST),
    },
    Row {
        words: &["oversubscription"],
        place: Place::Nothing,
        group: 4,
        first: 0,
        last: 0,
        only: Only::All,
        shape: Shape::Word(&["no", "yes"]),
    },
];

static CODE: [Row; 1] = [Row {
    words: &[""],
    place: Place::One(63),
    group: 0,
    first: 0,
    last: 0,
    only: Only::All,
    shape: Shape::Mark,
}];

static METER: [Row; 17] = [
    Row {
        words: &["kind"],
        place: Place::Nothing,
        group: 0,
        first: 0,
        last: 0,
        only: Only::Told,
        shape: Shape::Word(&["srtcm", "trtcm", "rfc4115"]),
    },
    Row {
        words: &["mode"],
        place: Place::Nothing,
        group: 1,
        first: 0,
        last: 0,
        only: Only::All,
        shape: Shape::Word(&["blind", "aware"]),
    },
    Row {
        words: &["cir", "bytes"],
        place: Place::Nothing,
        group: 2,
        first: 0,
        last: 0,
        only: Only::All,
        shape: Shape::Number(0, SIZE),
    },
    Row {
        words: &["cir", "period"],
        place: Place::Nothing,
        group: 2,
        first: 2,
        last: 2,
        only: Only::All,
        shape: Shape::Number(1, SIZE),
    },
    Row {
        words: &["cir", "rate"],
        place: Place::Nothing,
        group: 2,
        first: 0,
        last: 2,
        only: Only::All,
        shape: Shape::Number(0, RATE),
    },
    Row {
        words: &["pir", "bytes"],
        place: Place::Nothing,
        group: 3,
        first: 0,
        last: 0,
        only: Only::In(1),
        shape: Shape::Number(0, SIZE),
    },
    Row {
        words: &["pir", "period"],
        place: Place::Nothing,
        group: 3,
        first: 2,
        last: 2,
        only: Only::In(1),
        shape: Shape::Number(1, SIZE),
    },
    Row {
        words: &["pir", "rate"],
        place: Place::Nothing,
        group: 3,
        first: 0,
        last: 2,
        only: Only::In(1),
        shape: Shape::Number(0, RATE),
    },
    Row {
        words: &["eir", "bytes"],
        place: Place::Nothing,
        group: 3,
        first: 0,
        last: 0,
        only: Only::In(2),
        shape: Shape::Number(0, SIZE),
    },
    Row {
        words: &["eir", "period"],
        place: Place::Nothing,
        group: 3,
        first: 2,
        last: 2,
        only: Only::In(2),
        shape: Shape::Number(1, SIZE),
    },
    Row {
        words: &["eir", "rate"],
        place: Place::Nothing,
        group: 3,
        first: 0,
        last: 2,
        only: Only::In(2),
        shape: Shape::Number(0, RATE),
    },
    Row {
        words: &["cbs"],
        place: Place::Nothing,
        group: 4,
        first: 0,
        last: 0,
        only: Only::All,
        shape: Shape::Number(0, SIZE),
    },
    Row {
        words: &["ebs"],
        place: Place::Nothing,
        group: 5,
        first: 0,
        last: 0,
        only: Only::NotIn(1),
        shape: Shape::Number(0, SIZE),
    },
    Row {
        words: &["pbs"],
        place: Place::Nothing,
        group: 5,
        first: 0,
        last: 0,
        only: Only::In(1),
        shape: Shape::Number(0, SIZE),
    },
    Row {
        words: &["green"],
        place: Place::Nothing,
        group: 6,
        first: 0,
        last: 0,
        only: Only::All,
        shape: Shape::Word(&["pass", "drop"]),
    },
    Row {
        words: &["yellow"],
        place: Place::Nothing,
        group: 7,
        first: 0,
        last: 0,
        only: Only::All,
        shape: Shape::Word(&["pass", "drop"]),
    },
    Row {
        words: &["red"],
        place: Place::Nothing,
        group: 8,
        first: 0,
        last: 0,
        only: Only::All,
        shape: Shape::Word(&["pass", "drop"]),
    },
];

static RULE: [Row; 10] = [
    Row {
        words: &["input"],
        place: Place::Nothing,
        group: 0,
        first: 0,
        last: 0,
        only: Only::All,
        shape: Shape::NumberOr(0, 15, &["any"]),
    },
    Row {
        words: &["vlan"],
        place: Place::Nothing,
        group: 1,
        first: 0,
        last: 0,
        only: Only::All,
        shape: Shape::NumberOr(0, 4_095, &["any", "none"]),
    },
    Row {
        words: &["proto"],
        place: Place::Nothing,
        group: 2,
        first: 0,
        last: 0,
        only: Only::All,
        shape: Shape::Word(&["ipv4", "ipv6", "mpls", "other", "any"]),
    },
    Row {
        words: &["src"],
        place: Place::Nothing,
        group: 3,
        first: 0,
        last: 0,
        only: Only::All,
        shape: Shape::Address,
    },
    Row {
        words: &["dst"],
        place: Place::Nothing,
        group: 4,
        first: 0,
        last: 0,
        only: Only::All,
        shape: Shape::Address,
    },
    Row {
        words: &["port"],
        place: Place::Nothing,
        group: 5,
        first: 0,
        last: 0,
        only: Only::All,
        shape: Shape::Number(0, MOST),
    },
    Row {
        words: &["subport"],
        place: Place::Nothing,
        group: 6,
        first: 0,
        last: 0,
        only: Only::All,
        shape: Shape::Number(0, MOST),
    },
    Row {
        words: &["pipe"],
        place: Place::Nothing,
        group: 7,
        first: 0,
        last: 0,
        only: Only::All,
        shape: Shape::NumberOr(0, MOST, &["vlan", "host"]),
    },
    Row {
        words: &["code"],
        place: Place::Nothing,
        group: 8,
        first: 0,
        last: 0,
        only: Only::All,
        shape: Shape::Code,
    },
    Row {
        words: &["meter"],
        place: Place::Nothing,
        group: 9,
        first: 0,
        last: 0,
        only: Only::All,
        shape: Shape::Named,
    },
];

#[tactic(auto, unfolding(crate::specs::Table::pool_keys))]
pub(crate) fn pool_rows() -> &'static [Row]
    ensures { map row_view result.now ≡ pool_keys }
{
    &POOL
}

#[tactic(auto, unfolding(crate::specs::Table::port_keys))]
pub(crate) fn port_rows() -> &'static [Row]
    ensures { map row_view result.now ≡ port_keys }
{
    &PORT
}

#[tactic(auto, unfolding(crate::specs::Table::subport_kind_keys))]
pub(crate) fn subport_kind_rows() -> &'static [Row]
    ensures { map row_view result.now ≡ subport_kind_keys }
{
    &SUBPORT_KIND
}

#[tactic(auto, unfolding(crate::specs::Table::pipe_kind_keys))]
pub(crate) fn pipe_kind_rows() -> &'static [Row]
    ensures { map row_view result.now ≡ pipe_kind_keys }
{
    &PIPE_KIND
}

#[tactic(auto, unfolding(crate::specs::Table::subport_keys))]
pub(crate) fn subport_rows() -> &'static [Row]
    ensures { map row_view result.now ≡ subport_keys }
{
    &SUBPORT
}

#[tactic(auto, unfolding(crate::specs::Table::code_keys))]
pub(crate) fn code_rows() -> &'static [Row]
    ensures { map row_view result.now ≡ code_keys }
{
    &CODE
}

#[tactic(auto, unfolding(crate::specs::Table::meter_keys))]
pub(crate) fn meter_rows() -> &'static [Row]
    ensures { map row_view result.now ≡ meter_keys }
{
    &METER
}

#[tactic(auto, unfolding(crate::specs::Table::rule_keys))]
pub(crate) fn rule_rows() -> &'static [Row]
    ensures { map row_view result.now ≡ rule_keys }
{
    &RULE
}
