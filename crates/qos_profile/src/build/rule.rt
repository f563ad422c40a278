//! The rules, by number.
ghost use Rattle.std.specs.Prelude.{◌≡◌, ◌<◌, ◌≤◌, IfOk, IfSome, length};
ghost use Rattle.qos_profile.specs.declared.limits.TheConstants.{MAX_TEXT};
ghost use Rattle.profile_plan.specs.Limits.{IsVlan};
ghost use Rattle.qos_profile.specs.Lookups.{facts_at};
ghost use Rattle.qos_profile.specs.Fits.{FitsRule, FitsPipe, FitRules};
ghost use Rattle.qos_profile.specs.Planned.{input_of, vlan_of, proto_of, prefix_in, pipe_choice_of, code_choice_of, meter_number, meter_in, rule_of, rules_of};

use crate::build::meter::is_meter;
use crate::head::Head;
use crate::list::add;
use crate::lookup::{facts_at, number_at, value_at};
use crate::name::Name;
use crate::section::Section;
use crate::sections::{is_there, same_head};
use crate::value::Value;
use profile_plan::{CodeChoice, PipeChoice, Prefix, Proto, RulePlan, VlanTest};
use qos_base::{NoMemory, Sequence};
use std::alloc::Global;

fn input(value: Option<Value>) -> Option<u32>
    requires { IfSome (input_of value) (λ n. n ≤ 15) }
    ensures { result ≡ input_of value }
{
    match value {
        Some(Value::Number(n)) => Some(n as u32),
        _ => None,
    }
}

fn vlan(value: Option<Value>) -> VlanTest
    requires { IsVlan (vlan_of value) }
    ensures { result ≡ vlan_of value }
{
    match value {
        Some(Value::Number(n)) => VlanTest::Id(n as u16),
        Some(Value::Word(n)) => {
            if n == 1 {
                VlanTest::Untagged
            } else {
                VlanTest::Any
            }
        }
        _ => VlanTest::Any,
    }
}

fn proto(value: Option<Value>) -> Option<Proto>
    ensures { result ≡ proto_of value }
{
    match value {
        Some(Value::Word(n)) => match n {
            0 => Some(Proto::Ipv4),
            1 => Some(Proto::Ipv6),
            2 => Some(Proto::Mpls),
            3 => Some(Proto::Other),
            _ => None,
        },
        _ => None,
    }
}

fn prefix(value: Option<Value>) -> Option<Prefix>
    ensures { result ≡ prefix_in value }
{
    match value {
        Some(Value::Prefix(prefix)) => Some(prefix),
        _ => None,
    }
}

fn pipe(value: Option<Value>) -> PipeChoice
    requires { FitsPipe (pipe_choice_of value) }
    ensures { result ≡ pipe_choice_of value }
{
    match value {
        Some(Value::Number(n)) => PipeChoice::Fixed(n as u32),
        Some(Value::Word(n)) => {
            if n == 0 {
                PipeChoice::Vlan
            } else {
                PipeChoice::Host
            }
        }
        _ => PipeChoice::Host,
    }
}

fn code(value: Option<Value>) -> CodeChoice
    ensures { result ≡ code_choice_of value }
{
    match value {
        Some(Value::Entry(entry)) => CodeChoice::Fixed(entry),
        _ => CodeChoice::Dscp,
    }
}

// The number of the meter of this name: how many meters stand before it.
fn meter_number(sections: &[Section], name: &Name) -> u32
    requires { length sections.now ≤ MAX_TEXT }
    ensures { result ≡ meter_number sections.now name.now }
{
    let head = Head::Meter(*name);
    let mut number = 0;
    for section in sections {
        if is_meter(&section.head) {
            if same_head(&section.head, &head) {
                return number;
            }
            number += 1;
        }
    }
    number
}

fn meter(sections: &[Section], value: Option<Value>) -> Option<u32>
    requires { length sections.now ≤ MAX_TEXT }
    ensures { result ≡ meter_in sections.now value }
{
    match value {
        Some(Value::Name(name)) => Some(meter_number(sections, &name)),
        _ => None,
    }
}

#[tactic(auto, unfolding(crate::specs::Planned::rule_of))]
fn rule(sections: &[Section], number: u64) -> RulePlan
    requires count { length sections.now ≤ MAX_TEXT }
    requires number { number < 256 }
    requires fits { FitsRule (rule_of sections.now number (facts_at sections.now (Head.Rule number))) }
    ensures { result ≡ rule_of sections.now number (facts_at sections.now (Head.Rule number)) }
{
    let facts = facts_at(sections, &Head::Rule(number));
    RulePlan {
        number: number as u32,
        input: input(value_at(facts, 0, 0)),
        vlan: vlan(value_at(facts, 1, 0)),
        proto: proto(value_at(facts, 2, 0)),
        src: prefix(value_at(facts, 3, 0)),
        dst: prefix(value_at(facts, 4, 0)),
        port: number_at(facts, 5, 0, 0) as u32,
        subport: number_at(facts, 6, 0, 0) as u32,
        pipe: pipe(value_at(facts, 7, 0)),
        code: code(value_at(facts, 8, 0)),
        meter: meter(sections, value_at(facts, 9, 0)),
    }
}

/// The rules by number.
pub(crate) fn rules(alloc: Global, sections: &[Section]) -> Result<Sequence<RulePlan>, NoMemory>
    requires count { length sections.now ≤ MAX_TEXT }
    requires fits { FitRules sections.now }
    ensures { IfOk result (λ rules. rules ≡ rules_of sections.now) }
{
    let mut rules = Vec::new(alloc);
    for number in 0..256 {
        if is_there(sections, &Head::Rule(number)) {
            add(&mut rules, rule(sections, number))?;
        }
    }
    Ok(Sequence::of(rules))
}
