//! The sections `[rule N]`.
ghost use Rattle.std.specs.Prelude.{◌≡◌, ◌++◌, ◌∷◌, [], ◌<◌, All, IfSome, codes, length, map, OnOk};
ghost use Rattle.std.specs.List.{flat_map};
ghost use Rattle.profile_lines.specs.Lines.{Entry};
ghost use Rattle.profile_print.specs.Written.{line_text, key_text, block_text};
ghost use Rattle.profile_print.specs.Text.{input_word, vlan_word, proto_word, prefix_or_any_word, pipe_word, code_words, test_keys, target_keys, meter_keys, rule_block};
ghost use Rattle.profile_print.specs.View.{word_of};

use crate::codes::entry_words;
use crate::text::Text;
use crate::text::Word::{self, Address, Is, Name, Number};
use profile_plan::{CodeChoice, MeterPlan, PipeChoice, Prefix, Proto, RulePlan, VlanTest};
use qos_base::NoMemory;

pub(crate) fn write_rules(
    text: &mut Text,
    meters: &[MeterPlan],
    rules: &[RulePlan],
) -> Result<(), NoMemory>
    requires { All (λ r. IfSome r.meter (λ n. n < length meters.now)) rules.now }
    ensures { OnOk result (text.new ≡ text.old ++ flat_map block_text (map (rule_block meters.now) rules.now)) }
{
    for rule in rules {
        write_rule(text, meters, rule)?;
    }
    Ok(())
}

#[tactic(auto, unfolding(crate::specs::Text::rule_block))]
fn write_rule(text: &mut Text, meters: &[MeterPlan], rule: &RulePlan) -> Result<(), NoMemory>
    requires { IfSome rule.now.meter (λ n. n < length meters.now) }
    ensures { OnOk result (text.new ≡ text.old ++ block_text (rule_block meters.now rule.now)) }
{
    text.head(&[Is("rule"), Number(u64::from(rule.number))])?;
    write_tests(text, rule)?;
    write_target(text, rule)?;
    write_code(text, rule.code)?;
    write_meter_name(text, meters, rule.meter)?;
    Ok(())
}

// What a packet must have.
fn write_tests(text: &mut Text, rule: &RulePlan) -> Result<(), NoMemory>
    ensures { OnOk result (text.new ≡ text.old ++ flat_map key_text (test_keys rule.now)) }
{
    text.word("input", input_word(rule.input))?;
    text.word("vlan", vlan_word(rule.vlan))?;
    text.word("proto", Is(proto_word(rule.proto)))?;
    text.word("src", prefix_or_any_word(rule.src))?;
    text.word("dst", prefix_or_any_word(rule.dst))
}

// Where it goes.
fn write_target(text: &mut Text, rule: &RulePlan) -> Result<(), NoMemory>
    ensures { OnOk result (text.new ≡ text.old ++ flat_map key_text (target_keys rule.now)) }
{
    text.number(&[Is("port")], u64::from(rule.port))?;
    text.number(&[Is("subport")], u64::from(rule.subport))?;
    text.word("pipe", pipe_word(rule.pipe))
}

fn input_word(input: Option<u32>) -> Word<'static>
    ensures { word_of result ≡ input_word input }
{
    match input {
        Some(n) => Number(u64::from(n)),
        None => Is("any"),
    }
}

fn vlan_word(vlan: VlanTest) -> Word<'static>
    ensures { word_of result ≡ vlan_word vlan }
{
    match vlan {
        VlanTest::Any => Is("any"),
        VlanTest::Untagged => Is("none"),
        VlanTest::Id(n) => Number(u64::from(n)),
    }
}

fn proto_word(proto: Option<Proto>) -> &'static str
    ensures { result.now ≡ proto_word proto }
{
    match proto {
        None => "any",
        Some(Proto::Ipv4) => "ipv4",
        Some(Proto::Ipv6) => "ipv6",
        Some(Proto::Mpls) => "mpls",
        Some(Proto::Other) => "other",
    }
}

fn prefix_or_any_word(prefix: Option<Prefix>) -> Word<'static>
    ensures { word_of result ≡ prefix_or_any_word prefix }
{
    match prefix {
        Some(prefix) => Address(prefix),
        None => Is("any"),
    }
}

fn pipe_word(pipe: PipeChoice) -> Word<'static>
    ensures { word_of result ≡ pipe_word pipe }
{
    match pipe {
        PipeChoice::Fixed(n) => Number(u64::from(n)),
        PipeChoice::Vlan => Is("vlan"),
        PipeChoice::Host => Is("host"),
    }
}

fn write_code(text: &mut Text, code: CodeChoice) -> Result<(), NoMemory>
    ensures { OnOk result (text.new ≡ text.old ++ line_text (Entry (codes "code" ∷ []) (code_words code))) }
{
    match code {
        CodeChoice::Dscp => text.word("code", Is("dscp")),
        CodeChoice::Fixed(entry) => {
            let [class, queue, colour] = entry_words(entry);
            text.entry(&[Is("code")], &[Is("fixed"), class, queue, colour])
        }
    }
}

fn write_meter_name(
    text: &mut Text,
    meters: &[MeterPlan],
    meter: Option<u32>,
) -> Result<(), NoMemory>
    requires { IfSome meter (λ n. n < length meters.now) }
    ensures { OnOk result (text.new ≡ text.old ++ flat_map key_text (meter_keys meters.now meter)) }
{
    match meter {
        Some(n) => text.word("meter", Name(meters[n as usize].name.as_slice())),
        None => Ok(()),
    }
}
