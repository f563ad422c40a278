//! The heads of sections.
ghost use Rattle.std.specs.Prelude.{◌≡◌, map};
ghost use Rattle.qos_profile.specs.Values.{in_range};
ghost use Rattle.qos_profile.specs.Sections.{is_red};
ghost use Rattle.qos_profile.specs.Heads.{head_of, later_head_of, last_head_of, number_at_most, numbered, subport_head, meter_head};

use crate::fault::FaultKind;
use crate::matching::{fits, word_at};
use crate::name::Name;
use crate::value::in_range;
use profile_lines::read_number;

/// Which section it is.
#[derive(Clone, Copy, PartialEq, Eq, Hash)]
pub(crate) enum Head {
    Pool,
    Port(u64),
    SubportKind(u64),
    PipeKind(u64),
    /// A port, and a subport of it.
    Subport(u64, u64),
    Codes,
    Meter(Name),
    Rule(u64),
    /// A section that is skipped.
    Red,
}

/// The head that the words between brackets write.
#[tactic(auto, unfolding(crate::specs::Heads::head_of))]
pub(crate) fn read_head(words: &[&[u8]]) -> Result<Head, FaultKind>
    ensures { result ≡ head_of (map (λ w. w.now) words.now) }
{
    if fits(&["pool"], words) {
        return Ok(Head::Pool);
    }
    if fits(&["port", ""], words) {
        return port_head(number_at_most(15, word_at(words, 1)));
    }
    if fits(&["subport", "profile", ""], words) {
        return subport_kind_head(number_at_most(63, word_at(words, 2)));
    }
    read_later_head(words)
}

fn read_later_head(words: &[&[u8]]) -> Result<Head, FaultKind>
    ensures { result ≡ later_head_of (map (λ w. w.now) words.now) }
{
    if fits(&["subport", "", ""], words) {
        return subport_head(
            read_number(word_at(words, 1)),
            read_number(word_at(words, 2)),
        );
    }
    if fits(&["pipe", "profile", ""], words) {
        return pipe_kind_head(number_at_most(255, word_at(words, 2)));
    }
    if fits(&["codes", "dscp"], words) {
        return Ok(Head::Codes);
    }
    read_last_head(words)
}

fn read_last_head(words: &[&[u8]]) -> Result<Head, FaultKind>
    ensures { result ≡ last_head_of (map (λ w. w.now) words.now) }
{
    if fits(&["meter", ""], words) {
        return meter_head(Name::of(word_at(words, 1)));
    }
    if fits(&["rule", ""], words) {
        return rule_head(number_at_most(255, word_at(words, 1)));
    }
    if fits(&["red"], words) {
        return Ok(Head::Red);
    }
    Err(FaultKind::UnknownKey)
}

pub(crate) fn number_at_most(most: u64, word: &[u8]) -> Result<u64, FaultKind>
    ensures { result ≡ number_at_most most word.now }
{
    in_range(0, most, read_number(word))
}

fn subport_head(port: Option<u64>, subport: Option<u64>) -> Result<Head, FaultKind>
    ensures { result ≡ subport_head port subport }
{
    let Some(port) = port else {
        return Err(FaultKind::BadNumber);
    };
    let Some(subport) = subport else {
        return Err(FaultKind::BadNumber);
    };
    Ok(Head::Subport(port, subport))
}

fn meter_head(name: Option<Name>) -> Result<Head, FaultKind>
    ensures { result ≡ meter_head name }
{
    match name {
        Some(name) => Ok(Head::Meter(name)),
        None => Err(FaultKind::BadNumber),
    }
}

fn port_head(number: Result<u64, FaultKind>) -> Result<Head, FaultKind>
    ensures { result ≡ numbered Head.Port number }
{
    match number {
        Ok(n) => Ok(Head::Port(n)),
        Err(fault) => Err(fault),
    }
}

fn subport_kind_head(number: Result<u64, FaultKind>) -> Result<Head, FaultKind>
    ensures { result ≡ numbered Head.SubportKind number }
{
    match number {
        Ok(n) => Ok(Head::SubportKind(n)),
        Err(fault) => Err(fault),
    }
}

fn pipe_kind_head(number: Result<u64, FaultKind>) -> Result<Head, FaultKind>
    ensures { result ≡ numbered Head.PipeKind number }
{
    match number {
        Ok(n) => Ok(Head::PipeKind(n)),
        Err(fault) => Err(fault),
    }
}

fn rule_head(number: Result<u64, FaultKind>) -> Result<Head, FaultKind>
    ensures { result ≡ numbered Head.Rule number }
{
    match number {
        Ok(n) => Ok(Head::Rule(n)),
        Err(fault) => Err(fault),
    }
}

/// Whether it is the head of a section that is skipped.
pub(crate) fn is_red(head: &Head) -> bool
    ensures { result ≡ is_red head.now }
{
    matches!(head, Head::Red)
}
