//! What a key line gives in its section, or its fault.
ghost use Rattle.std.specs.Prelude.{◌≡◌, map, Err, Ok};
ghost use Rattle.qos_profile.specs.Table.{Key, row_view};
ghost use Rattle.qos_profile.specs.Facts.{keys_of, slots_of, range_in, twice_that, told_by, is_listed, worse, fact_with, given_by, given, mode_of, unless_twice, begins_well, fact_in};

use crate::fault::FaultKind;
use crate::head::{Head, number_at_most};
use crate::matching::{fits, word_in_place};
use crate::section::Facts;
use crate::table::*;
use crate::value::{Value, read_value};
use profile_lines::read_range;

/// What a key line gives: slots of a group, and their value.
#[derive(Clone, Copy)]
pub(crate) struct Fact {
    pub line: u32,
    pub group: u8,
    pub first: u64,
    pub last: u64,
    /// The form or kind of the section that it tells.
    pub told: Option<usize>,
    pub value: Value,
}

/// The keys of a section.
pub(crate) fn rows_of(head: &Head) -> &'static [Row]
    ensures { map row_view result.now ≡ keys_of head.now }
{
    match head {
        Head::Pool => pool_rows(),
        Head::Port(_) => port_rows(),
        Head::SubportKind(_) => subport_kind_rows(),
        Head::PipeKind(_) => pipe_kind_rows(),
        Head::Subport(_, _) => subport_rows(),
        Head::Codes => code_rows(),
        Head::Meter(_) => meter_rows(),
        Head::Rule(_) => rule_rows(),
        Head::Red => &[],
    }
}

fn range_in(most: u64, range: Option<(u64, u64)>) -> Result<(u64, u64), FaultKind>
    ensures { result ≡ range_in most range }
{
    match range {
        Some((first, last)) => {
            if first <= last && last <= most {
                Ok((first, last))
            } else {
                Err(FaultKind::OutOfRange)
            }
        }
        None => Err(FaultKind::BadNumber),
    }
}

fn twice_that(number: Result<u64, FaultKind>) -> Result<(u64, u64), FaultKind>
    ensures { result ≡ twice_that number }
{
    match number {
        Ok(n) => Ok((n, n)),
        Err(fault) => Err(fault),
    }
}

fn slots_of(place: Place, first: u64, last: u64, word: &[u8]) -> Result<(u64, u64), FaultKind>
    ensures { result ≡ slots_of place (first, last) word.now }
{
    match place {
        Place::Nothing => Ok((first, last)),
        Place::Range(most) => range_in(most, read_range(word)),
        Place::One(most) => twice_that(number_at_most(most, word)),
    }
}

fn told_by(only: Only, value: Value) -> Option<usize>
    ensures { result ≡ told_by only value }
{
    match only {
        Only::All => None,
        Only::In(mode) => Some(mode),
        Only::NotIn(_) => None,
        Only::Told => match value {
            Value::Word(n) => Some(n),
            _ => None,
        },
    }
}

fn is_listed(only: Only, mode: Option<usize>) -> bool
    ensures { result ≡ is_listed only mode }
{
    match mode {
        None => true,
        Some(mode) => match only {
            Only::All => true,
            Only::In(other) => other == mode,
            Only::NotIn(other) => other != mode,
            Only::Told => true,
        },
    }
}

fn fact_with(
    line: u32,
    row: &Row,
    slots: Result<(u64, u64), FaultKind>,
    value: Result<Value, FaultKind>,
) -> Result<Fact, FaultKind>
    ensures { result ≡ fact_with line (row_view row.now) slots value }
{
    match slots {
        Ok((first, last)) => match value {
            Ok(value) => Ok(Fact {
                line,
                group: row.group,
                first,
                last,
                told: told_by(row.only, value),
                value,
            }),
            Err(fault) => Err(fault),
        },
        Err(fault) => Err(worse(fault, value)),
    }
}

// The fault of the slots, unless the value is no number.
fn worse(fault: FaultKind, value: Result<Value, FaultKind>) -> FaultKind
    ensures { result ≡ worse fault value }
{
    match value {
        Err(FaultKind::BadNumber) => FaultKind::BadNumber,
        _ => fault,
    }
}

fn given_by(line: u32, words: &[&[u8]], value: &[&[u8]], row: &Row) -> Result<Fact, FaultKind>
    ensures { result ≡ given_by line (map (λ w. w.now) words.now) (map (λ w. w.now) value.now) (row_view row.now) }
{
    let word = word_in_place(row.words, words);
    let slots = slots_of(row.place, row.first, row.last, word);
    fact_with(line, row, slots, read_value(&row.shape, value))
}

#[tactic(auto, unfolding(crate::specs::Facts::given))]
fn read_given(
    rows: &[Row],
    mode: Option<usize>,
    line: u32,
    words: &[&[u8]],
    value: &[&[u8]],
) -> Result<Fact, FaultKind>
    ensures { result ≡ given (map row_view rows.now) mode line (map (λ w. w.now) words.now) (map (λ w. w.now) value.now) }
{
    for row in rows {
        if fits(row.words, words) {
            if !is_listed(row.only, mode) {
                return Err(FaultKind::UnknownKey);
            }
            return given_by(line, words, value, row);
        }
    }
    Err(FaultKind::UnknownKey)
}

/// The form or kind of a section: what the first of its lines that tells says.
pub(crate) fn mode_of(facts: &[Fact]) -> Option<usize>
    ensures { result ≡ mode_of facts.now }
{
    for fact in facts {
        if fact.told.is_some() {
            return fact.told;
        }
    }
    None
}

fn begins_well(head: &Head, earlier: &[Fact], words: &[&[u8]]) -> bool
    ensures { result ≡ begins_well head.now earlier.now (map (λ w. w.now) words.now) }
{
    match head {
        Head::Meter(_) => !earlier.is_empty() || fits(&["kind"], words),
        _ => true,
    }
}

/// What a key line gives in a section with these facts before it, or its fault.
#[tactic(auto, unfolding(crate::specs::Facts::fact_in))]
pub(crate) fn read_fact(
    head: &Head,
    earlier: &Facts,
    line: u32,
    words: &[&[u8]],
    value: &[&[u8]],
) -> Result<Fact, FaultKind>
    ensures { result ≡ fact_in head.now earlier.now line (map (λ w. w.now) words.now) (map (λ w. w.now) value.now) }
{
    if !begins_well(head, earlier.as_slice(), words) {
        return Err(FaultKind::BadLine);
    }
    match read_given(rows_of(head), earlier.mode(), line, words, value) {
        Ok(fact) => {
            if earlier.any_overlaps(&fact) {
                Err(FaultKind::Twice)
            } else {
                Ok(fact)
            }
        }
        Err(fault) => Err(fault),
    }
}
