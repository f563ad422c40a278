//! What the words of a value mean.
ghost use Rattle.std.specs.Prelude.{◌≡◌, ◌+◌, ◌-◌, ◌*◌, ◌/◌, ◌^◌, ◌<◌, ◌≤◌, map, length, true, is_some};
ghost use Rattle.profile_lines.specs.Numbers.{number_of};
ghost use Rattle.std.specs.Bool.{OnTrue};
ghost use Rattle.std.specs.List.{list_all};
ghost use Rattle.qos_profile.specs.Values.{in_range, number_in, as_number, as_word, numbers_in, number_or_zero, is_within, are_numbers, are_within, as_sizes, as_weights, prefix_of, prefix_at, prefix_from, prefix_with, prefix_or_any, entry_at, entry_with, entry_of, code_of, is_dscp, is_fixed, one_name, as_name, value_of, is_place, colour_at, masked, address_of};
ghost use Rattle.qos_profile.specs.Table.{form_view};

use crate::fault::FaultKind;
use crate::matching::{choice, place_among, same_bytes, word_at};
use crate::name::Name;
use crate::table::Shape;
use code_table::Entry;
use profile_lines::{cut, read_number};
use profile_plan::{MAX_QUEUE, Prefix};
use qos_base::Colour;

/// A value that a key line gives.
#[derive(Clone, Copy)]
pub(crate) enum Value {
    Number(u64),
    /// The place of a word among those that may stand there.
    Word(usize),
    Sizes([u32; 13]),
    Weights([u8; 4]),
    Prefix(Prefix),
    Entry(Entry),
    Name(Name),
}

/// The value that words write, by their shape.
#[tactic(auto, unfolding(crate::specs::Values::value_of))]
pub(crate) fn read_value(shape: &Shape, words: &[&[u8]]) -> Result<Value, FaultKind>
    ensures { result ≡ value_of (form_view shape.now) (map (λ w. w.now) words.now) }
{
    match *shape {
        Shape::Number(least, most) => as_number(number_in(least, most, words)),
        Shape::Word(choices) => as_word(choice(choices, words), Err(FaultKind::BadNumber)),
        Shape::NumberOr(least, most, choices) => as_word(
            choice(choices, words),
            as_number(number_in(least, most, words)),
        ),
        Shape::Sizes => read_sizes(words),
        Shape::Weights => read_weights(words),
        Shape::Address => prefix_or_any(words),
        Shape::Mark => read_entry(words),
        Shape::Code => read_code(words),
        Shape::Named => one_name(words),
    }
}

/// A number that may be missing, in its range.
pub(crate) fn in_range(least: u64, most: u64, number: Option<u64>) -> Result<u64, FaultKind>
    ensures { result ≡ in_range least most number }
{
    match number {
        Some(n) => {
            if least <= n && n <= most {
                Ok(n)
            } else {
                Err(FaultKind::OutOfRange)
            }
        }
        None => Err(FaultKind::BadNumber),
    }
}

fn number_in(least: u64, most: u64, words: &[&[u8]]) -> Result<u64, FaultKind>
    ensures { result ≡ number_in least most (map (λ w. w.now) words.now) }
{
    if words.len() != 1 {
        return Err(FaultKind::BadNumber);
    }
    in_range(least, most, read_number(word_at(words, 0)))
}

fn as_number(number: Result<u64, FaultKind>) -> Result<Value, FaultKind>
    ensures { result ≡ as_number number }
{
    match number {
        Ok(n) => Ok(Value::Number(n)),
        Err(fault) => Err(fault),
    }
}

fn as_word(place: Option<usize>, other: Result<Value, FaultKind>) -> Result<Value, FaultKind>
    ensures { result ≡ as_word place other }
{
    match place {
        Some(n) => Ok(Value::Word(n)),
        None => other,
    }
}

fn one_name(words: &[&[u8]]) -> Result<Value, FaultKind>
    ensures { result ≡ one_name (map (λ w. w.now) words.now) }
{
    if words.len() != 1 {
        return Err(FaultKind::BadNumber);
    }
    match Name::of(word_at(words, 0)) {
        Some(name) => Ok(Value::Name(name)),
        None => Err(FaultKind::BadNumber),
    }
}

const COLOURS: [&str; 3] = ["green", "yellow", "red"];

#[tactic(auto, unfolding(crate::specs::Values::entry_of))]
fn read_entry(words: &[&[u8]]) -> Result<Value, FaultKind>
    ensures { result ≡ entry_of (map (λ w. w.now) words.now) }
{
    if words.len() != 3 {
        return Err(FaultKind::BadNumber);
    }
    entry_at(word_at(words, 0), word_at(words, 1), word_at(words, 2))
}

fn entry_at(class: &[u8], queue: &[u8], colour: &[u8]) -> Result<Value, FaultKind>
    ensures { result ≡ entry_at class.now queue.now colour.now }
{
    entry_with(
        read_number(class),
        read_number(queue),
        place_among(&COLOURS, colour),
    )
}

fn entry_with(
    class: Option<u64>,
    queue: Option<u64>,
    colour: Option<usize>,
) -> Result<Value, FaultKind>
    ensures { result ≡ entry_with class queue colour }
{
    let Some(class) = class else {
        return Err(FaultKind::BadNumber);
    };
    let Some(queue) = queue else {
        return Err(FaultKind::BadNumber);
    };
    let Some(colour) = colour else {
        return Err(FaultKind::BadNumber);
    };
    if !is_place(class, queue) {
        return Err(FaultKind::OutOfRange);
    }
    Ok(Value::Entry(Entry {
        class: class as u8,
        queue: queue as u8,
        colour: colour_at(colour),
    }))
}

fn is_place(class: u64, queue: u64) -> bool
    ensures value { result ≡ is_place class queue }
    ensures class { OnTrue result (class ≤ 12) }
    ensures queue { OnTrue result (queue ≤ 3) }
{
    class < 12 && queue == 0 || class == 12 && queue <= 3
}

fn colour_at(place: usize) -> Colour
    ensures { result ≡ colour_at place }
{
    match place {
        0 => Colour::Green,
        1 => Colour::Yellow,
        _ => Colour::Red,
    }
}

#[tactic(auto, unfolding(crate::specs::Values::code_of))]
fn read_code(words: &[&[u8]]) -> Result<Value, FaultKind>
    ensures { result ≡ code_of (map (λ w. w.now) words.now) }
{
    if is_dscp(words) {
        return Ok(Value::Word(0));
    }
    if is_fixed(words) {
        return entry_at(word_at(words, 1), word_at(words, 2), word_at(words, 3));
    }
    Err(FaultKind::BadNumber)
}

fn is_dscp(words: &[&[u8]]) -> bool
    ensures { result ≡ is_dscp (map (λ w. w.now) words.now) }
{
    words.len() == 1 && same_bytes(word_at(words, 0), b"dscp")
}

fn is_fixed(words: &[&[u8]]) -> bool
    ensures value { result ≡ is_fixed (map (λ w. w.now) words.now) }
    ensures count { OnTrue result (length words.now ≡ 4) }
{
    words.len() == 4 && same_bytes(word_at(words, 0), b"fixed")
}

// So many words, each a number in its range.
fn are_numbers(count: usize, words: &[&[u8]]) -> bool
    ensures { result ≡ are_numbers count (map (λ w. w.now) words.now) }
{
    words.len() == count && all_numbers(words)
}

fn all_numbers(words: &[&[u8]]) -> bool
    ensures { result ≡ list_all (λ w. is_some (number_of w.now)) words.now }
{
    words.iter().all(|word| read_number(word).is_some())
}

fn are_within(least: u64, most: u64, words: &[&[u8]]) -> bool
    ensures { result ≡ are_within least most (map (λ w. w.now) words.now) }
{
    all_within(least, most, words)
}

fn all_within(least: u64, most: u64, words: &[&[u8]]) -> bool
    ensures { result ≡ list_all (λ w. is_within least most (number_or_zero w.now)) words.now }
{
    words
        .iter()
        .all(|word| is_within(least, most, number_or_zero(word)))
}

fn is_within(least: u64, most: u64, n: u64) -> bool
    ensures { result ≡ is_within least most n }
{
    least <= n && n <= most
}

fn number_or_zero(word: &[u8]) -> u64
    ensures { result ≡ number_or_zero word.now }
{
    read_number(word).unwrap_or(0)
}

#[tactic(auto, unfolding(crate::specs::Values::numbers_in))]
fn read_sizes(words: &[&[u8]]) -> Result<Value, FaultKind>
    ensures { result ≡ as_sizes (numbers_in 13 0 MAX_QUEUE (map (λ w. w.now) words.now)) }
{
    if !are_numbers(13, words) {
        return Err(FaultKind::BadNumber);
    }
    if !are_within(0, MAX_QUEUE, words) {
        return Err(FaultKind::OutOfRange);
    }
    Ok(Value::Sizes(sizes(words)))
}

fn sizes(words: &[&[u8]]) -> [u32; 13]
    requires count { length words.now ≡ 13 }
    requires limits { are_within 0 MAX_QUEUE (map (λ w. w.now) words.now) ≡ true }
    ensures { result ≡ map number_or_zero (map (λ w. w.now) words.now) }
{
    let mut sizes = [0; 13];
    for place in 0..13 {
        sizes[place] = number_or_zero(word_at(words, place)) as u32;
    }
    sizes
}

#[tactic(auto, unfolding(crate::specs::Values::numbers_in))]
fn read_weights(words: &[&[u8]]) -> Result<Value, FaultKind>
    ensures { result ≡ as_weights (numbers_in 4 1 255 (map (λ w. w.now) words.now)) }
{
    if !are_numbers(4, words) {
        return Err(FaultKind::BadNumber);
    }
    if !are_within(1, 255, words) {
        return Err(FaultKind::OutOfRange);
    }
    Ok(Value::Weights(weights(words)))
}

fn weights(words: &[&[u8]]) -> [u8; 4]
    requires count { length words.now ≡ 4 }
    requires limits { are_within 1 255 (map (λ w. w.now) words.now) ≡ true }
    ensures { result ≡ map number_or_zero (map (λ w. w.now) words.now) }
{
    let mut weights = [0; 4];
    for place in 0..4 {
        weights[place] = number_or_zero(word_at(words, place)) as u8;
    }
    weights
}

#[tactic(auto, unfolding(crate::specs::Values::prefix_or_any))]
fn prefix_or_any(words: &[&[u8]]) -> Result<Value, FaultKind>
    ensures { result ≡ prefix_or_any (map (λ w. w.now) words.now) }
{
    if words.len() != 1 {
        return Err(FaultKind::BadNumber);
    }
    if same_bytes(word_at(words, 0), b"any") {
        return Ok(Value::Word(0));
    }
    read_prefix(word_at(words, 0))
}

fn read_prefix(word: &[u8]) -> Result<Value, FaultKind>
    ensures { result ≡ prefix_of word.now }
{
    let (address, bits) = cut(word, b'/');
    prefix_at(address, bits)
}

fn prefix_at(address: &[u8], bits: &[u8]) -> Result<Value, FaultKind>
    ensures { result ≡ prefix_at address.now bits.now }
{
    let (a, rest) = cut(address, b'.');
    let (b, rest) = cut(rest, b'.');
    let (c, d) = cut(rest, b'.');
    prefix_from(a, b, c, d, bits)
}

fn prefix_from(a: &[u8], b: &[u8], c: &[u8], d: &[u8], bits: &[u8]) -> Result<Value, FaultKind>
    ensures { result ≡ prefix_from a.now b.now c.now d.now bits.now }
{
    prefix_with(
        read_number(a),
        read_number(b),
        read_number(c),
        read_number(d),
        read_number(bits),
    )
}

fn prefix_with(
    a: Option<u64>,
    b: Option<u64>,
    c: Option<u64>,
    d: Option<u64>,
    bits: Option<u64>,
) -> Result<Value, FaultKind>
    ensures { result ≡ prefix_with a b c d bits }
{
    let Some(a) = a else {
        return Err(FaultKind::BadNumber);
    };
    let Some(b) = b else {
        return Err(FaultKind::BadNumber);
    };
    let Some(c) = c else {
        return Err(FaultKind::BadNumber);
    };
    let Some(d) = d else {
        return Err(FaultKind::BadNumber);
    };
    let Some(bits) = bits else {
        return Err(FaultKind::BadNumber);
    };
    if is_octet(a) && is_octet(b) && is_octet(c) && is_octet(d) && is_length(bits) {
        Ok(Value::Prefix(Prefix {
            addr: masked(address_of(a, b, c, d), bits),
            bits: bits as u8,
        }))
    } else {
        Err(FaultKind::OutOfRange)
    }
}

fn is_octet(n: u64) -> bool
    ensures value { result ≡ is_within 0 255 n }
    ensures limit { OnTrue result (n ≤ 255) }
{
    n <= 255
}

fn is_length(n: u64) -> bool
    ensures value { result ≡ is_within 0 32 n }
    ensures limit { OnTrue result (n ≤ 32) }
{
    n <= 32
}

fn address_of(a: u64, b: u64, c: u64, d: u64) -> u64
    requires a { a ≤ 255 }
    requires b { b ≤ 255 }
    requires c { c ≤ 255 }
    requires d { d ≤ 255 }
    ensures value { result ≡ address_of a b c d }
    ensures within { result < 2 ^ 32 }
{
    ((a * 256 + b) * 256 + c) * 256 + d
}

fn masked(address: u64, bits: u64) -> u32
    requires address { address < 2 ^ 32 }
    requires bits { bits ≤ 32 }
    ensures { result ≡ masked address bits }
{
    let unit = 1u64 << (32 - bits);
    (address / unit * unit) as u32
}
