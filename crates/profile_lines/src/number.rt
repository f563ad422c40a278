//! Numbers.
ghost use Rattle.std.specs.Prelude.{◌≡◌, ◌+◌, ◌*◌, ◌^◌, ◌<◌, SomeIff};
ghost use Rattle.profile_lines.specs.Numbers.{number_of, range_of, both};

use crate::split::first_place;

/// The number that a word writes: 1 to 20 decimal digits with a value below 2^64. Leading zeros are allowed.
pub fn read_number(word: &[u8]) -> Option<u64>
    ensures { result ≡ number_of word.now }
{
    if word.is_empty() || 20 < word.len() {
        return None;
    }
    let mut value: u64 = 0;
    for byte in word {
        if !byte.is_ascii_digit() {
            return None;
        }
        let Some(next) = with_digit(value, *byte - b'0') else {
            return None;
        };
        value = next;
    }
    Some(value)
}

fn with_digit(value: u64, digit: u8) -> Option<u64>
    ensures { SomeIff result (10 * value + digit < 2 ^ 64) (10 * value + digit) }
{
    value.checked_mul(10)?.checked_add(u64::from(digit))
}

/// The numbers of a range `A-B`, or the one number twice.
pub fn read_range(word: &[u8]) -> Option<(u64, u64)>
    ensures { result ≡ range_of word.now }
{
    let dash = first_place(word, b'-');
    if dash == word.len() {
        let only = read_number(word);
        return both(only, only);
    }
    both(read_number(&word[..dash]), read_number(&word[dash + 1..]))
}

fn both(first: Option<u64>, last: Option<u64>) -> Option<(u64, u64)>
    ensures { result ≡ both first last }
{
    match first {
        Some(first) => match last {
            Some(last) => Some((first, last)),
            None => None,
        },
        None => None,
    }
}
