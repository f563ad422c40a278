//! Words that are those of a pattern.
ghost use Rattle.std.specs.Prelude.{◌≡◌, ◌==◌, ◌||◌, ◌<◌, map, length};
ghost use Rattle.std.specs.Bool.{OnTrue};
ghost use Rattle.std.specs.List.{position_or_len};
ghost use Rattle.std.specs.Str.{bytes_eq};
ghost use Rattle.qos_profile.specs.Heads.{fits};
ghost use Rattle.qos_profile.specs.Facts.{word_in_place};
ghost use Rattle.qos_profile.specs.Values.{word_at, place_among, choice_of};

/// Whether the words are those of a pattern, whose empty words stand for any one.
pub(crate) fn fits(pattern: &[&str], words: &[&[u8]]) -> bool
    ensures value { result ≡ fits (map (λ p. p.now) pattern.now) (map (λ w. w.now) words.now) }
    ensures length { OnTrue result (length words.now ≡ length pattern.now) }
{
    if pattern.len() != words.len() {
        return false;
    }
    for place in 0..pattern.len() {
        if !fits_word(pattern[place], words[place]) {
            return false;
        }
    }
    true
}

fn fits_word(expected: &str, word: &[u8]) -> bool
    ensures { result ≡ (length expected.now == 0 || bytes_eq expected.now word.now) }
{
    expected.is_empty() || same_bytes(expected.as_bytes(), word)
}

/// Whether two words are the same.
pub(crate) fn same_bytes(a: &[u8], b: &[u8]) -> bool
    ensures { result ≡ bytes_eq a.now b.now }
{
    *a == *b
}

/// The word at a place.
pub(crate) fn word_at<'a>(words: &[&'a [u8]], place: usize) -> &'a [u8]
    requires { place < length words.now }
    ensures { result.now ≡ word_at (map (λ w. w.now) words.now) place }
{
    words[place]
}

/// The word that stands at a pattern's empty word, or nothing.
pub(crate) fn word_in_place<'a>(pattern: &[&str], words: &[&'a [u8]]) -> &'a [u8]
    ensures { result.now ≡ word_in_place (map (λ p. p.now) pattern.now) (map (λ w. w.now) words.now) }
{
    let place = empty_place(pattern);
    if place < words.len() {
        word_at(words, place)
    } else {
        &[]
    }
}

// The place of the first empty word, or the length where there is none.
fn empty_place(pattern: &[&str]) -> usize
    ensures { result ≡ position_or_len (λ p. length p == 0) (map (λ p. p.now) pattern.now) }
{
    for place in 0..pattern.len() {
        if pattern[place].is_empty() {
            return place;
        }
    }
    pattern.len()
}

/// The place of a word among some.
pub(crate) fn place_among(choices: &[&str], word: &[u8]) -> Option<usize>
    ensures { result ≡ place_among (map (λ w. w.now) choices.now) word.now }
{
    for place in 0..choices.len() {
        if same_bytes(choices[place].as_bytes(), word) {
            return Some(place);
        }
    }
    None
}

/// The same for words, of which there is one.
pub(crate) fn choice(choices: &[&str], words: &[&[u8]]) -> Option<usize>
    ensures { result ≡ choice_of (map (λ w. w.now) choices.now) (map (λ w. w.now) words.now) }
{
    if words.len() != 1 {
        return None;
    }
    place_among(choices, word_at(words, 0))
}
