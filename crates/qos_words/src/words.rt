//! The words of the command line.
ghost use Rattle.std.specs.Prelude.{◌≡◌, ◌++◌, map, string_bytes};
ghost use Rattle.std.specs.List.{list_any};
ghost use Rattle.std.specs.Str.{bytes_eq};
ghost use Rattle.qos_words.specs.Words.{Asked, is_name, is_output, keeps_rules, asked_with, are_options, asked_of};

use crate::names::ENDINGS;
use std::marker::Model;

/// A run that the command line asks for: one capture through the ports of a profile.
#[derive(Debug, Drop)]
pub struct RunWords<'a> {
    /// The name of the profile to read.
    pub profile: &'a str,
    /// What the name of each capture that is created begins with.
    pub prefix: &'a str,
    /// The name of the capture to read.
    pub capture: &'a str,
}

impl<'a> Model for RunWords<'a> {
    ghost Value = { Asked };

    ghost view = { λ w. record { profile = w.profile.now; prefix = w.prefix.now; capture = w.capture.now } };
}

/// The run that the words after the program's name ask for. They are just `run --profile FILE --out PREFIX CAPTURE`,
/// with the two options in either order; anything else is `None`, a faulty command line.
///
/// The three names are not empty and do not begin with `-`, and neither FILE nor CAPTURE is the name of an output,
/// `PREFIX.0.pcap` to `PREFIX.15.pcap`. No memory is taken.
pub fn read_words(words: &[String]) -> Option<RunWords<'_>>
    ensures exact { result ≡ asked_of (map string_bytes words.now) }
{
    if words.len() != 6 {
        return None;
    }
    let (run, first, second) = (words[0].as_str(), words[1].as_str(), words[3].as_str());
    let (a, b, capture) = (words[2].as_str(), words[4].as_str(), words[5].as_str());
    if are_options(run, first, second) {
        read_names(a, b, capture)
    } else if are_options(run, second, first) {
        read_names(b, a, capture)
    } else {
        None
    }
}

fn are_options(run: &str, profile: &str, out: &str) -> bool
    ensures { result ≡ are_options run.now profile.now out.now }
{
    run == "run" && profile == "--profile" && out == "--out"
}

#[tactic(auto, unfolding(crate::specs::Words::asked_with))]
fn read_names<'a>(profile: &'a str, prefix: &'a str, capture: &'a str) -> Option<RunWords<'a>>
    ensures { result ≡ asked_with profile.now prefix.now capture.now }
{
    let are_names = is_name(profile) && is_name(prefix) && is_name(capture);
    if are_names && !is_output(prefix, profile) && !is_output(prefix, capture) {
        Some(RunWords {
            profile,
            prefix,
            capture,
        })
    } else {
        None
    }
}

fn is_name(word: &str) -> bool
    ensures { result ≡ is_name word.now }
{
    match word.as_bytes() {
        [] => false,
        [first, ..] => *first != b'-',
    }
}

fn is_output(prefix: &str, name: &str) -> bool
    ensures { result ≡ is_output prefix.now name.now }
{
    is_joined_with_any(prefix, &ENDINGS, name)
}

fn is_joined_with_any(prefix: &str, endings: &[&str], name: &str) -> bool
    ensures { result ≡ list_any (λ ending. bytes_eq name.now (prefix.now ++ ending.now)) endings.now }
{
    endings.iter().any(|ending| is_joined(prefix, ending, name))
}

// Each part of the name is compared in its place, so that no name is built.
fn is_joined(prefix: &str, ending: &str, name: &str) -> bool
    ensures { result ≡ bytes_eq name.now (prefix.now ++ ending.now) }
{
    match name.as_bytes().strip_prefix(prefix.as_bytes()) {
        Some(rest) => rest == ending.as_bytes(),
        None => false,
    }
}
