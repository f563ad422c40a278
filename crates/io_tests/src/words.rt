//! The words of the command line, and the names of outputs.
use crate::check::{same, text};
use qos_words::{output_names, read_words};
use std::process::Abort;

// A line of words, and the profile, the prefix and the capture that it asks for.
const LINES: &[(&str, Option<(&str, &str, &str)>)] = &[
    ("run --profile p --out o a", Some(("p", "o", "a"))),
    ("run --out o --profile p a", Some(("p", "o", "a"))),
    ("run --profile p --out o p", Some(("p", "o", "p"))),
    (
        "run --profile p --out o o.16.pcap",
        Some(("p", "o", "o.16.pcap")),
    ),
    ("", None),
    ("run --help", None),
    ("run --profile p", None),
    ("run --profile p --out o", None),
    ("run --profile p --out o a b", None),
    ("run --profile p --out o --out q a", None),
    ("run --out o --out q a", None),
    ("run --cores 0 --profile p --out o a", None),
    ("run --profile p a --out o", None),
    ("walk --profile p --out o a", None),
    ("run --profile  --out o a", None),
    ("run --profile p --out  a", None),
    ("run --profile p --out o ", None),
    ("run --profile p --out -o a", None),
    ("run --profile --profile --out o a", None),
    ("run --profile p.0.pcap --out p a", None),
    ("run --profile p --out o o.15.pcap", None),
];

// The words of a line stand one blank apart, so that two blanks have an empty word between them.
fn words_of<R: Abort + AllocGlobal>(rt: &R, line: &str) -> Vec<String> {
    let mut words = Vec::new(rt.alloc());
    for word in line.split(' ') {
        words.push(text(rt, word)).expect(rt, "memory");
    }
    words
}

fn asked(words: &[String]) -> Option<(&str, &str, &str)> {
    match read_words(words) {
        Some(run) => Some((run.profile, run.prefix, run.capture)),
        None => None,
    }
}

fn asks<R: Abort + AllocGlobal>(rt: &R, row: &(&str, Option<(&str, &str, &str)>)) {
    let (line, wanted) = row;
    let words = words_of(rt, line);
    same(rt, &asked(&words), wanted, line);
}

fn asks_nothing(rt: &impl Abort) {
    same(rt, &asked(&[]), &None, "no words");
}

#[test]
fn words_ask_for_a_run(rt: HostRuntime) {
    for line in LINES {
        asks(&rt, line);
    }
    asks_nothing(&rt);
}

fn names<R: Abort + AllocGlobal>(rt: &R, prefix: &str, ports: usize) -> Vec<String> {
    assert!(rt; ports <= 16);
    output_names(rt.alloc(), prefix, ports).expect(rt, "memory")
}

fn are_named<R: Abort + AllocGlobal>(rt: &R, ports: usize, line: &str) {
    same(rt, &names(rt, "dir/o", ports), &words_of(rt, line), line);
}

fn all_are_named<R: Abort + AllocGlobal>(rt: &R) {
    let all = names(rt, "o", 16);
    let seen = (all.len(), all.last().map(|name| name.as_str()));
    same(rt, &seen, &(16, Some("o.15.pcap")), "all ports");
}

#[test]
fn outputs_have_names(rt: HostRuntime) {
    are_named(&rt, 1, "dir/o.0.pcap");
    are_named(&rt, 3, "dir/o.0.pcap dir/o.1.pcap dir/o.2.pcap");
    all_are_named(&rt);
}
