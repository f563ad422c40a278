//! Lines of a text, and words that are numbers.
use crate::check::same;
use profile_lines::{Line, read_line, read_number, read_range, split_line};
use std::alloc::Global;
use std::process::Abort;

// What a line is, and how many words stand in its key or head and in its value.
type Shape = (u8, usize, usize);

fn shape_of(line: &Line<'_>) -> Shape {
    match line {
        Line::NotText => (1, 0, 0),
        Line::Blank => (0, 0, 0),
        Line::Head(words) => (2, words.len(), 0),
        Line::Entry(key, value) => (3, key.len(), value.len()),
        Line::Neither => (4, 0, 0),
    }
}

static SHAPES: [(&str, Shape); 15] = [
    ("", (0, 0, 0)),
    (" \t ; a\u{e4}", (0, 0, 0)),
    ("[port 0]", (2, 2, 0)),
    ("\t[ subport\tprofile  7 ] ; x", (2, 3, 0)),
    ("[]", (2, 0, 0)),
    ("[a=b]", (2, 1, 0)),
    ("[x = 1", (3, 1, 1)),
    ("[x", (4, 0, 0)),
    ("line rate=5", (3, 2, 1)),
    ("a = b = c", (3, 1, 3)),
    ("= 1", (3, 0, 1)),
    ("a =", (3, 1, 0)),
    ("a", (4, 0, 0)),
    ("a \r", (1, 0, 0)),
    ("a\u{7f} = 1", (1, 0, 0)),
];

fn has_shape(rt: &impl Abort, alloc: Global, line: &str, shape: Shape) {
    let read = read_line(alloc, line.as_bytes()).expect(rt, "memory");
    same(rt, &shape_of(&read), &shape, line);
}

#[test]
fn lines_are_told_apart(rt: HostRuntime) {
    for (line, shape) in &SHAPES {
        has_shape(&rt, rt.alloc(), line, *shape);
    }
}

// The first line of a text, and the text after it.
fn first_line<'a>(rt: &impl Abort, text: &'a [u8]) -> (&'a [u8], &'a [u8]) {
    assert!(rt; !text.is_empty());
    split_line(text)
}

#[test]
fn a_text_has_its_lines(rt: HostRuntime) {
    let (first, rest) = first_line(&rt, b"a\r\n\r\r\nb\r");
    let (second, rest) = first_line(&rt, rest);
    let (third, rest) = first_line(&rt, rest);
    let wanted = [b"a".as_slice(), b"\r", b"b\r", b""];
    same(&rt, &[first, second, third, rest], &wanted, "lines");
}

static NUMBERS: [(&str, Option<u64>); 9] = [
    ("0", Some(0)),
    ("007", Some(7)),
    ("18446744073709551615", Some(18_446_744_073_709_551_615)),
    ("18446744073709551616", None),
    ("99999999999999999999", None),
    ("000000000000000000001", None),
    ("", None),
    ("+1", None),
    ("1x", None),
];

static RANGES: [(&str, Option<(u64, u64)>); 6] = [
    ("5", Some((5, 5))),
    ("0-12", Some((0, 12))),
    ("3-1", Some((3, 1))),
    ("-1", None),
    ("1-", None),
    ("1-2-3", None),
];

fn is_number(rt: &impl Abort, word: &str, number: Option<u64>) {
    same(rt, &read_number(word.as_bytes()), &number, word);
}

fn is_range(rt: &impl Abort, word: &str, range: Option<(u64, u64)>) {
    same(rt, &read_range(word.as_bytes()), &range, word);
}

#[test]
fn words_are_numbers_and_ranges(rt: HostRuntime) {
    for (word, number) in &NUMBERS {
        is_number(&rt, word, *number);
    }
    for (word, range) in &RANGES {
        is_range(&rt, word, *range);
    }
}
