//! A line of a profile text.
ghost use Rattle.std.specs.Prelude.{◌≡◌, ◌==◌, IfOk, map};
ghost use Rattle.std.specs.List.{list_all, before_last};
ghost use Rattle.profile_lines.specs.Lines.{is_text, line_of, line_of_code, entry_of_code, head_of_code, first_mark, last_mark, closes};
ghost use Rattle.profile_lines.specs.View.{line_view};

use crate::blanks::{is_blank, words};
use crate::split::first_place;
use qos_base::NoMemory;
use std::alloc::Global;

/// What a line is. The words are parts of the text.
#[derive(Debug, Drop)]
pub enum Line<'a> {
    /// A byte outside comments is neither a tab nor printable.
    NotText,
    /// Nothing stands outside its comment.
    Blank,
    /// The head of a section, with the words between its brackets.
    Head(Vec<&'a [u8]>),
    /// A key line: the words before the first `=`, and those after it.
    Entry(Vec<&'a [u8]>, Vec<&'a [u8]>),
    /// Anything else.
    Neither,
}

/// What a line is. Its comment, from the first `;` on, may hold any byte.
#[tactic(auto, unfolding(crate::specs::Lines::line_of))]
pub fn read_line(alloc: Global, line: &[u8]) -> Result<Line<'_>, NoMemory>
    ensures { IfOk result (λ x. line_view x ≡ line_of line.now) }
{
    read_code(alloc, &line[..first_place(line, b';')])
}

#[tactic(auto, unfolding(crate::specs::Lines::line_of_code))]
fn read_code(alloc: Global, code: &[u8]) -> Result<Line<'_>, NoMemory>
    ensures { IfOk result (λ x. line_view x ≡ line_of_code code.now) }
{
    if !are_text(code) {
        return Ok(Line::NotText);
    }
    match first_mark(code) {
        None => Ok(Line::Blank),
        Some(first) => {
            if first == b'[' && closes(last_mark(code)) {
                Ok(Line::Head(head_words(alloc, code)?))
            } else {
                read_entry(alloc, code)
            }
        }
    }
}

#[tactic(auto, unfolding(crate::specs::Lines::entry_of_code))]
fn read_entry(alloc: Global, code: &[u8]) -> Result<Line<'_>, NoMemory>
    ensures { IfOk result (λ x. line_view x ≡ entry_of_code code.now) }
{
    let divide = first_place(code, b'=');
    if divide == code.len() {
        return Ok(Line::Neither);
    }
    let key = words(alloc, &code[..divide])?;
    let value = words(alloc, &code[divide + 1..])?;
    Ok(Line::Entry(key, value))
}

fn closes(last: Option<u8>) -> bool
    ensures { result ≡ closes last }
{
    match last {
        Some(byte) => byte == b']',
        None => false,
    }
}

fn are_text(bytes: &[u8]) -> bool
    ensures { result ≡ list_all is_text bytes.now }
{
    bytes.iter().all(|byte| is_text(*byte))
}

fn is_text(byte: u8) -> bool
    ensures { result ≡ is_text byte }
{
    byte == b'\t' || 32 <= byte && byte <= 126
}

// The first byte that is not blank.
fn first_mark(bytes: &[u8]) -> Option<u8>
    ensures { result ≡ first_mark bytes.now }
{
    bytes.iter().copied().find(|byte| !is_blank(*byte))
}

// The last byte that is not blank.
fn last_mark(bytes: &[u8]) -> Option<u8>
    ensures { result ≡ last_mark bytes.now }
{
    bytes.iter().rev().copied().find(|byte| !is_blank(*byte))
}

#[tactic(auto, unfolding(crate::specs::Lines::head_of_code))]
fn head_words(alloc: Global, code: &[u8]) -> Result<Vec<&[u8]>, NoMemory>
    ensures { IfOk result (λ ws. map (λ w. w.now) ws.items ≡ head_of_code code.now) }
{
    let open = first_place(code, b'[');
    let inside = if open == code.len() {
        &code[open..]
    } else {
        &code[open + 1..]
    };
    words(alloc, before_last(inside, b']'))
}

// What stands before the last of these bytes, or nothing where there is none.
fn before_last(bytes: &[u8], wanted: u8) -> &[u8]
    ensures { result.now ≡ before_last (λ b. b == wanted) bytes.now }
{
    let mut end = bytes.len();
    while end > 0 {
        end -= 1;
        if bytes[end] == wanted {
            return &bytes[..end];
        }
    }
    &bytes[..0]
}
