//! Inputs, as bytes.
use command_fixtures::{FIRST, FRAME, Form, Rec, capture};
use std::process::Abort;

/// The frame of 60 bytes, captured so many nanoseconds after the first.
pub fn frame(nanos: u32) -> Rec {
    Rec { nanos, ..FIRST }
}

/// What an input holds.
#[derive(Clone, Copy)]
pub enum Input<'a> {
    /// There is no such file.
    Absent,
    /// These bytes, and so many frames after them.
    Raw(&'a [u8], u32),
    /// A capture of these records, but for so many bytes at its end.
    Capture(Form, &'a [Rec], usize),
}

/// The bytes of an input, if it is there.
pub fn bytes_of<R: Abort + AllocGlobal>(rt: &R, input: Input<'_>) -> Option<Vec<u8>> {
    match input {
        Input::Absent => None,
        Input::Raw(bytes, frames) => Some(raw(rt, bytes, frames)),
        Input::Capture(form, records, less) => Some(cut(rt, form, records, less)),
    }
}

fn raw<R: Abort + AllocGlobal>(rt: &R, first: &[u8], frames: u32) -> Vec<u8> {
    let mut bytes = first.to_vec(rt.alloc()).expect(rt, "memory");
    for _ in 0..frames {
        bytes.extend_from_slice(&FRAME).expect(rt, "memory");
    }
    bytes
}

fn cut<R: Abort + AllocGlobal>(rt: &R, form: Form, records: &[Rec], less: usize) -> Vec<u8> {
    let mut bytes = capture(rt.alloc(), form, records).expect(rt, "memory");
    bytes.truncate(bytes.len().saturating_sub(less));
    bytes
}
