//! Why a text is no profile.
use std::fmt;
use thiserror::Error;

/// What is wrong with a text.
#[derive(Clone, Copy, Debug, PartialEq, Eq)]
pub enum FaultKind {
    /// A byte outside comments is neither a tab nor printable.
    NotText,
    /// A line is neither a section's head nor a key line, or stands before any section, or a meter does not
    /// begin with `kind`.
    BadLine,
    /// A section or key is not listed, or is of the other form or kind.
    UnknownKey,
    /// No number, word or list stands where one is due.
    BadNumber,
    /// A number is outside its range, or a range across keys is broken.
    OutOfRange,
    /// A section, key, class or pipe is given a second time.
    Twice,
    /// A required key, class or pipe is missing in a section, or a section at line 0.
    Missing,
    /// A profile, port, subport, pipe or meter is named that is not there.
    NoSuchName,
    /// The text, the queues, the pipes, the slots or the meters are too many, at line 0.
    TooLarge,
}

impl fmt::Display for FaultKind {
    fn fmt<W: fmt::Write>(&self, f: &mut fmt::Formatter<W>) -> fmt::Result {
        f.write_str(match self {
            FaultKind::NotText => "a byte that is no text",
            FaultKind::BadLine => "neither a section nor a key that can stand here",
            FaultKind::UnknownKey => "a section or key that is not listed here",
            FaultKind::BadNumber => "no number, word or list where one is due",
            FaultKind::OutOfRange => "a number out of its range",
            FaultKind::Twice => "given a second time",
            FaultKind::Missing => "something required is missing",
            FaultKind::NoSuchName => "a name that is not there",
            FaultKind::TooLarge => "too large",
        })
    }
}

/// The first fault of a text.
#[derive(Clone, Copy, Debug, PartialEq, Eq)]
pub struct ProfileFault {
    /// Its line, from 1, or 0 where it is of the whole text.
    pub line: u32,
    /// What is wrong.
    pub kind: FaultKind,
    /// The number that was too large, else 0.
    pub total: u64,
}

impl fmt::Display for ProfileFault {
    fn fmt<W: fmt::Write>(&self, f: &mut fmt::Formatter<W>) -> fmt::Result {
        let line = self.line;
        let kind = self.kind;
        let total = self.total;
        if total == 0 {
            write!(f, "line {line}: {kind}")
        } else {
            write!(f, "line {line}: {kind}: {total}")
        }
    }
}

/// Why a profile was not read.
#[derive(Debug, Drop, Error)]
pub enum ProfileError {
    /// The text is no profile.
    #[error("{0}")]
    Fault(ProfileFault),
    /// Memory was refused.
    #[error("out of memory")]
    NoMemory,
}
