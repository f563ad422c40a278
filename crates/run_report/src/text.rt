//! A text that grows.
ghost use Rattle.std.specs.Prelude.{◌≡◌, ◌∷◌, [], ◌++◌, OnOk};
ghost use Rattle.std.specs.List.{flat_map};
ghost use Rattle.std.specs.Fmt.{decimal};
ghost use Rattle.run_report.specs.Line.{line, pair};

use qos_base::NoMemory;
use std::alloc::Global;
use std::fmt::Write;
use std::marker::Model;

/// A text, of which contracts see the bytes.
#[derive(Debug, Drop)]
pub(crate) struct Text {
    bytes: Vec<u8>,
    /// Where a number is written before it is added, so that no number takes memory of its own.
    digits: String,
}

impl Model for Text {
    ghost use Rattle.std.specs.Prelude.{List, ℕ};

    ghost Value = { List ℕ };

    ghost view = { λ t. t.bytes.items };
}

impl Text {
    /// No bytes.
    pub fn new(alloc: Global) -> Text
        ensures { result ≡ [] }
    {
        Text {
            bytes: Vec::new(alloc),
            digits: String::new(alloc),
        }
    }

    /// The bytes.
    pub fn into_bytes(self) -> Vec<u8>
        ensures { result.items ≡ self }
    {
        let Text { bytes, digits: _ } = self;
        bytes
    }

    /// Adds these bytes.
    pub fn push(&mut self, bytes: &[u8]) -> Result<(), NoMemory>
        ensures { OnOk result (self.new ≡ self.old ++ bytes.now) }
    {
        self.bytes.extend_from_slice(bytes).map_err(|_| NoMemory)
    }

    fn push_number(&mut self, n: u64) -> Result<(), NoMemory>
        ensures { OnOk result (self.new ≡ self.old ++ decimal n) }
    {
        self.digits.clear();
        write!(self.digits, "{n}").map_err(|_| NoMemory)?;
        self.bytes
            .extend_from_slice(self.digits.as_bytes())
            .map_err(|_| NoMemory)
    }

    /// Adds a name and its number.
    pub fn push_pair(&mut self, name: &str, n: u64) -> Result<(), NoMemory>
        ensures { OnOk result (self.new ≡ self.old ++ pair (name.now, n)) }
    {
        self.push(name.as_bytes())?;
        self.push(b" ")?;
        self.push_number(n)
    }

    /// Adds the line of a name, its number and more text.
    pub fn pair_line(&mut self, name: &str, n: u64, more: &[u8]) -> Result<(), NoMemory>
        ensures { OnOk result (self.new ≡ self.old ++ line (pair (name.now, n) ++ more.now)) }
    {
        self.push_pair(name, n)?;
        self.push(more)?;
        self.push(b"\n")
    }

    // Pairs, each behind a space.
    fn push_pairs(&mut self, pairs: &[(&str, u64)]) -> Result<(), NoMemory>
        ensures { OnOk result (self.new ≡ self.old ++ flat_map (λ p. 32 ∷ pair (p.0.now, p.1)) pairs.now) }
    {
        for (name, n) in pairs {
            self.push(b" ")?;
            self.push_pair(name, *n)?;
        }
        Ok(())
    }

    /// Ends the line with pairs, each behind a space.
    pub fn end_with_pairs(&mut self, pairs: &[(&str, u64)]) -> Result<(), NoMemory>
        ensures { OnOk result (self.new ≡ self.old ++ line (flat_map (λ p. 32 ∷ pair (p.0.now, p.1)) pairs.now)) }
    {
        self.push_pairs(pairs)?;
        self.push(b"\n")
    }
}
