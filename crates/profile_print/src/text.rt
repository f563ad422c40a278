//! A text that grows line by line.
ghost use Rattle.std.specs.Prelude.{◌≡◌, ◌∷◌, [], ◌++◌, map, OnOk};
ghost use Rattle.std.specs.List.{flat_map};
ghost use Rattle.std.specs.Fmt.{decimal};
ghost use Rattle.profile_lines.specs.Lines.{Head, Entry};
ghost use Rattle.profile_print.specs.Written.{spaced, line_text, key_text};
ghost use Rattle.profile_print.specs.Text.{number, word, prefix_word};
ghost use Rattle.profile_print.specs.View.{word_of};

use profile_plan::Prefix;
use qos_base::NoMemory;
use std::alloc::Global;
use std::fmt::Write;
use std::marker::Model;

/// A word of a line.
#[derive(Clone, Copy)]
pub(crate) enum Word<'a> {
    /// This word.
    Is(&'a str),
    /// A meter's name.
    Name(&'a [u8]),
    /// A number, without leading zeros.
    Number(u64),
    /// `a.b.c.d/n`.
    Address(Prefix),
}

/// A text, of which contracts see the bytes.
#[derive(Drop)]
pub(crate) struct Text {
    bytes: Vec<u8>,
    /// Where a number is written before it is added, so that no number takes memory of its own.
    digits: String,
}

impl Model for Text {
    ghost use Rattle.std.specs.Prelude.{List, ℕ};

    ghost Value = { List ℕ };

    ghost view = { λ t. t.bytes.items };
}

impl Text {
    /// No bytes.
    pub fn new(alloc: Global) -> Text
        ensures { result ≡ [] }
    {
        Text {
            bytes: Vec::new(alloc),
            digits: String::new(alloc),
        }
    }

    /// The bytes.
    pub fn into_bytes(self) -> Vec<u8>
        ensures { result.items ≡ self }
    {
        let Text { bytes, digits: _ } = self;
        bytes
    }

    fn push(&mut self, bytes: &[u8]) -> Result<(), NoMemory>
        ensures { OnOk result (self.new ≡ self.old ++ bytes.now) }
    {
        self.bytes.extend_from_slice(bytes).map_err(|_| NoMemory)
    }

    fn push_number(&mut self, n: u64) -> Result<(), NoMemory>
        ensures { OnOk result (self.new ≡ self.old ++ decimal n) }
    {
        self.digits.clear();
        write!(self.digits, "{n}").map_err(|_| NoMemory)?;
        self.bytes
            .extend_from_slice(self.digits.as_bytes())
            .map_err(|_| NoMemory)
    }

    #[tactic(auto, unfolding(crate::specs::Text::prefix_word))]
    fn push_address(&mut self, prefix: Prefix) -> Result<(), NoMemory>
        ensures { OnOk result (self.new ≡ self.old ++ prefix_word prefix) }
    {
        let addr = prefix.addr;
        self.push_octet(addr / 16_777_216, b".")?;
        self.push_octet(addr / 65_536 % 256, b".")?;
        self.push_octet(addr / 256 % 256, b".")?;
        self.push_octet(addr % 256, b"/")?;
        self.push_number(u64::from(prefix.bits))
    }

    fn push_octet(&mut self, octet: u32, mark: &[u8]) -> Result<(), NoMemory>
        ensures { OnOk result (self.new ≡ self.old ++ decimal octet ++ mark.now) }
    {
        self.push_number(u64::from(octet))?;
        self.push(mark)
    }

    fn push_word(&mut self, word: Word) -> Result<(), NoMemory>
        ensures { OnOk result (self.new ≡ self.old ++ word_of word.entry) }
    {
        match word {
            Word::Is(text) => self.push(text.as_bytes()),
            Word::Name(bytes) => self.push(bytes),
            Word::Number(n) => self.push_number(n),
            Word::Address(prefix) => self.push_address(prefix),
        }
    }

    // More words, each behind a space.
    fn push_more(&mut self, words: &[Word]) -> Result<(), NoMemory>
        ensures { OnOk result (self.new ≡ self.old ++ flat_map (λ w. 32 ∷ w) (map word_of words.now)) }
    {
        for word in words {
            self.push(b" ")?;
            self.push_word(*word)?;
        }
        Ok(())
    }

    // Words with one space between them.
    fn push_words(&mut self, words: &[Word]) -> Result<(), NoMemory>
        ensures { OnOk result (self.new ≡ self.old ++ spaced (map word_of words.now)) }
    {
        if words.is_empty() {
            return Ok(());
        }
        self.push_word(words[0])?;
        self.push_more(&words[1..])
    }

    // More numbers, each behind a space.
    fn push_more_numbers(&mut self, numbers: &[u32]) -> Result<(), NoMemory>
        ensures { OnOk result (self.new ≡ self.old ++ flat_map (λ w. 32 ∷ w) (map decimal numbers.now)) }
    {
        for number in numbers {
            self.push(b" ")?;
            self.push_number(u64::from(*number))?;
        }
        Ok(())
    }

    // Numbers with one space between them.
    fn push_numbers(&mut self, numbers: &[u32]) -> Result<(), NoMemory>
        ensures { OnOk result (self.new ≡ self.old ++ spaced (map decimal numbers.now)) }
    {
        if numbers.is_empty() {
            return Ok(());
        }
        self.push_number(u64::from(numbers[0]))?;
        self.push_more_numbers(&numbers[1..])
    }

    /// Adds the line `[words]`.
    #[tactic(auto, unfolding(crate::specs::Written::line_text))]
    pub fn head(&mut self, words: &[Word]) -> Result<(), NoMemory>
        ensures { OnOk result (self.new ≡ self.old ++ line_text (Head (map word_of words.now))) }
    {
        self.push(b"[")?;
        self.push_words(words)?;
        self.push(b"]")?;
        self.push(b"\n")
    }

    /// Adds the line `key = value`.
    #[tactic(auto, unfolding(crate::specs::Written::line_text))]
    pub fn entry(&mut self, key: &[Word], value: &[Word]) -> Result<(), NoMemory>
        ensures { OnOk result (self.new ≡ self.old ++ line_text (Entry (map word_of key.now) (map word_of value.now))) }
    {
        self.push_words(key)?;
        self.push(b" = ")?;
        self.push_words(value)?;
        self.push(b"\n")
    }

    /// Adds the line `key = number`.
    pub fn number(&mut self, key: &[Word], n: u64) -> Result<(), NoMemory>
        ensures { OnOk result (self.new ≡ self.old ++ key_text (number (map word_of key.now) n)) }
    {
        self.entry(key, &[Word::Number(n)])
    }

    /// Adds the line `key = numbers`.
    #[tactic(auto, unfolding(crate::specs::Written::line_text))]
    pub fn numbers(&mut self, key: &[Word], numbers: &[u32]) -> Result<(), NoMemory>
        ensures { OnOk result (self.new ≡ self.old ++ line_text (Entry (map word_of key.now) (map decimal numbers.now))) }
    {
        self.push_words(key)?;
        self.push(b" = ")?;
        self.push_numbers(numbers)?;
        self.push(b"\n")
    }

    /// Adds the line `key = word`.
    pub fn word(&mut self, key: &str, value: Word) -> Result<(), NoMemory>
        ensures { OnOk result (self.new ≡ self.old ++ key_text (word (key.now ∷ []) (word_of value.entry))) }
    {
        self.entry(&[Word::Is(key)], &[value])
    }
}
