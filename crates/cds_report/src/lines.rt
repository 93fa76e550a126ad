//! The lines of a text, as they are written word for word.
ghost use Rattle.std.specs.Prelude.{◌≡◌, ◌≤◌, ◌++◌, ◌∷◌, [], IfOk, codes, decimal};
ghost use Rattle.std.specs.Fmt.{signed_decimal};
ghost use Rattle.cds_frac.specs.Decimals.{decimal_text};
ghost use Rattle.cds_frac.specs.declared.decimals.TheConstants.{MOST_DECIMALS};
ghost use Rattle.cds_report.specs.Lines.{line, spaced};
ghost use Rattle.cds_report.specs.Words.{value_word};

use crate::words::missing_word;
use cds_base::{Bytes, Missing, Name, NoMemory};
use cds_frac::Frac;
use itoa::Buffer;
use std::alloc::Global;
use std::marker::Model;

/// The lines of a text. Seen as the bytes that are written so far.
#[derive(Drop)]
pub(crate) struct Lines {
    bytes: Vec<u8>,
}

impl Model for Lines {
    ghost use Rattle.std.specs.Prelude.{List, ℕ};

    ghost Value = { List ℕ };

    ghost view = { λ a. a.bytes.items };
}

impl Lines {
    /// No lines. It takes no memory.
    pub(crate) fn new(alloc: Global) -> Lines
        ensures { result ≡ [] }
    {
        Lines {
            bytes: Vec::new(alloc),
        }
    }

    /// Begins a line with these words. The only refusal is want of memory, as of each call that writes.
    pub(crate) fn begin(&mut self, words: &str) -> Result<(), NoMemory>
        ensures { IfOk result (λ _. self.new ≡ self.old ++ words.now) }
    {
        self.bytes.extend_from_slice(words.as_bytes())?;
        Ok(())
    }

    /// Ends the line.
    pub(crate) fn end(&mut self) -> Result<(), NoMemory>
        ensures { IfOk result (λ _. self.new ≡ self.old ++ codes "\n") }
    {
        self.begin("\n")
    }

    /// Writes a word.
    pub(crate) fn word(&mut self, word: &str) -> Result<(), NoMemory>
        ensures { IfOk result (λ _. self.new ≡ self.old ++ (codes " " ++ word.now)) }
    {
        self.plain(word.as_bytes())
    }

    /// Writes a word that is given by its bytes.
    pub(crate) fn plain(&mut self, word: &[u8]) -> Result<(), NoMemory>
        ensures { IfOk result (λ _. self.new ≡ self.old ++ (codes " " ++ word.now)) }
    {
        self.begin(" ")?;
        self.bytes.extend_from_slice(word)?;
        Ok(())
    }

    /// Writes a name.
    pub(crate) fn name(&mut self, name: Name) -> Result<(), NoMemory>
        ensures { IfOk result (λ _. self.new ≡ self.old ++ (codes " " ++ name)) }
    {
        self.plain(name.as_bytes())
    }

    /// Writes a whole number.
    pub(crate) fn number(&mut self, number: u64) -> Result<(), NoMemory>
        ensures { IfOk result (λ _. self.new ≡ self.old ++ (codes " " ++ decimal number)) }
    {
        let mut buffer = Buffer::new();
        self.word(buffer.format(number))
    }

    /// Writes a whole number with its sign.
    pub(crate) fn signed_number(&mut self, number: i128) -> Result<(), NoMemory>
        ensures { IfOk result (λ _. self.new ≡ self.old ++ (codes " " ++ signed_decimal number)) }
    {
        let mut buffer = Buffer::new();
        self.word(buffer.format(number))
    }

    /// Writes a number with so many decimals.
    pub(crate) fn digits(&mut self, number: &Frac, decimals: u32) -> Result<(), NoMemory>
        requires { decimals ≤ MOST_DECIMALS }
        ensures { IfOk result (λ _. self.new ≡ self.old ++ (codes " " ++ decimal_text number.now decimals)) }
    {
        let text = number.digits(*self.bytes.allocator(), decimals)?;
        self.word(text.as_str())
    }

    /// Writes a value with so many decimals, or why it is missing.
    pub(crate) fn value(
        &mut self,
        value: &Result<Frac, Missing>,
        decimals: u32,
    ) -> Result<(), NoMemory>
        requires { decimals ≤ MOST_DECIMALS }
        ensures { IfOk result (λ _. self.new ≡ self.old ++ (codes " " ++ value_word decimals value.now)) }
    {
        match value {
            Ok(number) => self.digits(number, decimals),
            Err(cause) => self.word(missing_word(*cause)),
        }
    }

    /// Writes a line of a first word and a number.
    pub(crate) fn number_line(&mut self, first: &str, number: u64) -> Result<(), NoMemory>
        ensures { IfOk result (λ _. self.new ≡ self.old ++ line first.now (decimal number ∷ [])) }
    {
        self.begin(first)?;
        self.number(number)?;
        self.end()
    }

    /// Writes two words, each with a number with 6 decimals.
    pub(crate) fn two_digits(
        &mut self,
        first: &str,
        one: &Frac,
        second: &str,
        other: &Frac,
    ) -> Result<(), NoMemory>
        ensures { IfOk result (λ _. self.new ≡ self.old ++ spaced (first.now ∷ decimal_text one.now 6 ∷ second.now
            ∷ decimal_text other.now 6 ∷ [])) }
    {
        self.word(first)?;
        self.digits(one, 6)?;
        self.word(second)?;
        self.digits(other, 6)
    }

    /// The text. It takes no memory.
    pub(crate) fn into_bytes(self) -> Bytes
        ensures { result ≡ self }
    {
        Bytes::from_vec(self.bytes)
    }
}
