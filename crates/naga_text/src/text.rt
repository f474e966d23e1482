//! A text that is being written.
ghost use Rattle.std.specs.Prelude.{◌≡◌, ◌++◌, ◌==◌, [], IfOk, OnOk, codes, encode_utf8, false, length, string_bytes};
ghost use Rattle.std.specs.Fmt.{decimal, digits, signed_decimal};
ghost use Rattle.naga_text.specs.Words.{flag, name_text, number, quoted, word};
ghost use Rattle.naga_text.specs.Blocks.{deeper};
ghost use Rattle.naga_valid.specs.ElementNames.{text_of};

use std::alloc::{AllocError, Global};
use std::marker::Model;

/// A text that is being written.
///
/// In contracts, it is the list of its bytes.
#[derive(Drop)]
pub struct Text {
    written: String,
}

impl Model for Text {
    ghost use Rattle.std.specs.Prelude.{ℕ, List, string_bytes};

    ghost Value = { List ℕ };

    ghost view = { λ text. string_bytes text.written };
}

impl Text {
    /// Creates an empty text.
    pub fn new(alloc: Global) -> Self
        ensures { result ≡ [] }
    {
        Text {
            written: String::new(alloc),
        }
    }

    /// Returns the text as a string.
    pub fn finish(self) -> String
        ensures { string_bytes result ≡ self }
    {
        let Text { written } = self;
        written
    }

    /// Returns the text as a slice.
    pub fn as_str(&self) -> &str
        ensures { result.now ≡ self.now }
    {
        self.written.as_str()
    }

    /// Returns whether the text is empty.
    pub fn is_empty(&self) -> bool
        ensures { result ≡ (length self.now == 0) }
    {
        self.written.is_empty()
    }

    /// Appends a piece of text.
    ///
    /// Returns `Err` if allocation fails.
    pub fn push(&mut self, piece: &str) -> Result<(), AllocError>
        ensures { OnOk result (self.new ≡ self.old ++ piece.now) }
    {
        self.written.push_str(piece)
    }

    /// Appends a character.
    ///
    /// Returns `Err` if allocation fails.
    pub fn push_character(&mut self, c: char) -> Result<(), AllocError>
        ensures { OnOk result (self.new ≡ self.old ++ encode_utf8 c) }
    {
        self.written.push(c)
    }

    /// Appends the decimal digits of a number.
    ///
    /// Returns `Err` if allocation fails.
    pub fn push_number(&mut self, number: u64) -> Result<(), AllocError>
        ensures { OnOk result (self.new ≡ self.old ++ decimal number) }
    {
        write!(self.written, "{number}")
    }

    /// Appends the decimal digits of an integer, after its sign if it is negative.
    ///
    /// Returns `Err` if allocation fails.
    pub fn push_integer(&mut self, number: i64) -> Result<(), AllocError>
        ensures { OnOk result (self.new ≡ self.old ++ signed_decimal number) }
    {
        write!(self.written, "{number}")
    }

    /// Appends the hexadecimal digits of a number.
    ///
    /// Returns `Err` if allocation fails.
    pub fn push_hexadecimal(&mut self, number: u64) -> Result<(), AllocError>
        ensures { OnOk result (self.new ≡ self.old ++ digits 16 false number) }
    {
        write!(self.written, "{number:x}")
    }

    /// Appends a space and a word.
    ///
    /// Returns `Err` if allocation fails.
    pub fn push_word(&mut self, name: &str) -> Result<(), AllocError>
        ensures { OnOk result (self.new ≡ self.old ++ word name.now) }
    {
        self.push(" ")?;
        self.push(name)
    }

    /// Appends a space and a word if `is` is `true`.
    ///
    /// Returns `Err` if allocation fails.
    pub fn push_flag(&mut self, is: bool, name: &str) -> Result<(), AllocError>
        ensures { OnOk result (self.new ≡ self.old ++ flag is name.now) }
    {
        if is { self.push_word(name) } else { Ok(()) }
    }

    /// Appends another text.
    ///
    /// Returns `Err` if allocation fails.
    pub fn push_text(&mut self, other: &Text) -> Result<(), AllocError>
        ensures { OnOk result (self.new ≡ self.old ++ other.now) }
    {
        self.written.push_str(other.written.as_str())
    }

    /// Returns an empty text that allocates as this one does.
    pub fn fresh(&self) -> Text
        ensures { result ≡ [] }
    {
        Text::new(self.allocator())
    }

    /// Returns the allocator of this text.
    pub(crate) fn allocator(&self) -> Global {
        *self.written.allocator()
    }

    /// Returns a copy of this text.
    ///
    /// Returns `Err` if allocation fails.
    pub fn copy(&self) -> Result<Text, AllocError>
        ensures { IfOk result (λ copy. copy ≡ self.now) }
    {
        let mut copy = self.fresh();
        copy.push_text(self)?;
        Ok(copy)
    }

    /// Returns this text with four spaces appended, as the margin of what is inside something with this margin.
    pub(crate) fn deeper(&self) -> Result<Text, AllocError>
        ensures { IfOk result (λ inner. inner ≡ deeper self.now) }
    {
        let mut inner = self.copy()?;
        inner.push("    ")?;
        Ok(inner)
    }

    /// Returns four spaces, as the margin of what is inside something without a margin.
    pub(crate) fn margin(&self) -> Result<Text, AllocError>
        ensures { IfOk result (λ margin. margin ≡ codes "    ") }
    {
        let mut margin = self.fresh();
        margin.push("    ")?;
        Ok(margin)
    }

    /// Appends a space and the decimal digits of a number.
    ///
    /// Returns `Err` if allocation fails.
    pub fn push_index(&mut self, index: usize) -> Result<(), AllocError>
        ensures { OnOk result (self.new ≡ self.old ++ number index) }
    {
        self.push(" ")?;
        self.push_number(index as u64)
    }

    /// Appends a space and a name in quotes, in which it is escaped.
    ///
    /// Returns `Err` if allocation fails.
    pub fn push_quoted(&mut self, name: &str) -> Result<(), AllocError>
        ensures { OnOk result (self.new ≡ self.old ++ quoted name.now) }
    {
        self.push(" \"")?;
        self.push_escaped(name)?;
        self.push("\"")
    }

    /// Appends a space and a name in quotes, in which it is escaped, if there is a name.
    ///
    /// Returns `Err` if allocation fails.
    pub fn push_name(&mut self, name: &Option<String>) -> Result<(), AllocError>
        ensures { OnOk result (self.new ≡ self.old ++ name_text (text_of name.now)) }
    {
        match name {
            Some(name) => self.push_quoted(name.as_str()),
            None => Ok(()),
        }
    }
}
