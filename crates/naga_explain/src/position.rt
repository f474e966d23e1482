//! The place of a byte of a text.
ghost use Rattle.std.specs.Prelude.{◌≡◌, take};
ghost use Rattle.std.specs.Fmt.{is_char_start};
ghost use Rattle.std.specs.List.{count_by};
ghost use Rattle.naga_explain.specs.Position.{IsPosition, is_newline, since_newline};

use std::fmt;

/// The place of a byte of a text in a file. Each number is at most `usize::MAX`.
///
/// Differs from naga: naga has no such type.
#[derive(Clone, Copy, Debug, PartialEq, Eq, Drop)]
pub struct Position {
    /// The number of bytes of the file before it.
    pub byte: usize,
    /// Its line: 1, and 1 more for each newline of the text before it.
    pub line: usize,
    /// Its column: 1, and 1 more for each character of its line before it.
    pub column: usize,
}

impl Position {
    /// Returns the place of the byte of `text` that has `offset` bytes before it, or of the end of a shorter text.
    ///
    /// `skipped` is the number of bytes in front of `text` in its file, such as those of a byte order mark. They count
    /// only for `byte`.
    pub fn new(text: &str, skipped: usize, offset: usize) -> Self
        ensures { IsPosition text.now skipped offset result }
    {
        let (newlines, characters) = counts_before(text.as_bytes(), offset);
        Position {
            byte: skipped.saturating_add(offset),
            line: newlines.saturating_add(1),
            column: characters.saturating_add(1),
        }
    }
}

/// Returns the number of newlines among the first `offset` bytes, and the number of characters after the last of these
/// newlines.
fn counts_before(bytes: &[u8], offset: usize) -> (usize, usize)
    ensures newlines { result.0 ≡ count_by is_newline (take offset bytes.now) }
    ensures characters { result.1 ≡ count_by is_char_start (since_newline (take offset bytes.now)) }
{
    let mut newlines = 0;
    let mut characters = 0;
    'bytes: for index in 0..offset.min(bytes.len()) {
        let byte = bytes[index];
        if byte == b'\n' {
            newlines += 1;
            characters = 0;
        } else if is_char_start(byte) {
            characters += 1;
        }
    }
    (newlines, characters)
}

/// Returns whether a byte is the first of a character.
fn is_char_start(byte: u8) -> bool
    ensures { result ≡ is_char_start byte }
{
    byte < 0x80 || byte >= 0xc0
}

impl fmt::Display for Position {
    ghost use Rattle.std.specs.Prelude.{Some};
    ghost use Rattle.naga_explain.specs.Messages.{position_text};

    ghost output = { λ position. Some (position_text position) };

    fn fmt<W: fmt::Write>(&self, f: &mut fmt::Formatter<W>) -> fmt::Result {
        write!(
            f,
            "byte {}, line {}, column {}",
            self.byte, self.line, self.column
        )
    }
}
