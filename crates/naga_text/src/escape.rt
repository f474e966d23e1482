//! Names and messages in which each character shows, and none moves the cursor, starts a line or turns the direction of
//! the text.
ghost use Rattle.std.specs.Prelude.{◌≡◌, ◌++◌, ◌+◌, ◌<◌, ◌≤◌, ◌∷◌, [], OnOk, false, length};
ghost use Rattle.std.specs.Fmt.{digit_glyph, digits};
ghost use Rattle.arrayvec.specs.ArrayString.{array_string_len};
ghost use Rattle.naga_text.specs.Escapes.{code_text, control_text, escaped, escaped_character, is_plain, is_separator, visible, visible_character};

use crate::ignorable::is_ignorable;
use crate::text::Text;
use arrayvec::ArrayString;
use std::alloc::AllocError;

/// The maximum number of bytes of a character of a name as it is written: those of `\u{10ffff}`.
pub const MAX_CHARACTER_LEN: usize = 10;

impl Text {
    /// Appends a name as it is written between quotes.
    ///
    /// A quote and a backslash get a backslash before them. A control character, a line or paragraph separator, and a
    /// character that shows nothing is written as `\0`, `\t`, `\n`, `\r` or by its code, as in `\u{1b}`. Each other character
    /// is unchanged.
    ///
    /// The characters that show nothing are those of Unicode's `Default_Ignorable_Code_Point`. Zero-width spaces, soft
    /// hyphens, tags and the marks that turn the direction of the text are among them.
    ///
    /// Returns `Err` if allocation fails.
    pub fn push_escaped(&mut self, name: &str) -> Result<(), AllocError>
        ensures { OnOk result (self.new ≡ self.old ++ escaped name.now) }
    {
        for c in name.chars() {
            self.push(escaped_character(c).as_str())?;
        }
        Ok(())
    }

    /// Appends a message, in which only the characters are escaped that do not show themselves.
    ///
    /// These are control characters, line and paragraph separators, and the characters that show nothing. They are written
    /// as [`push_escaped`](Text::push_escaped) writes them.
    ///
    /// Returns `Err` if allocation fails.
    pub fn push_visible(&mut self, message: &str) -> Result<(), AllocError>
        ensures { OnOk result (self.new ≡ self.old ++ visible message.now) }
    {
        for c in message.chars() {
            self.push(visible_character(c).as_str())?;
        }
        Ok(())
    }
}

/// Returns a character of a name, as it is written between quotes.
pub fn escaped_character(c: char) -> ArrayString<MAX_CHARACTER_LEN>
    ensures { result.bytes ≡ escaped_character c }
{
    if c == '"' || c == '\\' {
        let mut text = ArrayString::new();
        text.push_str("\\");
        text.push(c);
        text
    } else {
        visible_character(c)
    }
}

/// Returns a character of a message, as it is written.
pub(crate) fn visible_character(c: char) -> ArrayString<MAX_CHARACTER_LEN>
    ensures { result.bytes ≡ visible_character c }
{
    if is_plain(c) {
        let mut text = ArrayString::new();
        text.push(c);
        text
    } else {
        control_text(c)
    }
}

/// Returns how a character that is not plain is written.
fn control_text(c: char) -> ArrayString<MAX_CHARACTER_LEN>
    ensures { result.bytes ≡ control_text c }
{
    if c == '\0' {
        short_text("\\0")
    } else if c == '\t' {
        short_text("\\t")
    } else if c == '\n' {
        short_text("\\n")
    } else if c == '\r' {
        short_text("\\r")
    } else {
        code_text(c)
    }
}

/// Returns a short text.
fn short_text(text: &str) -> ArrayString<MAX_CHARACTER_LEN>
    requires { length text.now ≤ 10 }
    ensures { result.bytes ≡ text.now }
{
    let mut short = ArrayString::new();
    short.push_str(text);
    short
}

/// Returns a character by its code.
fn code_text(c: char) -> ArrayString<MAX_CHARACTER_LEN>
    ensures { result.bytes ≡ code_text c }
{
    let mut text = short_text("\\u{");
    push_hexadecimal(&mut text, c as u32);
    text.push_str("}");
    text
}

/// Appends the hexadecimal digits of a number.
fn push_hexadecimal(text: &mut ArrayString<MAX_CHARACTER_LEN>, number: u32)
    requires { array_string_len text.old + length (digits 16 false number) ≤ 10 }
    ensures { text.new.bytes ≡ text.old.bytes ++ digits 16 false number }
{
    if number < 16 {
        push_digit(text, number);
    } else {
        push_hexadecimal(text, number / 16);
        push_digit(text, number % 16);
    }
}

/// Appends a hexadecimal digit.
fn push_digit(text: &mut ArrayString<MAX_CHARACTER_LEN>, digit: u32)
    requires digit { digit < 16 }
    requires fits { array_string_len text.old < 10 }
    ensures { text.new.bytes ≡ text.old.bytes ++ digit_glyph false digit ∷ [] }
{
    text.push(glyph_of(digit));
}

/// Returns a hexadecimal digit as a character.
fn glyph_of(digit: u32) -> char
    requires { digit < 16 }
    ensures { result ≡ digit_glyph false digit }
{
    let glyph = if digit < 10 { 48 + digit } else { 87 + digit };
    (glyph as u8) as char
}

/// Returns whether a character only shows itself.
fn is_plain(c: char) -> bool
    ensures { result ≡ is_plain c }
{
    !(c.is_control() || is_separator(c) || is_ignorable(c))
}

/// Returns whether a character ends a line, and is no control character.
fn is_separator(c: char) -> bool
    ensures { result ≡ is_separator c }
{
    ('\u{2028}'..='\u{2029}').contains(&c)
}
