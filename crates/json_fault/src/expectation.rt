//! What is expected after the bytes that were read.
ghost use Rattle.std.specs.Prelude.{◌≡◌, ◌<◌, [], length, reverse, get_or, nat_eq, true, IfSome};
ghost use Rattle.std.specs.List.{starts_with};
ghost use Rattle.json_fault.specs.Fault.{byte_order_mark, IsAtMark, IsRight, Opens};
ghost use Rattle.json_fault.specs.Rest.{completes};
ghost use Rattle.json_fault.specs.Awaits.{awaited, awaited_word};
ghost use Rattle.json_fault.specs.Rest.{IsReached};
ghost use Rattle.json_fault.specs.Steps.{IsRefused};
ghost use Rattle.json_fault.specs.Awaits.{Awaits, CanTake, IsAbsent, IsAbsentPart, IsAfter};

use crate::after::innermost;
use crate::automaton::ends_number;
use crate::expected::Expected;
use crate::mode::{Frame, Mode, Number, Within, Word};
use crate::strings::digit;

/// Returns what is expected after a value.
fn after_value(frames: &[Frame]) -> Expected
    ensures { IsAfter result (reverse frames.now) }
{
    match innermost(frames) {
        None => Expected::TextEnd,
        Some(Frame::List) => Expected::CommaOrListEnd,
        Some(Frame::Object) => Expected::CommaOrObjectEnd,
    }
}

/// Returns what is expected in a string.
fn in_string(part: Within) -> Expected
    ensures { result ≡ awaited part }
{
    match part {
        Within::Plain => Expected::Quote,
        Within::Backslash => Expected::Escape,
        Within::Unit => Expected::HexDigit,
        Within::UnitD => Expected::HexDigit,
        Within::Unit1 => Expected::HexDigit,
        Within::Unit2 => Expected::HexDigit,
        Within::Unit3 => Expected::HexDigit,
        Within::High2 => Expected::HexDigit,
        Within::High3 => Expected::HexDigit,
        Within::High => Expected::LowSurrogate,
        Within::HighBackslash => Expected::LowSurrogate,
        Within::Low => Expected::LowSurrogate,
        Within::LowD => Expected::LowSurrogate,
    }
}

/// Returns what is expected in a number.
fn in_number(frames: &[Frame], part: Number) -> Expected
    requires { IsReached (Mode.InNumber part) (reverse frames.now) }
    ensures { Awaits result (Mode.InNumber part) (reverse frames.now) }
{
    if ends_number(part) {
        return after_value(frames);
    }
    Expected::Digit
}

/// Returns what is expected in a literal.
fn in_word(word: Word) -> Expected
    ensures { result ≡ awaited_word word }
{
    match word {
        Word::True => Expected::True,
        Word::False => Expected::False,
        Word::Null => Expected::Null,
    }
}

/// Returns what is expected in a state.
pub(crate) fn expected(mode: Mode, frames: &[Frame]) -> Expected
    requires { IsReached mode (reverse frames.now) }
    ensures { Awaits result mode (reverse frames.now) }
{
    match mode {
        Mode::Value => Expected::Value,
        Mode::FirstItem => Expected::ValueOrEnd,
        Mode::FirstKey => Expected::KeyOrEnd,
        Mode::Key => Expected::Key,
        Mode::Colon => Expected::Colon,
        Mode::After => after_value(frames),
        Mode::InKey(part) => in_string(part),
        Mode::InString(part) => in_string(part),
        Mode::InNumber(part) => in_number(frames, part),
        Mode::InWord(word, _) => in_word(word),
    }
}

/// Returns what a byte shows that may not be in a string.
fn absent_in_string(part: Within, byte: u8) -> Option<Expected>
    ensures { IfSome result (IsAbsentPart part byte) }
{
    match part {
        Within::Plain => {
            if byte < b' ' {
                return Some(Expected::NoControlCharacter);
            }
            None
        }
        Within::UnitD => {
            let value = digit(byte);
            if value < 12 {
                return None;
            }
            if value < 16 {
                return Some(Expected::NoLowSurrogate);
            }
            None
        }
        _ => None,
    }
}

/// Returns what a byte shows that may not be in a number.
fn absent_in_number(part: Number, byte: u8) -> Option<Expected>
    ensures { IfSome result (IsAbsent (Mode.InNumber part) byte) }
{
    match part {
        Number::Zero => {
            if byte.is_ascii_digit() {
                return Some(Expected::NoLeadingZero);
            }
            None
        }
        _ => None,
    }
}

/// Returns what a byte shows that may not be where a value begins.
fn absent_value(byte: u8) -> Option<Expected>
    ensures { IfSome result (λ expected. (expected ≡ Expected.NoDeeperNesting) × Opens byte) }
{
    if byte == b'[' {
        return Some(Expected::NoDeeperNesting);
    }
    if byte == b'{' {
        return Some(Expected::NoDeeperNesting);
    }
    None
}

/// Returns what a byte shows that may not be there, if no text goes on with it.
fn absent(mode: Mode, byte: u8) -> Option<Expected>
    ensures { IfSome result (IsAbsent mode byte) }
{
    match mode {
        Mode::Value => absent_value(byte),
        Mode::FirstItem => absent_value(byte),
        Mode::InKey(part) => absent_in_string(part, byte),
        Mode::InString(part) => absent_in_string(part, byte),
        Mode::InNumber(part) => absent_in_number(part, byte),
        _ => None,
    }
}

/// Returns what is expected in place of the byte at an offset, or what it shows that may not be there.
pub(crate) fn reason(bytes: &[u8], offset: usize, mode: Mode, frames: &[Frame]) -> Expected
    requires inside { offset < length bytes.now }
    requires reached { IsReached mode (reverse frames.now) }
    ensures right { IsRight (CanTake mode (reverse frames.now)) (IsRefused mode (reverse frames.now))
        (completes mode (reverse frames.now) [] ≡ true) (IsAtMark bytes.now offset) (get_or bytes.now offset 0) result }
    ensures mark { offset ≡ 0 → starts_with nat_eq bytes.now byte_order_mark ≡ true
        → result ≡ Expected.NoByteOrderMark }
{
    if offset == 0 && bytes.starts_with(b"\xef\xbb\xbf") {
        return Expected::NoByteOrderMark;
    }
    match absent(mode, bytes[offset]) {
        Some(expected) => expected,
        None => expected(mode, frames),
    }
}
