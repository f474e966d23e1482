//! Strings.
ghost use Rattle.std.specs.Prelude.{◌≡◌, ◌≢◌, ◌<◌, ◌≤◌, ◌↔◌, is_some, IsTrue};
ghost use Rattle.std.specs.Char.{digit_value};
ghost use Rattle.json.specs.Text.{short_escape};
ghost use Rattle.json_fault.specs.Steps.{IsNoPart, Passes, StringSteps};

use crate::mode::Within;

/// Returns the value of a digit, or 36 for another byte.
pub(crate) fn digit(byte: u8) -> u8
    ensures { result ≡ digit_value byte }
{
    match byte {
        b'0'..=b'9' => byte - b'0',
        b'A'..=b'Z' => byte - b'A' + 10,
        b'a'..=b'z' => byte - b'a' + 10,
        _ => 36,
    }
}

/// Returns `true` if a byte is an escape of one character with the backslash in front.
fn is_short_escape(byte: u8) -> bool
    ensures { result ≡ is_some (short_escape byte) }
{
    (byte == b'"')
        | (byte == b'\\')
        | (byte == b'/')
        | (byte == b'b')
        | (byte == b'f')
        | (byte == b'n')
        | (byte == b'r')
        | (byte == b't')
}

/// Returns where a byte leads that does not end a string.
fn plain(byte: u8) -> Option<Within>
    requires { byte ≢ 34 }
    ensures { StringSteps Within.Plain byte result }
{
    if byte == b'\\' {
        return Some(Within::Backslash);
    }
    if byte < b' ' {
        return None;
    }
    Some(Within::Plain)
}

/// Returns where a byte leads after a backslash.
fn escape(byte: u8) -> Option<Within>
    ensures { StringSteps Within.Backslash byte result }
{
    if byte == b'u' {
        return Some(Within::Unit);
    }
    if is_short_escape(byte) {
        return Some(Within::Plain);
    }
    None
}

/// Returns where a byte leads after `\u`.
fn unit(byte: u8) -> Option<Within>
    ensures { StringSteps Within.Unit byte result }
{
    let value = digit(byte);
    if value == 13 {
        return Some(Within::UnitD);
    }
    if value < 16 {
        return Some(Within::Unit1);
    }
    None
}

/// Returns where a byte leads after `\ud`.
fn unit_d(byte: u8) -> Option<Within>
    ensures { StringSteps Within.UnitD byte result }
{
    let value = digit(byte);
    if value < 8 {
        return Some(Within::Unit2);
    }
    if value < 12 {
        return Some(Within::High2);
    }
    None
}

/// Returns where a byte leads that has to be a hexadecimal digit.
fn hex(part: Within, byte: u8, next: Within) -> Option<Within>
    requires digit { digit_value byte < 16 → Passes part byte next }
    requires other { 16 ≤ digit_value byte → IsNoPart part byte }
    ensures { StringSteps part byte result }
{
    if digit(byte) < 16 {
        return Some(next);
    }
    None
}

/// Returns where a byte leads after the first half of a surrogate pair.
fn high(byte: u8) -> Option<Within>
    ensures { StringSteps Within.High byte result }
{
    if byte == b'\\' {
        return Some(Within::HighBackslash);
    }
    None
}

/// Returns where a byte leads after the first half of a surrogate pair and a backslash.
fn high_backslash(byte: u8) -> Option<Within>
    ensures { StringSteps Within.HighBackslash byte result }
{
    if byte == b'u' {
        return Some(Within::Low);
    }
    None
}

/// Returns where a byte leads after the first half of a surrogate pair and `\u`.
fn low(byte: u8) -> Option<Within>
    ensures { StringSteps Within.Low byte result }
{
    if digit(byte) == 13 {
        return Some(Within::LowD);
    }
    None
}

/// Returns where a byte leads after the first half of a surrogate pair and `\ud`.
fn low_d(byte: u8) -> Option<Within>
    ensures { StringSteps Within.LowD byte result }
{
    let value = digit(byte);
    if value < 12 {
        return None;
    }
    if value < 16 {
        return Some(Within::Unit2);
    }
    None
}

/// Returns where a byte leads in a string that it does not end.
pub(crate) fn within(part: Within, byte: u8) -> Option<Within>
    requires { part ≡ Within.Plain → byte ≢ 34 }
    ensures { StringSteps part byte result }
{
    match part {
        Within::Plain => plain(byte),
        Within::Backslash => escape(byte),
        Within::Unit => unit(byte),
        Within::UnitD => unit_d(byte),
        Within::Unit1 => hex(Within::Unit1, byte, Within::Unit2),
        Within::Unit2 => hex(Within::Unit2, byte, Within::Unit3),
        Within::Unit3 => hex(Within::Unit3, byte, Within::Plain),
        Within::High2 => hex(Within::High2, byte, Within::High3),
        Within::High3 => hex(Within::High3, byte, Within::High),
        Within::High => high(byte),
        Within::HighBackslash => high_backslash(byte),
        Within::Low => low(byte),
        Within::LowD => low_d(byte),
    }
}

/// Returns `true` if a byte ends a string.
pub(crate) fn ends(part: Within, byte: u8) -> bool
    ensures { IsTrue result ↔ ((part ≡ Within.Plain) × (byte ≡ 34)) }
{
    match part {
        Within::Plain => byte == b'"',
        _ => false,
    }
}
