//! Numbers.
ghost use Rattle.std.specs.Prelude.{◌≡◌, List, reverse, false};
ghost use Rattle.std.specs.Char.{is_ascii_digit};
ghost use Rattle.json_fault.specs.Rest.{IsReached};
ghost use Rattle.json_fault.specs.Steps.{Steps};
ghost use Rattle.json_fault.specs.declared.mode.Frame.{Frame as frame};

use crate::after::after;
use crate::mode::{Frame, Mode, Number, Step};

/// Returns what a byte does after the sign of a number.
fn minus(byte: u8) -> Option<Step>
    ensures { (outer : List frame) → IsReached (Mode.InNumber Number.Minus) outer
        → Steps (Mode.InNumber Number.Minus) outer byte result }
{
    if byte == b'0' {
        return Some(Step::To(Mode::InNumber(Number::Zero)));
    }
    if byte.is_ascii_digit() {
        return Some(Step::To(Mode::InNumber(Number::Whole)));
    }
    None
}

/// Returns what a byte does after the dot of a number.
fn dot(byte: u8) -> Option<Step>
    ensures { (outer : List frame) → IsReached (Mode.InNumber Number.Dot) outer
        → Steps (Mode.InNumber Number.Dot) outer byte result }
{
    if byte.is_ascii_digit() {
        return Some(Step::To(Mode::InNumber(Number::Fraction)));
    }
    None
}

/// Returns what a byte does after the letter of an exponent.
fn letter(byte: u8) -> Option<Step>
    ensures { (outer : List frame) → IsReached (Mode.InNumber Number.Letter) outer
        → Steps (Mode.InNumber Number.Letter) outer byte result }
{
    if byte == b'+' {
        return Some(Step::To(Mode::InNumber(Number::Sign)));
    }
    if byte == b'-' {
        return Some(Step::To(Mode::InNumber(Number::Sign)));
    }
    if byte.is_ascii_digit() {
        return Some(Step::To(Mode::InNumber(Number::Exponent)));
    }
    None
}

/// Returns what a byte does after the sign of an exponent.
fn sign(byte: u8) -> Option<Step>
    ensures { (outer : List frame) → IsReached (Mode.InNumber Number.Sign) outer
        → Steps (Mode.InNumber Number.Sign) outer byte result }
{
    if byte.is_ascii_digit() {
        return Some(Step::To(Mode::InNumber(Number::Exponent)));
    }
    None
}

/// Returns what a byte other than a digit does after the whole part of a number.
fn point(frames: &[Frame], byte: u8) -> Option<Step>
    requires reached { IsReached (Mode.InNumber Number.Zero) (reverse frames.now) }
    requires no_digit { is_ascii_digit byte ≡ false }
    ensures { Steps (Mode.InNumber Number.Zero) (reverse frames.now) byte result }
{
    if byte == b'.' {
        return Some(Step::To(Mode::InNumber(Number::Dot)));
    }
    if byte == b'e' {
        return Some(Step::To(Mode::InNumber(Number::Letter)));
    }
    if byte == b'E' {
        return Some(Step::To(Mode::InNumber(Number::Letter)));
    }
    after(frames, byte)
}

/// Returns what a byte does after a whole part of 0.
fn zero(frames: &[Frame], byte: u8) -> Option<Step>
    requires { IsReached (Mode.InNumber Number.Zero) (reverse frames.now) }
    ensures { Steps (Mode.InNumber Number.Zero) (reverse frames.now) byte result }
{
    if byte.is_ascii_digit() {
        return None;
    }
    point(frames, byte)
}

/// Returns what a byte does after digits of a whole part.
fn whole(frames: &[Frame], byte: u8) -> Option<Step>
    requires { IsReached (Mode.InNumber Number.Whole) (reverse frames.now) }
    ensures { Steps (Mode.InNumber Number.Whole) (reverse frames.now) byte result }
{
    if byte.is_ascii_digit() {
        return Some(Step::To(Mode::InNumber(Number::Whole)));
    }
    point(frames, byte)
}

/// Returns what a byte does after digits behind a dot.
fn fraction(frames: &[Frame], byte: u8) -> Option<Step>
    requires { IsReached (Mode.InNumber Number.Fraction) (reverse frames.now) }
    ensures { Steps (Mode.InNumber Number.Fraction) (reverse frames.now) byte result }
{
    if byte.is_ascii_digit() {
        return Some(Step::To(Mode::InNumber(Number::Fraction)));
    }
    if byte == b'e' {
        return Some(Step::To(Mode::InNumber(Number::Letter)));
    }
    if byte == b'E' {
        return Some(Step::To(Mode::InNumber(Number::Letter)));
    }
    after(frames, byte)
}

/// Returns what a byte does after digits of an exponent.
fn exponent(frames: &[Frame], byte: u8) -> Option<Step>
    requires { IsReached (Mode.InNumber Number.Exponent) (reverse frames.now) }
    ensures { Steps (Mode.InNumber Number.Exponent) (reverse frames.now) byte result }
{
    if byte.is_ascii_digit() {
        return Some(Step::To(Mode::InNumber(Number::Exponent)));
    }
    after(frames, byte)
}

/// Returns what a byte does in a number.
pub(crate) fn number(frames: &[Frame], part: Number, byte: u8) -> Option<Step>
    requires { IsReached (Mode.InNumber part) (reverse frames.now) }
    ensures { Steps (Mode.InNumber part) (reverse frames.now) byte result }
{
    match part {
        Number::Minus => minus(byte),
        Number::Zero => zero(frames, byte),
        Number::Whole => whole(frames, byte),
        Number::Dot => dot(byte),
        Number::Fraction => fraction(frames, byte),
        Number::Letter => letter(byte),
        Number::Sign => sign(byte),
        Number::Exponent => exponent(frames, byte),
    }
}
