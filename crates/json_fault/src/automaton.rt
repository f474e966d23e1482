//! What a byte of a text does.
ghost use Rattle.std.specs.Prelude.{◌≡◌, List, [], reverse, IfOk, OnOk};
ghost use Rattle.json_fault.specs.Rest.{completes, ends_number, is_value};
ghost use Rattle.json_fault.specs.Steps.{mode_after, outer_after};
ghost use Rattle.json_fault.specs.Rest.{IsReached};
ghost use Rattle.json_fault.specs.Steps.{Steps};
ghost use Rattle.json_fault.specs.declared.mode.Frame.{Frame as frame};

use crate::after::after;
use crate::mode::{Frame, Mode, Number, Step, Within};
use crate::numbers::number;
use crate::strings::{ends, within};
use crate::values::{colon, first_item, first_key, key, value, word};
use std::alloc::AllocError;

/// Returns what a byte does in a key.
fn in_key(part: Within, byte: u8) -> Option<Step>
    ensures { (outer : List frame) → IsReached (Mode.InKey part) outer
        → Steps (Mode.InKey part) outer byte result }
{
    if ends(part, byte) {
        return Some(Step::To(Mode::Colon));
    }
    match within(part, byte) {
        Some(next) => Some(Step::To(Mode::InKey(next))),
        None => None,
    }
}

/// Returns what a byte does in a string.
fn in_string(part: Within, byte: u8) -> Option<Step>
    ensures { (outer : List frame) → IsReached (Mode.InString part) outer
        → Steps (Mode.InString part) outer byte result }
{
    if ends(part, byte) {
        return Some(Step::To(Mode::After));
    }
    match within(part, byte) {
        Some(next) => Some(Step::To(Mode::InString(next))),
        None => None,
    }
}

/// Returns what a byte does, or nothing if no text goes on with it.
pub(crate) fn step(mode: Mode, frames: &[Frame], byte: u8) -> Option<Step>
    requires { IsReached mode (reverse frames.now) }
    ensures { Steps mode (reverse frames.now) byte result }
{
    match mode {
        Mode::Value => value(frames, byte),
        Mode::FirstItem => first_item(frames, byte),
        Mode::FirstKey => first_key(byte),
        Mode::Key => key(byte),
        Mode::Colon => colon(byte),
        Mode::After => after(frames, byte),
        Mode::InKey(part) => in_key(part, byte),
        Mode::InString(part) => in_string(part, byte),
        Mode::InNumber(part) => number(frames, part, byte),
        Mode::InWord(kind, read) => word(kind, read, byte),
    }
}

/// Returns `true` if a text may end in a state outside of lists and objects.
fn is_value(mode: Mode) -> bool
    ensures { result ≡ is_value mode }
{
    match mode {
        Mode::Value => false,
        Mode::FirstItem => false,
        Mode::FirstKey => false,
        Mode::Key => false,
        Mode::Colon => false,
        Mode::After => true,
        Mode::InKey(_) => false,
        Mode::InString(_) => false,
        Mode::InNumber(part) => ends_number(part),
        Mode::InWord(_, _) => false,
    }
}

/// Returns `true` if a number may end after a part.
pub(crate) fn ends_number(part: Number) -> bool
    ensures { result ≡ ends_number part }
{
    match part {
        Number::Minus => false,
        Number::Zero => true,
        Number::Whole => true,
        Number::Dot => false,
        Number::Fraction => true,
        Number::Letter => false,
        Number::Sign => false,
        Number::Exponent => true,
    }
}

/// Returns `true` if a text may end in a state.
pub(crate) fn may_end(mode: Mode, frames: &[Frame]) -> bool
    requires { IsReached mode (reverse frames.now) }
    ensures { result ≡ completes mode (reverse frames.now) [] }
{
    is_value(mode) && frames.is_empty()
}

/// Takes a step, and returns the mode after it.
pub(crate) fn advance(frames: &mut Vec<Frame>, step: Step) -> Result<Mode, AllocError>
    ensures mode { IfOk result (λ mode. mode ≡ mode_after step) }
    ensures frames { OnOk result
        (reverse frames.new.items ≡ outer_after step (reverse frames.old.items)) }
{
    match step {
        Step::To(mode) => Ok(mode),
        Step::Open(Frame::List) => {
            frames.push(Frame::List)?;
            Ok(Mode::FirstItem)
        }
        Step::Open(Frame::Object) => {
            frames.push(Frame::Object)?;
            Ok(Mode::FirstKey)
        }
        Step::Close => {
            frames.pop();
            Ok(Mode::After)
        }
    }
}
