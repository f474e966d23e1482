//! The start of a value.
ghost use Rattle.std.specs.Prelude.{◌≡◌, ◌≢◌, ◌<◌, List, false, length, reverse};
ghost use Rattle.json.specs.Word.{is_space};
ghost use Rattle.json_fault.specs.Rest.{IsReached, text_of};
ghost use Rattle.json_fault.specs.Steps.{Steps};
ghost use Rattle.json_fault.specs.declared.mode.Frame.{Frame as frame};

use crate::after::is_space;
use crate::mode::{Frame, Mode, Number, Step, Within, Word};

/// The greatest depth to which lists and objects are nested.
const MAX_DEPTH: usize = 127;

/// Returns the text of a literal.
fn word_text(word: Word) -> &'static [u8]
    ensures { result.now ≡ text_of word }
{
    match word {
        Word::True => b"true",
        Word::False => b"false",
        Word::Null => b"null",
    }
}

/// Returns what a byte does in a literal.
pub(crate) fn word(word: Word, read: usize, byte: u8) -> Option<Step>
    requires { read < length (text_of word) }
    ensures { (outer : List frame) → IsReached (Mode.InWord word read) outer
        → Steps (Mode.InWord word read) outer byte result }
{
    let text = word_text(word);
    if text[read] != byte {
        return None;
    }
    if read + 1 == text.len() {
        return Some(Step::To(Mode::After));
    }
    Some(Step::To(Mode::InWord(word, read + 1)))
}

/// Returns what a byte does that opens a list.
fn open_list(frames: &[Frame], byte: u8) -> Option<Step>
    requires { byte ≡ 91 }
    ensures { Steps Mode.Value (reverse frames.now) byte result }
{
    if frames.len() < MAX_DEPTH {
        return Some(Step::Open(Frame::List));
    }
    None
}

/// Returns what a byte does that opens an object.
fn open_object(frames: &[Frame], byte: u8) -> Option<Step>
    requires { byte ≡ 123 }
    ensures { Steps Mode.Value (reverse frames.now) byte result }
{
    if frames.len() < MAX_DEPTH {
        return Some(Step::Open(Frame::Object));
    }
    None
}

/// Returns what a byte does where a literal or a number begins.
fn literal(byte: u8) -> Option<Step>
    requires space { is_space byte ≡ false }
    requires other { (byte ≢ 34) × (byte ≢ 91) × (byte ≢ 123) }
    ensures { (outer : List frame) → IsReached Mode.Value outer
        → Steps Mode.Value outer byte result }
{
    if byte == b'-' {
        return Some(Step::To(Mode::InNumber(Number::Minus)));
    }
    if byte == b'0' {
        return Some(Step::To(Mode::InNumber(Number::Zero)));
    }
    if byte.is_ascii_digit() {
        return Some(Step::To(Mode::InNumber(Number::Whole)));
    }
    if byte == b't' {
        return Some(Step::To(Mode::InWord(Word::True, 1)));
    }
    if byte == b'f' {
        return Some(Step::To(Mode::InWord(Word::False, 1)));
    }
    if byte == b'n' {
        return Some(Step::To(Mode::InWord(Word::Null, 1)));
    }
    None
}

/// Returns what a byte does where a value begins.
pub(crate) fn value(frames: &[Frame], byte: u8) -> Option<Step>
    requires { IsReached Mode.Value (reverse frames.now) }
    ensures { Steps Mode.Value (reverse frames.now) byte result }
{
    if is_space(byte) {
        return Some(Step::To(Mode::Value));
    }
    if byte == b'"' {
        return Some(Step::To(Mode::InString(Within::Plain)));
    }
    if byte == b'[' {
        return open_list(frames, byte);
    }
    if byte == b'{' {
        return open_object(frames, byte);
    }
    literal(byte)
}

/// Returns what a byte does after the bracket that opens a list.
pub(crate) fn first_item(frames: &[Frame], byte: u8) -> Option<Step>
    requires { IsReached Mode.FirstItem (reverse frames.now) }
    ensures { Steps Mode.FirstItem (reverse frames.now) byte result }
{
    if is_space(byte) {
        return Some(Step::To(Mode::FirstItem));
    }
    if byte == b']' {
        return Some(Step::Close);
    }
    value(frames, byte)
}

/// Returns what a byte does after the brace that opens an object.
pub(crate) fn first_key(byte: u8) -> Option<Step>
    ensures { (outer : List frame) → IsReached Mode.FirstKey outer
        → Steps Mode.FirstKey outer byte result }
{
    if is_space(byte) {
        return Some(Step::To(Mode::FirstKey));
    }
    if byte == b'"' {
        return Some(Step::To(Mode::InKey(Within::Plain)));
    }
    if byte == b'}' {
        return Some(Step::Close);
    }
    None
}

/// Returns what a byte does after a comma in an object.
pub(crate) fn key(byte: u8) -> Option<Step>
    ensures { (outer : List frame) → IsReached Mode.Key outer
        → Steps Mode.Key outer byte result }
{
    if is_space(byte) {
        return Some(Step::To(Mode::Key));
    }
    if byte == b'"' {
        return Some(Step::To(Mode::InKey(Within::Plain)));
    }
    None
}

/// Returns what a byte does after a key.
pub(crate) fn colon(byte: u8) -> Option<Step>
    ensures { (outer : List frame) → IsReached Mode.Colon outer
        → Steps Mode.Colon outer byte result }
{
    if is_space(byte) {
        return Some(Step::To(Mode::Colon));
    }
    if byte == b':' {
        return Some(Step::To(Mode::Value));
    }
    None
}
