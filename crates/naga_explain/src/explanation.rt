//! What is to be said of a text that was not read as a module.
ghost use Rattle.std.specs.Prelude.{◌≡◌, IfOk, option_map, string_bytes};
ghost use Rattle.json.specs.Value.{value_view};
ghost use Rattle.naga_json.specs.Text.{document};
ghost use Rattle.naga_explain.specs.Explains.{Explains, ExplainsHandle, ExplainsText, ExplainsValue};
ghost use Rattle.naga_explain.specs.Messages.{IsMessage};

use crate::item::{Item, item_at_fault};
use crate::place::write_place;
use crate::position::Position;
use json::{Scratch, Value};
use json_fault::{TextFault, find_text_fault};
use naga_ir::Module;
use naga_json_read::{Cause, ReadError, parse, read_module_value};
use naga_schema::{Fault, find_module_fault};
use naga_valid::InvalidHandle;
use std::alloc::{AllocError, Global};
use std::fmt;

/// What is to be said of a text that was not read as a module.
#[derive(Debug, Drop)]
pub enum Explanation<'a> {
    /// The first fault of the text, which is not JSON, and where it is.
    Text(TextFault, Position),
    /// The first fault of the JSON of the text, with the path that leads to it.
    Value(Fault<'a>),
    /// The handle that is not valid, the item that contains it if its place has several, and the module that the text
    /// represents, which has the names.
    Handle(InvalidHandle, Option<Item>, Module),
    /// The error itself.
    Error(ReadError),
}

impl fmt::Display for Explanation<'_> {
    ghost use Rattle.naga_explain.specs.Messages.{explanation_text};

    ghost output = { λ explanation. explanation_text explanation };

    fn fmt<W: fmt::Write>(&self, f: &mut fmt::Formatter<W>) -> fmt::Result {
        match self {
            Explanation::Text(fault, position) => {
                write!(f, "invalid JSON at {position}: ")?;
                fault.write_reason(f)
            }
            Explanation::Value(fault) => write!(f, "{fault}"),
            Explanation::Handle(invalid, item, module) => {
                write_place(f, &invalid.place(), *item, module)?;
                invalid.write_after_place(f)
            }
            Explanation::Error(error) => write!(f, "{error}"),
        }
    }
}

/// Returns what is to be said of a text for which [`read_module`](naga_json_read::read_module) returned an error.
///
/// The text is read once more. It is [`Explanation::Error`] if there is nothing more to say, as for two types that are
/// equal. `skipped` is the number of bytes in front of `text` in its file, such as the 3 bytes of a byte order mark.
/// They count for the byte that is named, and not for its column.
///
/// Differs from naga: naga has no such function.
pub fn explain<'a>(
    alloc: Global,
    text: &'a str,
    skipped: usize,
    scratch: &'a mut Scratch,
    error: ReadError,
) -> Result<Explanation<'a>, AllocError>
    ensures { IfOk result (Explains text.now skipped error) }
{
    match error {
        ReadError::Text { offset } => explain_text(alloc, text, skipped, offset),
        ReadError::Value(cause) => explain_value(alloc, text, scratch, cause),
        ReadError::Handle(invalid) => explain_handle(alloc, text, scratch, invalid),
        _ => Ok(Explanation::Error(error)),
    }
}

/// Returns the first fault of a text that is not JSON, or else the error.
fn explain_text<'a>(
    alloc: Global,
    text: &'a str,
    skipped: usize,
    offset: usize,
) -> Result<Explanation<'a>, AllocError>
    ensures { IfOk result (ExplainsText text.now skipped offset) }
{
    match find_text_fault(alloc, text)? {
        Some(fault) => {
            let position = Position::new(text, skipped, fault.offset());
            Ok(Explanation::Text(fault, position))
        }
        None => Ok(Explanation::Error(ReadError::Text { offset })),
    }
}

/// Parses a text. Returns `None` if it is not JSON.
fn parsed<'a>(
    alloc: Global,
    text: &'a str,
    scratch: &'a mut Scratch,
) -> Result<Option<Value<'a>>, AllocError>
    ensures { IfOk result (λ value. option_map value_view value ≡ document text.now) }
{
    match parse(alloc, text, scratch) {
        Ok(value) => Ok(Some(value)),
        Err(ReadError::Text { .. }) => Ok(None),
        Err(_) => Err(AllocError),
    }
}

/// Returns the first fault of the JSON of a text, or else the error.
fn explain_value<'a>(
    alloc: Global,
    text: &'a str,
    scratch: &'a mut Scratch,
    cause: Cause,
) -> Result<Explanation<'a>, AllocError>
    ensures { IfOk result (ExplainsValue (document text.now) cause) }
{
    let Some(value) = parsed(alloc, text, scratch)? else {
        return Ok(Explanation::Error(ReadError::Value(cause)));
    };
    match find_module_fault(alloc, &value)? {
        Some(fault) => Ok(Explanation::Value(fault)),
        None => Ok(Explanation::Error(ReadError::Value(cause))),
    }
}

/// Returns the handle with the module that a text represents, or else the error.
fn explain_handle<'a>(
    alloc: Global,
    text: &'a str,
    scratch: &'a mut Scratch,
    invalid: InvalidHandle,
) -> Result<Explanation<'a>, AllocError>
    ensures { IfOk result (ExplainsHandle (document text.now) invalid) }
{
    let Some(value) = parsed(alloc, text, scratch)? else {
        return Ok(Explanation::Error(ReadError::Handle(invalid)));
    };
    match read_module_value(alloc, &value) {
        Ok(module) => {
            let item = item_at_fault(&module, &invalid);
            Ok(Explanation::Handle(invalid, item, module))
        }
        Err(cause) => {
            if cause == Cause::Memory {
                return Err(AllocError);
            }
            Ok(Explanation::Error(ReadError::Handle(invalid)))
        }
    }
}

/// Returns the message for a text for which [`read_module`](naga_json_read::read_module) returned an error: that of
/// [`explain`].
///
/// `skipped` is the number of bytes in front of `text` in its file: 3 after a byte order mark, and else 0.
///
/// Differs from naga: naga has no such function.
pub fn message_of(
    alloc: Global,
    text: &str,
    skipped: usize,
    error: ReadError,
) -> Result<String, AllocError>
    ensures { IfOk result (λ message. IsMessage text.now skipped error (string_bytes message)) }
{
    let mut scratch = Scratch::new(alloc);
    let explanation = explain(alloc, text, skipped, &mut scratch, error)?;
    format!(in alloc; "{explanation}")
}
