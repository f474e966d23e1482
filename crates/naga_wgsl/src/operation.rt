//! The texts of operations, from those of their operands.
ghost use Rattle.std.specs.Prelude.{◌≡◌, ◌++◌, [], Ok, OnOk, codes};
ghost use Rattle.naga_wgsl.specs.Operations.{access_text, between, call_text, gap_before, infix_text, operand_text, operands_text, prefix_text};
ghost use Rattle.naga_wgsl.specs.TypeTexts.{text_at};
ghost use Rattle.naga_wgsl.specs.WriteError.{Attempts, Writes};

use crate::type_texts::text_at;
use crate::write_error::{Cause, WriteError};
use naga_arena::Handle;
use naga_ir::Expression;
use naga_text::Text;
use std::alloc::AllocError;

/// Appends an operand between two texts. Returns `Err` if the operand has no text, or allocation fails.
pub(crate) fn write_between(
    text: &mut Text,
    known: &[Result<Text, Cause>],
    front: &str,
    operand: Handle<Expression>,
    back: &str,
) -> Result<(), WriteError>
    ensures { Writes (between front.now (text_at known.now operand) back.now) text.old text.new result }
{
    match text_at(known, operand.index()) {
        Ok(found) => {
            text.push(front)?;
            text.push(found)?;
            text.push(back)?;
            Ok(())
        }
        Err(cause) => Err(WriteError::Inexpressible(cause)),
    }
}

/// Appends an operator before its operand, in parentheses. Returns `Err` if the operand has no text, or allocation fails.
pub(crate) fn write_prefix(
    text: &mut Text,
    known: &[Result<Text, Cause>],
    op: &str,
    operand: Handle<Expression>,
) -> Result<(), WriteError>
    ensures { Writes (prefix_text op.now (text_at known.now operand)) text.old text.new result }
{
    match text_at(known, operand.index()) {
        Ok(found) => {
            push_prefix(text, op, found)?;
            Ok(())
        }
        Err(cause) => Err(WriteError::Inexpressible(cause)),
    }
}

/// Appends an operator before the text of its operand, in parentheses. Returns `Err` if allocation fails.
fn push_prefix(text: &mut Text, op: &str, operand: &str) -> Result<(), AllocError>
    ensures { OnOk result (text.new ≡ text.old ++ (codes "(" ++ (op.now ++ (gap_before operand.now ++ (operand.now
        ++ codes ")"))))) }
{
    text.push("(")?;
    text.push(op)?;
    text.push(gap_before(operand))?;
    text.push(operand)?;
    text.push(")")
}

/// Returns a space if a text begins with a minus sign, and else nothing.
fn gap_before(operand: &str) -> &'static str
    ensures { result.now ≡ gap_before operand.now }
{
    match operand.as_bytes() {
        [b'-', ..] => " ",
        _ => "",
    }
}

/// Appends an operator between its operands, in parentheses. Returns `Err` if an operand has no text, or allocation fails.
pub(crate) fn write_infix(
    text: &mut Text,
    known: &[Result<Text, Cause>],
    left: Handle<Expression>,
    op: &str,
    right: Handle<Expression>,
) -> Result<(), WriteError>
    ensures { Writes (infix_text (text_at known.now left) op.now (text_at known.now right)) text.old text.new result }
{
    let left = match text_at(known, left.index()) {
        Ok(found) => found,
        Err(cause) => return Err(WriteError::Inexpressible(cause)),
    };
    match text_at(known, right.index()) {
        Ok(right) => {
            push_infix(text, left, op, right)?;
            Ok(())
        }
        Err(cause) => Err(WriteError::Inexpressible(cause)),
    }
}

/// Appends an operator between the texts of its operands, in parentheses. Returns `Err` if allocation fails.
fn push_infix(text: &mut Text, left: &str, op: &str, right: &str) -> Result<(), AllocError>
    ensures { OnOk result (text.new ≡ text.old ++ (codes "(" ++ (left.now ++ (codes " " ++ (op.now ++ (codes " " ++
        (right.now ++ codes ")"))))))) }
{
    text.push("(")?;
    text.push(left)?;
    text.push(" ")?;
    text.push(op)?;
    text.push(" ")?;
    text.push(right)?;
    text.push(")")
}

/// Appends an element of a base, by its index. Returns `Err` if an operand has no text, or allocation fails.
pub(crate) fn write_access(
    text: &mut Text,
    known: &[Result<Text, Cause>],
    base: Handle<Expression>,
    index: Handle<Expression>,
) -> Result<(), WriteError>
    ensures { Writes (access_text (text_at known.now base) (text_at known.now index)) text.old text.new result }
{
    let base = match text_at(known, base.index()) {
        Ok(found) => found,
        Err(cause) => return Err(WriteError::Inexpressible(cause)),
    };
    match text_at(known, index.index()) {
        Ok(index) => {
            text.push(base)?;
            text.push("[")?;
            text.push(index)?;
            text.push("]")?;
            Ok(())
        }
        Err(cause) => Err(WriteError::Inexpressible(cause)),
    }
}

/// Appends an operand with a text before it. Returns `Err` if the operand has no text, or allocation fails.
pub(crate) fn write_operand(
    text: &mut Text,
    known: &[Result<Text, Cause>],
    before: &str,
    operand: Handle<Expression>,
) -> Result<(), WriteError>
    ensures { Writes (operand_text known.now before.now operand) text.old text.new result }
{
    match text_at(known, operand.index()) {
        Ok(found) => {
            text.push(before)?;
            text.push(found)?;
            Ok(())
        }
        Err(cause) => Err(WriteError::Inexpressible(cause)),
    }
}

/// Appends operands with commas between them. Returns `Err` if one has no text, or allocation fails.
fn write_operands(
    text: &mut Text,
    known: &[Result<Text, Cause>],
    operands: &[Handle<Expression>],
) -> Result<(), WriteError>
    ensures { Attempts (operands_text known.now [] operands.now) text.old text.new result }
{
    let mut before = "";
    'each: for operand in operands {
        match write_operand(text, known, before, *operand) {
            Ok(()) => before = ", ",
            Err(error) => return Err(error),
        }
    }
    Ok(())
}

/// Appends a call of a function with a name, or a value of a type, made of its components. Returns `Err` if an operand has
/// no text, or allocation fails.
pub(crate) fn write_call(
    text: &mut Text,
    known: &[Result<Text, Cause>],
    name: &str,
    operands: &[Handle<Expression>],
) -> Result<(), WriteError>
    ensures { Attempts (call_text known.now name.now operands.now) text.old text.new result }
{
    push_opened(text, name)?;
    write_operands(text, known, operands)?;
    text.push(")")?;
    Ok(())
}

/// Appends a name and a parenthesis. Returns `Err` if allocation fails.
fn push_opened(text: &mut Text, name: &str) -> Result<(), AllocError>
    ensures { OnOk result (text.new ≡ text.old ++ (name.now ++ codes "(")) }
{
    text.push(name)?;
    text.push("(")
}
