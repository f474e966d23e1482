//! Pieces of the texts of expressions, statements and types.
ghost use Rattle.std.specs.Prelude.{◌≡◌, ◌++◌, OnOk, is_some};
ghost use Rattle.std.specs.Option.{option_map};
ghost use Rattle.naga_text.specs.Words.{flag, number, optional_name, optional_number, word};

use crate::text::Text;
use naga_arena::Handle;
use naga_ir::{Bytes, Expression};
use naga_kinds::PlainKind;
use std::alloc::AllocError;

/// Appends the name of a kind, with a space before it.
pub(crate) fn push_kind_name<K: PlainKind>(text: &mut Text, kind: K) -> Result<(), AllocError>
    ensures { OnOk result (text.new ≡ text.old ++ word (K.name_of kind)) }
{
    text.push_word(kind.name())
}

/// Appends a name and that of a kind.
pub(crate) fn push_named_kind<K: PlainKind>(
    text: &mut Text,
    name: &str,
    kind: K,
) -> Result<(), AllocError>
    ensures { OnOk result (text.new ≡ text.old ++ (name.now ++ word (K.name_of kind))) }
{
    text.push(name)?;
    push_kind_name(text, kind)
}

/// Appends a word and the name of a kind, if there is one.
pub(crate) fn push_optional_kind<K: PlainKind>(
    text: &mut Text,
    what: &str,
    kind: Option<K>,
) -> Result<(), AllocError>
    ensures { OnOk result (text.new ≡ text.old ++ optional_name what.now (option_map K.name_of kind)) }
{
    match kind {
        Some(kind) => {
            text.push_word(what)?;
            push_kind_name(text, kind)
        }
        None => Ok(()),
    }
}

/// Appends a word if an operand is present.
pub(crate) fn push_presence(
    text: &mut Text,
    operand: Option<Handle<Expression>>,
    name: &str,
) -> Result<(), AllocError>
    ensures { OnOk result (text.new ≡ text.old ++ flag (is_some operand) name.now) }
{
    text.push_flag(operand.is_some(), name)
}

/// Appends a number, with a space before it.
pub(crate) fn push_number(text: &mut Text, value: u32) -> Result<(), AllocError>
    ensures { OnOk result (text.new ≡ text.old ++ number value) }
{
    text.push_index(value as usize)
}

/// Appends a number of bytes, if there is one.
pub(crate) fn push_optional_number(text: &mut Text, value: Option<Bytes>) -> Result<(), AllocError>
    ensures { OnOk result (text.new ≡ text.old ++ optional_number value) }
{
    match value {
        Some(value) => push_number(text, u32::from(value)),
        None => Ok(()),
    }
}

/// Appends a name and a word.
pub(crate) fn push_worded(text: &mut Text, name: &str, after: &str) -> Result<(), AllocError>
    ensures { OnOk result (text.new ≡ text.old ++ (name.now ++ word after.now)) }
{
    text.push(name)?;
    text.push_word(after)
}

/// Appends a name and two words.
pub(crate) fn push_two(
    text: &mut Text,
    name: &str,
    first: &str,
    second: &str,
) -> Result<(), AllocError>
    ensures { OnOk result (text.new ≡ text.old ++ (name.now ++ (word first.now ++ word second.now))) }
{
    text.push(name)?;
    text.push_word(first)?;
    text.push_word(second)
}

/// Appends a name and a number.
pub(crate) fn push_numbered(text: &mut Text, name: &str, index: u32) -> Result<(), AllocError>
    ensures { OnOk result (text.new ≡ text.old ++ (name.now ++ number index)) }
{
    text.push(name)?;
    push_number(text, index)
}

/// Appends a name, and a word if it applies.
pub(crate) fn push_flagged(
    text: &mut Text,
    name: &str,
    is: bool,
    after: &str,
) -> Result<(), AllocError>
    ensures { OnOk result (text.new ≡ text.old ++ (name.now ++ flag is after.now)) }
{
    text.push(name)?;
    text.push_flag(is, after)
}
