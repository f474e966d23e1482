//! The texts of literals.
ghost use Rattle.std.specs.Prelude.{◌≡◌, ◌++◌, ◌<◌, ◌^◌, Ok, codes};
ghost use Rattle.std.specs.Fmt.{decimal, signed_decimal};
ghost use Rattle.naga_wgsl.specs.Literals.{abstract_integer_text, i32_text, text_of_float, text_of_literal, truth_text};
ghost use Rattle.naga_wgsl.specs.WriteError.{Writes};

use crate::float::{FloatParts, push_float};
use crate::write_error::{Cause, WriteError};
use naga_ir::Literal;
use naga_text::Text;

/// Appends a literal, with the suffix of its type.
///
/// An integer is decimal, as in `7u` and `-7i`, and a float hexadecimal, as in `0x1.8p1f` for 3: its text has the value of
/// the float exactly. A float that is 0 is `0.0f` or `-0.0f`. The lowest integer is an expression,
/// `i32(-2147483648)`.
///
/// By [`texts_of_literals_differ`](crate::laws::literals::texts_of_literals_differ), two different literals have different
/// texts.
///
/// Returns `Err` if WGSL has no such literal, or allocation fails: it has none of a NaN or an infinity, of a float of 64
/// bits, or of an integer of 16 or 64 bits. Then the text is unchanged, unless allocation fails.
pub fn write_literal(text: &mut Text, literal: Literal) -> Result<(), WriteError>
    ensures { Writes (text_of_literal literal) text.old text.new result }
{
    match literal {
        Literal::F64(_) => Err(WriteError::Inexpressible(Cause::Scalar)),
        Literal::F32(bits) => write_float(text, 127, FloatParts::of_32(bits), "f"),
        Literal::F16(bits) => write_float(text, 15, FloatParts::of_16(bits), "h"),
        Literal::U16(_) => Err(WriteError::Inexpressible(Cause::Scalar)),
        Literal::I16(_) => Err(WriteError::Inexpressible(Cause::Scalar)),
        Literal::U32(number) => write_natural(text, number),
        Literal::I32(number) => write_i32(text, number),
        Literal::U64(_) => Err(WriteError::Inexpressible(Cause::Scalar)),
        Literal::I64(_) => Err(WriteError::Inexpressible(Cause::Scalar)),
        Literal::Bool(truth) => write_truth(text, truth),
        Literal::AbstractInt(number) => write_abstract_integer(text, number),
        Literal::AbstractFloat(bits) => write_float(text, 1023, FloatParts::of_64(bits), ""),
    }
}

/// Appends a float, with the suffix of its type. Returns `Err` if it is not finite, or allocation fails.
fn write_float(
    text: &mut Text,
    bias: u32,
    parts: FloatParts,
    suffix: &str,
) -> Result<(), WriteError>
    requires bias { bias < 2 ^ 30 }
    requires fraction { parts.fraction < 2 ^ 52 }
    ensures { Writes (text_of_float bias parts suffix.now) text.old text.new result }
{
    if parts.is_finite(bias) {
        push_float(text, bias, parts, suffix)?;
        Ok(())
    } else {
        Err(WriteError::Inexpressible(Cause::NotFinite))
    }
}

/// Appends a `u32`. Returns `Err` if allocation fails.
fn write_natural(text: &mut Text, number: u32) -> Result<(), WriteError>
    ensures { Writes (Ok (decimal number ++ codes "u")) text.old text.new result }
{
    text.push_number(u64::from(number))?;
    text.push("u")?;
    Ok(())
}

/// Appends an `i32`. Returns `Err` if allocation fails.
fn write_i32(text: &mut Text, number: i32) -> Result<(), WriteError>
    ensures { Writes (Ok (i32_text number)) text.old text.new result }
{
    if number == i32::MIN {
        text.push("i32(-2147483648)")?;
    } else {
        text.push_integer(i64::from(number))?;
        text.push("i")?;
    }
    Ok(())
}

/// Appends a boolean. Returns `Err` if allocation fails.
fn write_truth(text: &mut Text, truth: bool) -> Result<(), WriteError>
    ensures { Writes (Ok (truth_text truth)) text.old text.new result }
{
    text.push(if truth { "true" } else { "false" })?;
    Ok(())
}

/// Appends an integer that has no concrete type. Returns `Err` if allocation fails.
fn write_abstract_integer(text: &mut Text, number: i64) -> Result<(), WriteError>
    ensures { Writes (Ok (abstract_integer_text number)) text.old text.new result }
{
    if number == i64::MIN {
        text.push("(-9223372036854775807 - 1)")?;
    } else {
        text.push_integer(number)?;
    }
    Ok(())
}
