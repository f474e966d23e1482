//! The texts of literals.
ghost use Rattle.std.specs.Prelude.{◌≡◌, ◌++◌, OnOk};
ghost use Rattle.naga_text.specs.Literals.{bits_text, integer_text, literal_text, natural_text, truth_text};
ghost use Rattle.naga_text.specs.Words.{word};

use crate::text::Text;
use naga_ir::Literal;
use std::alloc::AllocError;

/// Appends a literal, with a space before it.
pub(crate) fn push_value(text: &mut Text, literal: Literal) -> Result<(), AllocError>
    ensures { OnOk result (text.new ≡ text.old ++ word (literal_text literal)) }
{
    text.push(" ")?;
    push_literal(text, literal)
}

/// Appends a literal to a text.
fn push_literal(text: &mut Text, literal: Literal) -> Result<(), AllocError>
    ensures { OnOk result (text.new ≡ text.old ++ literal_text literal) }
{
    match literal {
        Literal::F64(bits) => push_bits(text, "F64", bits),
        Literal::F32(bits) => push_bits(text, "F32", u64::from(bits)),
        Literal::F16(bits) => push_bits(text, "F16", u64::from(bits)),
        Literal::U16(number) => push_natural(text, "U16", u64::from(number)),
        Literal::I16(number) => push_integer(text, "I16", i64::from(number)),
        Literal::U32(number) => push_natural(text, "U32", u64::from(number)),
        Literal::I32(number) => push_integer(text, "I32", i64::from(number)),
        Literal::U64(number) => push_natural(text, "U64", number),
        Literal::I64(number) => push_integer(text, "I64", number),
        Literal::Bool(truth) => push_truth(text, truth),
        Literal::AbstractInt(number) => push_integer(text, "AbstractInt", number),
        Literal::AbstractFloat(bits) => push_bits(text, "AbstractFloat", bits),
    }
}

/// Appends the name of a type and the bits of a float of this type.
fn push_bits(text: &mut Text, name: &str, bits: u64) -> Result<(), AllocError>
    ensures { OnOk result (text.new ≡ text.old ++ bits_text name.now bits) }
{
    text.push(name)?;
    text.push(" 0x")?;
    text.push_hexadecimal(bits)
}

/// Appends the name of a type and a natural number of this type.
fn push_natural(text: &mut Text, name: &str, number: u64) -> Result<(), AllocError>
    ensures { OnOk result (text.new ≡ text.old ++ natural_text name.now number) }
{
    text.push(name)?;
    text.push(" ")?;
    text.push_number(number)
}

/// Appends the name of a type and an integer of this type.
fn push_integer(text: &mut Text, name: &str, number: i64) -> Result<(), AllocError>
    ensures { OnOk result (text.new ≡ text.old ++ integer_text name.now number) }
{
    text.push(name)?;
    text.push(" ")?;
    text.push_integer(number)
}

/// Appends a boolean.
fn push_truth(text: &mut Text, truth: bool) -> Result<(), AllocError>
    ensures { OnOk result (text.new ≡ text.old ++ truth_text truth) }
{
    if truth {
        text.push("Bool true")
    } else {
        text.push("Bool false")
    }
}
