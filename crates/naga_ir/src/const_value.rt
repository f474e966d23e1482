//! Values that are read from literals.
ghost use Rattle.std.specs.Prelude.{◌≡◌, Ok};
ghost use Rattle.naga_ir.specs.Literal.{u32_of, bool_of, natural};

use crate::literal::Literal;

/// The error returned when an expression has no constant value of the requested type.
#[derive(Debug, PartialEq, Eq, Drop)]
pub enum ConstValueError {
    /// The expression has no constant value. Only a literal, the zero value of a scalar that has a zero literal, and a
    /// constant whose `init` is one of these two have one.
    NonConst,
    /// The value is negative, and the requested type has no negative values.
    Negative,
    /// The value is a literal that cannot be read as the requested type.
    InvalidType,
}

/// A type whose values can be read from a literal.
///
/// Differs from naga: this trait replaces naga's bound `TryFrom<Literal>`.
pub trait FromLiteral: Sized {
    ghost use Rattle.std.specs.Prelude.{Result};
    ghost use Rattle.naga_ir.specs.declared.const_value.ConstValueError.{ConstValueError as Refusal};
    ghost use Rattle.naga_ir.specs.declared.literal.Literal.{Literal as Written};

    // The value that is read from a literal, or the error.
    ghost value_of: { Written → Result Self Refusal };

    /// Reads a value of this type from `literal`. Returns `Err` if there is no such value.
    fn from_literal(literal: Literal) -> Result<Self, ConstValueError>
        ensures { result ≡ value_of literal };
}

/// Reads a 16-bit or 32-bit integer that is not negative.
///
/// The error is [`ConstValueError::Negative`] for a negative 16-bit or 32-bit integer, and
/// [`ConstValueError::InvalidType`] for all other literals. As in naga, this includes literals of other widths, even if
/// the number would fit into a `u32`.
impl TryFrom<Literal> for u32 {
    type Error = ConstValueError;

    ghost try_from_gives = { λ literal result. result ≡ u32_of literal };

    fn try_from(literal: Literal) -> Result<Self, ConstValueError> {
        match literal {
            Literal::U16(number) => Ok(u32::from(number)),
            Literal::U32(number) => Ok(number),
            Literal::I16(number) => natural(i32::from(number)),
            Literal::I32(number) => natural(number),
            _ => Err(ConstValueError::InvalidType),
        }
    }
}

/// Converts a number to a `u32`. Returns [`ConstValueError::Negative`] if the number is negative.
fn natural(number: i32) -> Result<u32, ConstValueError>
    ensures { result ≡ natural number }
{
    if number < 0 {
        Err(ConstValueError::Negative)
    } else {
        Ok(number as u32)
    }
}

/// Reads a boolean. The error is [`ConstValueError::InvalidType`] for all other literals.
impl TryFrom<Literal> for bool {
    type Error = ConstValueError;

    ghost try_from_gives = { λ literal result. result ≡ bool_of literal };

    fn try_from(literal: Literal) -> Result<Self, ConstValueError> {
        match literal {
            Literal::Bool(truth) => Ok(truth),
            _ => Err(ConstValueError::InvalidType),
        }
    }
}

impl FromLiteral for u32 {
    ghost value_of = { u32_of };

    fn from_literal(literal: Literal) -> Result<Self, ConstValueError> {
        u32::try_from(literal)
    }
}

impl FromLiteral for bool {
    ghost value_of = { bool_of };

    fn from_literal(literal: Literal) -> Result<Self, ConstValueError> {
        bool::try_from(literal)
    }
}

/// Reads every literal as itself.
impl FromLiteral for Literal {
    ghost value_of = { λ literal. Ok literal };

    fn from_literal(literal: Literal) -> Result<Self, ConstValueError> {
        Ok(literal)
    }
}
