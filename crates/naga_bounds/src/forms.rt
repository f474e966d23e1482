//! The forms of expressions from which a bound of an index follows.
ghost use Rattle.std.specs.Prelude.{◌≡◌};
ghost use Rattle.naga_bounds.specs.Fits.{counted_by, difference_of, number_of, override_of, unsigned_of};

use naga_arena::Handle;
use naga_ir::{BinaryOperator, Expression, Literal, Override};

/// Returns the number of a 16-bit or 32-bit integer literal that is not negative.
pub(crate) fn number_of(expression: &Expression) -> Option<u32>
    ensures { result ≡ number_of expression.now }
{
    match expression {
        Expression::Literal(literal) => match u32::try_from(*literal) {
            Ok(number) => Some(number),
            Err(_) => None,
        },
        _ => None,
    }
}

/// Returns the number of a literal of type `u32`.
pub(crate) fn unsigned_of(expression: &Expression) -> Option<u32>
    ensures { result ≡ unsigned_of expression.now }
{
    match expression {
        Expression::Literal(Literal::U32(number)) => Some(*number),
        _ => None,
    }
}

/// Returns the operands of a difference.
pub(crate) fn difference_of(
    expression: &Expression,
) -> Option<(Handle<Expression>, Handle<Expression>)>
    ensures { result ≡ difference_of expression.now }
{
    match expression {
        Expression::Binary {
            op: BinaryOperator::Subtract,
            left,
            right,
        } => Some((*left, *right)),
        _ => None,
    }
}

/// Returns the pointer to the array whose length an expression is.
pub(crate) fn counted_by(expression: &Expression) -> Option<Handle<Expression>>
    ensures { result ≡ counted_by expression.now }
{
    match expression {
        Expression::ArrayLength(array) => Some(*array),
        _ => None,
    }
}

/// Returns the override whose value an expression is.
pub(crate) fn override_of(expression: &Expression) -> Option<Handle<Override>>
    ensures { result ≡ override_of expression.now }
{
    match expression {
        Expression::Override(handle) => Some(*handle),
        _ => None,
    }
}
