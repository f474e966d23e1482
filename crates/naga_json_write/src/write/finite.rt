//! Which literals are finite.
ghost use Rattle.std.specs.Prelude.{◌≡◌};
ghost use Rattle.naga_json_write.specs.Finite.{are_finite, entry_points_are_finite, functions_are_finite, is_finite, is_finite_literal, is_finite_module};

use naga_arena::Arena;
use naga_ir::{EntryPoint, Expression, Function, Literal, Module};

/// Returns `false` for a literal that is a NaN or an infinity.
fn is_finite_literal(literal: &Literal) -> bool
    ensures { result ≡ is_finite_literal literal.now }
{
    match literal {
        Literal::F64(bits) => std::num::f64_from_bits_with_nan(*bits).is_finite(),
        Literal::F32(bits) => std::num::f32_from_bits_with_nan(*bits).is_finite(),
        Literal::AbstractFloat(bits) => std::num::f64_from_bits_with_nan(*bits).is_finite(),
        _ => true,
    }
}

/// Returns `false` for a literal that is a NaN or an infinity.
fn is_finite(expression: &Expression) -> bool
    ensures { result ≡ is_finite expression.now }
{
    match expression {
        Expression::Literal(literal) => is_finite_literal(literal),
        _ => true,
    }
}

/// Returns `false` if one of the expressions is a literal that is a NaN or an infinity.
#[tactic(auto, using(crate::proofs::ArenasLemmas::values_of_entries))]
fn are_finite(expressions: &Arena<Expression>) -> bool
    ensures { result ≡ are_finite expressions.now }
{
    for (_, expression) in expressions.iter() {
        if !is_finite(expression) {
            return false;
        }
    }
    true
}

/// Returns `false` if a literal of one of the functions is a NaN or an infinity.
#[tactic(auto, using(crate::proofs::ArenasLemmas::values_of_entries))]
fn functions_are_finite(functions: &Arena<Function>) -> bool
    ensures { result ≡ functions_are_finite functions.now }
{
    for (_, function) in functions.iter() {
        if !are_finite(&function.expressions) {
            return false;
        }
    }
    true
}

/// Returns `false` if a literal of one of the entry points is a NaN or an infinity.
fn entry_points_are_finite(entry_points: &[EntryPoint]) -> bool
    ensures { result ≡ entry_points_are_finite entry_points.now }
{
    for entry_point in entry_points {
        if !are_finite(&entry_point.function.expressions) {
            return false;
        }
    }
    true
}

/// Returns `false` if a literal of the module is a NaN or an infinity.
pub(super) fn is_finite_module(module: &Module) -> bool
    ensures { result ≡ is_finite_module «module».now }
{
    are_finite(&module.global_expressions)
        && functions_are_finite(&module.functions)
        && entry_points_are_finite(module.entry_points.as_slice())
}
