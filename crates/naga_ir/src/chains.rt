//! Chains of expressions, from each expression to the expressions that it is made of.
ghost use Rattle.std.specs.Prelude.{◌≡◌, ◌<◌, ◌↔◌, IsTrue, All, length, option_and_then};
ghost use Rattle.naga_ir.specs.Chain.{ChainsPrecede, OriginatesIn, made_of, next_base};
ghost use Rattle.naga_arena.specs.Arena.{value_at};
ghost use Rattle.naga_ir.specs.Expression.{global_of};

use crate::expression::Expression;
use crate::module::GlobalVariable;
use naga_arena::{Arena, Handle};

/// Returns whether each base of an access, each component of a `Compose` and each value of a `Splat` comes before the
/// expression that is made of it, so that every chain of them ends.
///
/// No other references are checked, neither the `index` of an access nor the references in other expressions.
///
/// Differs from naga: naga has no such function.
pub fn chains_precede(expressions: &Arena<Expression>) -> bool
    ensures { IsTrue result ↔ ChainsPrecede expressions.now }
{
    let expressions = expressions.as_slice();
    for (i, expression) in expressions.iter().enumerate() {
        if !follows_its_parts(expression, i) {
            return false;
        }
    }
    true
}

/// Returns whether the expressions that an expression is made of all come before this position.
fn follows_its_parts(expression: &Expression, position: usize) -> bool
    ensures { IsTrue result ↔ All (λ part. part < position) (made_of expression.now) }
{
    match expression {
        Expression::Access { base, .. } | Expression::AccessIndex { base, .. } => {
            base.index() < position
        }
        Expression::Compose { components, .. } => are_before(components, position),
        Expression::Splat { value, .. } => value.index() < position,
        _ => true,
    }
}

/// Returns whether each of these handles is below a position.
fn are_before(handles: &[Handle<Expression>], position: usize) -> bool
    ensures { IsTrue result ↔ All (λ handle. handle < position) handles.now }
{
    handles.iter().all(|handle| handle.index() < position)
}

/// Returns the global variable at the end of a pointer's path, which goes from base to base, or `None` if the path ends
/// in another expression.
///
/// Preconditions: `pointer` is in the arena, and [`chains_precede`] returns `true` for the arena.
pub(crate) fn originating_global(
    expressions: &Arena<Expression>,
    pointer: Handle<Expression>,
) -> Option<Handle<GlobalVariable>>
    requires within { pointer < length expressions.now }
    requires precede { ChainsPrecede expressions.now }
    ensures { OriginatesIn expressions.now pointer result }
{
    let mut handle = pointer;
    'path: while let Some(base) = base_at(expressions, handle) {
        handle = base;
    }
    global_at(expressions, handle)
}

/// Returns the base of the access at a handle, or `None` if the expression there is not an access.
///
/// Precondition: `handle` is in the arena.
fn base_at(
    expressions: &Arena<Expression>,
    handle: Handle<Expression>,
) -> Option<Handle<Expression>>
    requires { handle < length expressions.now }
    ensures { result ≡ next_base expressions.now handle }
{
    match &expressions[handle] {
        Expression::Access { base, .. } | Expression::AccessIndex { base, .. } => Some(*base),
        _ => None,
    }
}

/// Returns the global variable at a handle, or `None` if the expression there is not a global variable.
///
/// Precondition: `handle` is in the arena.
fn global_at(
    expressions: &Arena<Expression>,
    handle: Handle<Expression>,
) -> Option<Handle<GlobalVariable>>
    requires { handle < length expressions.now }
    ensures { result ≡ option_and_then global_of (value_at expressions.now handle) }
{
    match &expressions[handle] {
        Expression::GlobalVariable(variable) => Some(*variable),
        _ => None,
    }
}
