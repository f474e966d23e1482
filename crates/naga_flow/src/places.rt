//! Access chains that end in an expression which needs no statement.
ghost use Rattle.std.specs.Prelude.{◌≡◌, ◌<◌, IfSome, option_and_then, option_copied};
ghost use Rattle.naga_arena.specs.Arena.{value_at};
ghost use Rattle.naga_ir.specs.Expression.{base_of};
ghost use Rattle.std.specs.FinSet as set;
ghost use Rattle.naga_flow.specs.Places.{base_before, index_of, ready_in};
ghost use Rattle.naga_flow.specs.Readings.{chosen_base, constant_base_of, constant_chains_in};

use naga_arena::{Arena, Handle};
use naga_ir::Expression;
use naga_sets::HandleSet;

/// Returns the base of an access, if it comes before the access. Returns `None` for any other expression.
pub(crate) fn base_before(
    expressions: &Arena<Expression>,
    handle: Handle<Expression>,
) -> Option<Handle<Expression>>
    ensures value { result ≡ base_before expressions.now handle }
    ensures before { IfSome result (λ base. base < handle) }
{
    let base = match expressions.try_get(handle) {
        Ok(expression) => base_of(expression),
        Err(_) => None,
    };
    match base {
        Some(base) => {
            if base.index() < handle.index() {
                Some(base)
            } else {
                None
            }
        }
        None => None,
    }
}

/// Returns the base of an access.
fn base_of(expression: &Expression) -> Option<Handle<Expression>>
    ensures { result ≡ base_of expression.now }
{
    match expression {
        Expression::Access { base, .. } => Some(*base),
        Expression::AccessIndex { base, .. } => Some(*base),
        _ => None,
    }
}

/// Returns the index of an access, if it is an expression.
pub(crate) fn index_at(
    expressions: &Arena<Expression>,
    handle: Handle<Expression>,
) -> Option<Handle<Expression>>
    ensures { result ≡ option_and_then index_of (value_at expressions.now handle) }
{
    match expressions.try_get(handle) {
        Ok(expression) => index_of(expression),
        Err(_) => None,
    }
}

/// Returns the index of an access, if it is an expression.
fn index_of(expression: &Expression) -> Option<Handle<Expression>>
    ensures { result ≡ index_of expression.now }
{
    match expression {
        Expression::Access { index, .. } => Some(*index),
        _ => None,
    }
}

/// Returns whether an expression has its value when the function is entered.
pub(crate) fn is_ready(expressions: &Arena<Expression>, handle: Handle<Expression>) -> bool
    ensures { result ≡ ready_in (value_at expressions.now handle) }
{
    match expressions.try_get(handle) {
        Ok(expression) => expression.needs_pre_emit(),
        Err(_) => false,
    }
}

/// Returns whether an expression is ready when the function is entered, or a chain of chosen accesses by constant
/// indices to such an expression.
pub(crate) fn is_constant_chain(
    expressions: &Arena<Expression>,
    chosen: &HandleSet<Expression>,
    handle: Handle<Expression>,
) -> bool
    ensures { result ≡ constant_chains_in (set.contains chosen.now.members) expressions.now handle }
{
    let mut access = handle;
    let mut steps = handle.index() + 1;
    'chain: while steps > 0 {
        if is_ready(expressions, access) {
            return true;
        }
        let Some(base) = chosen_base(expressions, chosen, access) else {
            return false;
        };
        access = base;
        steps -= 1;
    }
    false
}

/// Returns the base of an expression, if it is a chosen access by a constant index.
pub(crate) fn chosen_base(
    expressions: &Arena<Expression>,
    chosen: &HandleSet<Expression>,
    handle: Handle<Expression>,
) -> Option<Handle<Expression>>
    ensures { result ≡ chosen_base (set.contains chosen.now.members) expressions.now handle }
{
    if !chosen.contains(handle) {
        return None;
    }
    match expressions.try_get(handle) {
        Ok(expression) => constant_base_of(expression),
        Err(_) => None,
    }
}

/// Returns the base of an access by a constant index.
fn constant_base_of(expression: &Expression) -> Option<Handle<Expression>>
    ensures { result ≡ constant_base_of expression.now }
{
    match expression {
        Expression::AccessIndex { base, .. } => Some(*base),
        _ => None,
    }
}
