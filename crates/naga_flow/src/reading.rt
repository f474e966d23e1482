//! What may be used where some expressions have been evaluated.
ghost use Rattle.std.specs.Prelude.{◌≡◌, ◌↔◌, ◌∷◌, [], IsTrue, Some, option_to_list};
ghost use Rattle.std.specs.FinSet as set;
ghost use Rattle.naga_flow.specs.Chains.{EndsReady, indices_from};
ghost use Rattle.naga_flow.specs.Misuses.{IsAt, IsUnfit, IsUnread, Judged, not_evaluated};
ghost use Rattle.naga_flow.specs.Places.{reads_in};
ghost use Rattle.naga_flow.specs.Readings.{expressions_by, read_in};
ghost use Rattle.naga_flow.specs.Tracking.{FindsFirstNot, known_of};
ghost use Rattle.naga_flow.specs.Uses.{AreEvaluatedBy, IsKnown, MayUse, MayUseEach, expressions_in};
ghost use Rattle.naga_flow.specs.declared.invalid_use.InvalidUse.TheVariants as invalid;

use crate::chains::{Chains, Indexed, Link};
use crate::evaluation::Evaluation;
use crate::invalid_use::{Cause, InvalidUse, Misuse};
use crate::known::Known;
use crate::reads::{Reading, Reads};
use naga_arena::{Handle, Span};
use naga_ir::Expression;
use naga_sets::HandleSet;

/// Returns whether an expression gets its value in this way.
pub(crate) fn is_evaluated(
    expressions: &Chains<'_>,
    handle: Handle<Expression>,
    way: &Evaluation,
) -> bool
    ensures { IsTrue result ↔ ((expressions_in expressions.now).evaluation handle ≡ Some way.now) }
{
    match expressions.try_get(handle) {
        Ok(expression) => Evaluation::of_expression(expression) == *way,
        Err(_) => false,
    }
}

/// Returns whether an expression has a value.
fn has_value(known: &Known, expressions: &Chains<'_>, handle: Handle<Expression>) -> bool
    ensures { IsTrue result ↔ IsKnown (expressions_in expressions.now) (known_of known.now) handle }
{
    if known.contains(handle) {
        return true;
    }
    is_evaluated(expressions, handle, &Evaluation::Ready)
}

/// Returns the first index of an access chain that has no value, from this one on. The chain ends in a ready expression.
#[inline(never)]
fn unread_index(
    known: &Known,
    expressions: &Chains<'_>,
    first: Indexed,
) -> Option<Handle<Expression>>
    requires { EndsReady expressions.now first.base }
    ensures { FindsFirstNot (IsKnown (expressions_in expressions.now) (known_of known.now))
        (indices_from expressions.now (Some first)) result }
{
    let mut next = Some(first);
    'chain: while let Some(indexed) = next {
        if !has_value(known, expressions, indexed.index) {
            return Some(indexed.index);
        }
        next = expressions.first_index(indexed.base);
    }
    None
}

/// Returns an expression if it has no value.
fn unread_value(
    known: &Known,
    expressions: &Chains<'_>,
    handle: Handle<Expression>,
) -> Option<Handle<Expression>>
    ensures { FindsFirstNot (IsKnown (expressions_in expressions.now) (known_of known.now)) (handle ∷ []) result }
{
    if has_value(known, expressions, handle) {
        None
    } else {
        Some(handle)
    }
}

/// Returns the first expression that a use of `handle` reads and that has no value, if access chains are read.
#[inline(always)]
fn unread_of_chain(
    known: &Known,
    expressions: &Chains<'_>,
    handle: Handle<Expression>,
) -> Option<Handle<Expression>>
    ensures { FindsFirstNot (IsKnown (expressions_in expressions.now) (known_of known.now))
        (reads_in expressions.now handle) result }
{
    match expressions.link(handle) {
        Link::Value => unread_value(known, expressions, handle),
        Link::Place(first) => match first {
            None => None,
            Some(first) => unread_index(known, expressions, first),
        },
    }
}

/// Returns the expression if a use of it reads its value and it has none, where those of a set are evaluated where they
/// are used.
#[inline(never)]
fn unread_emitted(
    known: &Known,
    expressions: &Chains<'_>,
    at_use: &HandleSet<Expression>,
    handle: Handle<Expression>,
) -> Option<Handle<Expression>>
    ensures { FindsFirstNot (IsKnown (expressions_in expressions.now) (known_of known.now))
        ((expressions_by (set.contains at_use.now.members) expressions.now).reads handle) result }
{
    if at_use.contains(handle) {
        return None;
    }
    unread_value(known, expressions, handle)
}

/// Returns the first expression that a use of `handle` reads and that has no value.
#[inline(always)]
pub(crate) fn unread(
    known: &Known,
    reading: &Reading<'_>,
    handle: Handle<Expression>,
) -> Option<Handle<Expression>>
    ensures { FindsFirstNot (IsKnown (read_in reading.now) (known_of known.now))
        ((read_in reading.now).reads handle) result }
{
    match reading.reads {
        Reads::Chains => unread_of_chain(known, reading.expressions, handle),
        Reads::Emitted(at_use) => unread_emitted(known, reading.expressions, at_use, handle),
        Reads::Nothing => None,
    }
}

/// Checks that an expression may be used by the statement with this number and this span.
pub(crate) fn require(
    known: &Known,
    reading: &Reading<'_>,
    handle: Handle<Expression>,
    statement: u64,
    span: Span,
) -> Result<(), InvalidUse>
    ensures { Judged result (λ _. MayUse (read_in reading.now) (known_of known.now) handle)
        (λ misuse. IsAt statement span misuse
        × IsUnread (read_in reading.now) (known_of known.now) (handle ∷ []) misuse) }
{
    match unread(known, reading, handle) {
        None => Ok(()),
        Some(expression) => Err(not_evaluated(expression, statement, span)),
    }
}

/// Returns the error of a statement that uses an expression without a value.
pub(crate) fn not_evaluated(
    expression: Handle<Expression>,
    statement: u64,
    span: Span,
) -> InvalidUse
    ensures { result ≡ invalid.Misuse (not_evaluated expression statement span) }
{
    InvalidUse::Misuse(Misuse {
        statement,
        span,
        expression,
        cause: Cause::NotEvaluated,
    })
}

/// Checks that an expression may be used, if there is one.
pub(crate) fn require_present(
    known: &Known,
    reading: &Reading<'_>,
    handle: Option<Handle<Expression>>,
    statement: u64,
    span: Span,
) -> Result<(), InvalidUse>
    ensures { Judged result (λ _. MayUseEach (read_in reading.now) (known_of known.now) (option_to_list handle))
        (λ misuse. IsAt statement span misuse
        × IsUnread (read_in reading.now) (known_of known.now) (option_to_list handle) misuse) }
{
    match handle {
        Some(handle) => require(known, reading, handle, statement, span),
        None => Ok(()),
    }
}

/// Checks that an expression gets its value in this way, if there is one.
pub(crate) fn require_fit(
    expressions: &Chains<'_>,
    handle: Option<Handle<Expression>>,
    way: &Evaluation,
    statement: u64,
    span: Span,
) -> Result<(), InvalidUse>
    ensures { Judged result (λ _. AreEvaluatedBy (expressions_in expressions.now) way.now (option_to_list handle))
        (λ misuse. IsAt statement span misuse
        × IsUnfit (expressions_in expressions.now) way.now (option_to_list handle) misuse) }
{
    let Some(expression) = handle else {
        return Ok(());
    };
    if is_evaluated(expressions, expression, way) {
        return Ok(());
    }
    Err(InvalidUse::Misuse(Misuse {
        statement,
        span,
        expression,
        cause: Cause::NotEvaluatedBy(*way),
    }))
}
