//! The check of the expressions to which a part of a function refers.
ghost use Rattle.std.specs.Prelude.{◌≡◌, option_to_list};
ghost use Rattle.naga_valid.specs.Operands.{expressions_of};
ghost use Rattle.naga_flow.specs.Misuses.{FindsUnread, IsAt, IsUnread, Judged};
ghost use Rattle.naga_flow.specs.Readings.{read_in};
ghost use Rattle.naga_flow.specs.Results.{without};
ghost use Rattle.naga_flow.specs.Tracking.{awaited_after, is_awaited, known_of, operand_at};
ghost use Rattle.naga_flow.specs.Uses.{MayUseEach};

use crate::invalid_use::InvalidUse;
use crate::known::Known;
use crate::reading::{not_evaluated, unread};
use crate::reads::Reading;
use naga_arena::{Handle, Span};
use naga_ir::Expression;
use naga_valid::{Reference, Refers, Visitor};
use std::ops::ControlFlow;

/// Checks that the expressions to which a part of a function refers may be used, except for `outcome` where it is
/// referred to first.
pub(crate) fn require_each<P: Refers>(
    known: &Known,
    reading: &Reading<'_>,
    part: &P,
    outcome: Option<Handle<Expression>>,
    statement: u64,
    span: Span,
) -> Result<(), InvalidUse>
    ensures { let used = without outcome (expressions_of (P.references part.now)) in
        Judged result (λ _. MayUseEach (read_in reading.now) (known_of known.now) used)
        (λ misuse. IsAt statement span misuse × IsUnread (read_in reading.now) (known_of known.now) used misuse) }
{
    let mut operands = Operands {
        known,
        reading: *reading,
        awaited: outcome,
    };
    match part.visit_references(&mut operands) {
        ControlFlow::Continue(()) => Ok(()),
        ControlFlow::Break(expression) => Err(not_evaluated(expression, statement, span)),
    }
}

/// A visitor that stops at the first expression that may not be used, unless it is the awaited result. It stops with what
/// a use of the expression reads that has no value.
#[derive(Drop)]
pub(crate) struct Operands<'a> {
    known: &'a Known,
    reading: Reading<'a>,
    /// The result of the statement, until it has been referred to.
    awaited: Option<Handle<Expression>>,
}

impl<'a> Visitor for Operands<'a> {
    ghost use Rattle.naga_flow.specs.Operands.{requires_operand};

    type Break = Handle<Expression>;

    ghost visits = { requires_operand };

    #[inline(always)]
    fn visit(&mut self, reference: Reference) -> ControlFlow<Handle<Expression>> {
        let operand = operand_at(&self.awaited, &reference);
        match unread_operand(self.known, &self.reading, operand) {
            None => {
                self.awaited = awaited_after(&self.awaited, &reference);
                ControlFlow::Continue(())
            }
            Some(expression) => ControlFlow::Break(expression),
        }
    }
}

/// Returns the first expression that a use of `operand` reads and that has no value, if there is an operand.
fn unread_operand(
    known: &Known,
    reading: &Reading<'_>,
    operand: Option<Handle<Expression>>,
) -> Option<Handle<Expression>>
    ensures { FindsUnread (read_in reading.now) (known_of known.now) (option_to_list operand) result }
{
    match operand {
        Some(handle) => unread(known, reading, handle),
        None => None,
    }
}

/// Returns the expression that is referred to, unless the reference is to the awaited result or to no expression.
fn operand_at(
    awaited: &Option<Handle<Expression>>,
    reference: &Reference,
) -> Option<Handle<Expression>>
    ensures { result ≡ operand_at awaited.now reference.now }
{
    let Reference::Expression(handle) = reference else {
        return None;
    };
    if is_awaited(awaited, *handle) {
        None
    } else {
        Some(*handle)
    }
}

/// Returns the result that is awaited after a reference.
fn awaited_after(
    awaited: &Option<Handle<Expression>>,
    reference: &Reference,
) -> Option<Handle<Expression>>
    ensures { result ≡ awaited_after awaited.now reference.now }
{
    let Reference::Expression(handle) = reference else {
        return *awaited;
    };
    if is_awaited(awaited, *handle) {
        None
    } else {
        *awaited
    }
}

/// Returns whether a handle is the awaited result.
fn is_awaited(awaited: &Option<Handle<Expression>>, handle: Handle<Expression>) -> bool
    ensures { result ≡ is_awaited awaited.now handle }
{
    match awaited {
        Some(outcome) => handle.index() == outcome.index(),
        None => false,
    }
}
