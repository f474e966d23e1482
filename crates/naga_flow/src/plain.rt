//! Walks over plain statements.
ghost use Rattle.std.specs.Prelude.{◌≡◌, ◌⊎◌, ◌∷◌, [], ◌++◌, Some, option_to_list};
ghost use Rattle.std.specs.List.{Contains};
ghost use Rattle.naga_flow.specs.Misuses.{EmitMisuse, IsAt, IsRepeated, IsUnfit, IsUnread, Judged, PlainMisuse, ResultMisuse};
ghost use Rattle.naga_flow.specs.Readings.{read_in};
ghost use Rattle.naga_flow.specs.Results.{emitted_by, evaluated_by, evaluation_by, result_of};
ghost use Rattle.naga_flow.specs.Scopes.{AreNew};
ghost use Rattle.naga_flow.specs.Tracking.{all_known, known_of, scope_of};
ghost use Rattle.naga_flow.specs.Uses.{AreEvaluatedBy, MayUseEach, OperandsAreKnown, PlainUsesKnown};
ghost use Rattle.naga_flow.specs.declared.evaluation.Evaluation.TheVariants as by;

use crate::evaluation::{Evaluation, result_of};
use crate::invalid_use::{Cause, InvalidUse, Misuse};
use crate::known::Known;
use crate::operands::require_each;
use crate::reading::require_fit;
use crate::reads::Reading;
use naga_arena::{Handle, Span};
use naga_ir::{Expression, Statement};

/// Walks over a plain statement, after which what it evaluates is known.
pub(crate) fn walk_plain(
    known: &mut Known,
    reading: &Reading<'_>,
    statement: &Statement,
    number: u64,
    span: Span,
) -> Result<(), InvalidUse>
    ensures { Judged result
        (λ _. PlainUsesKnown (read_in reading.now) (known_of known.old) statement.now
        × AreNew (scope_of known.old) (evaluated_by statement.now)
        × (known.new ≡ known.old ++ all_known (evaluated_by statement.now)))
        (λ misuse. IsAt number span misuse
        × PlainMisuse (read_in reading.now) (known_of known.old) (scope_of known.old) statement.now misuse) }
{
    let outcome = result_of(statement);
    if let Err(error) = require_each(known, reading, statement, outcome, number, span) {
        return Err(error);
    }
    if let Err(error) = walk_emit(known, reading, statement, number, span) {
        return Err(error);
    }
    walk_result(known, reading, statement, number, span)
}

/// Evaluates the result of a statement, if it has one.
fn walk_result(
    known: &mut Known,
    reading: &Reading<'_>,
    statement: &Statement,
    number: u64,
    span: Span,
) -> Result<(), InvalidUse>
    ensures { let evaluated = option_to_list (result_of statement.now) in
        Judged result
        (λ _. AreEvaluatedBy (read_in reading.now) (evaluation_by statement.now) evaluated
        × AreNew (scope_of known.old) evaluated
        × (known.new ≡ known.old ++ all_known evaluated))
        (λ misuse. IsAt number span misuse
        × ResultMisuse (read_in reading.now) (evaluation_by statement.now) (scope_of known.old) evaluated misuse) }
{
    let Some(handle) = result_of(statement) else {
        return Ok(());
    };
    let way = Evaluation::by_statement(statement);
    if let Err(error) = require_fit(reading.expressions, Some(handle), &way, number, span) {
        return Err(error);
    }
    learn(known, handle, number, span)
}

/// Walks over the expressions that an `Emit` evaluates. Any other statement passes.
fn walk_emit(
    known: &mut Known,
    reading: &Reading<'_>,
    statement: &Statement,
    number: u64,
    span: Span,
) -> Result<(), InvalidUse>
    ensures { Judged result
        (λ _. OperandsAreKnown (read_in reading.now) (known_of known.old) (emitted_by statement.now)
        × AreEvaluatedBy (read_in reading.now) by.Emit (emitted_by statement.now)
        × AreNew (scope_of known.old) (emitted_by statement.now)
        × (known.new ≡ known.old ++ all_known (emitted_by statement.now)))
        (λ misuse. IsAt number span misuse
        × EmitMisuse (read_in reading.now) (known_of known.old) (scope_of known.old) (emitted_by statement.now) misuse) }
{
    let Statement::Emit(range) = statement else {
        return Ok(());
    };
    let bounds = range.index_range();
    'emitted: for index in bounds.start..bounds.end {
        let handle = Handle::<Expression>::at(index as usize);
        match emit(known, reading, handle, number, span) {
            Ok(()) => {}
            Err(error) => return Err(error),
        }
    }
    Ok(())
}

/// Evaluates an expression by an `Emit`.
fn emit(
    known: &mut Known,
    reading: &Reading<'_>,
    handle: Handle<Expression>,
    number: u64,
    span: Span,
) -> Result<(), InvalidUse>
    ensures { let operands = (read_in reading.now).operands handle in
        Judged result
        (λ _. AreEvaluatedBy (read_in reading.now) by.Emit (handle ∷ [])
        × MayUseEach (read_in reading.now) (known_of known.old) operands
        × ¬ Contains (scope_of known.old) handle
        × (known.new ≡ known.old ++ all_known (handle ∷ [])))
        (λ misuse. IsAt number span misuse
        × (IsUnfit (read_in reading.now) by.Emit (handle ∷ []) misuse
        ⊎ (AreEvaluatedBy (read_in reading.now) by.Emit (handle ∷ [])
        × (IsUnread (read_in reading.now) (known_of known.old) operands misuse
        ⊎ (MayUseEach (read_in reading.now) (known_of known.old) operands
        × IsRepeated (scope_of known.old) (handle ∷ []) misuse))))) }
{
    let fit = require_fit(
        reading.expressions,
        Some(handle),
        &Evaluation::Emit,
        number,
        span,
    );
    if let Err(error) = fit {
        return Err(error);
    }
    if let Err(error) = require_operands(known, reading, handle, number, span) {
        return Err(error);
    }
    learn(known, handle, number, span)
}

/// Checks that the operands of an expression may be used.
fn require_operands(
    known: &Known,
    reading: &Reading<'_>,
    handle: Handle<Expression>,
    number: u64,
    span: Span,
) -> Result<(), InvalidUse>
    ensures { let operands = (read_in reading.now).operands handle in
        Judged result (λ _. MayUseEach (read_in reading.now) (known_of known.now) operands)
        (λ misuse. IsAt number span misuse × IsUnread (read_in reading.now) (known_of known.now) operands misuse) }
{
    match reading.expressions.try_get(handle) {
        Ok(expression) => require_each(known, reading, expression, None, number, span),
        Err(_) => Ok(()),
    }
}

/// Puts an expression into scope that is evaluated by the statement with this number and this span.
#[inline(always)]
fn learn(
    known: &mut Known,
    handle: Handle<Expression>,
    number: u64,
    span: Span,
) -> Result<(), InvalidUse>
    ensures { Judged result
        (λ _. ¬ Contains (scope_of known.old) handle × (known.new ≡ known.old ++ all_known (handle ∷ [])))
        (λ misuse. IsAt number span misuse × IsRepeated (scope_of known.old) (handle ∷ []) misuse) }
{
    match known.learn(handle) {
        Ok(true) => Ok(()),
        Ok(false) => Err(InvalidUse::Misuse(Misuse {
            statement: number,
            span,
            expression: handle,
            cause: Cause::EvaluatedAgain,
        })),
        Err(_) => Err(InvalidUse::Memory),
    }
}
