//! The stages of the check of a function, and of declarations.
ghost use Rattle.std.specs.Prelude.{◌≡◌, ◌≤◌, [], MatchResult, None, Some, length, take};
ghost use Rattle.std.specs.List.{All};
ghost use Rattle.naga_arena.specs.Arena.{values};
ghost use Rattle.naga_arena.specs.Limits.{max_len};
ghost use Rattle.naga_ir.specs.Module.{IsEmptyFunction};
ghost use Rattle.naga_typifier.specs.Typing.{IsStopped, typing};
ghost use Rattle.naga_typing.specs.Expressions.{ExpressionFits};
ghost use Rattle.naga_typing.specs.Faults.{ExpressionsAreTyped, IsExpressionFault, IsFound, IsInitialFault, IsOperandFault, IsStop};
ghost use Rattle.naga_typing.specs.Initials.{initials};
ghost use Rattle.naga_typing.specs.Stages.{GlobalInitialsFit, IsGlobalInitialFault, AreInvalidDeclarations, IsInvalidFunction, IsUseFault, UsesFit, invalid_function};
ghost use Rattle.naga_typing.specs.TypedFunctions.{FitsIn, context_of, signature_of};
ghost use Rattle.naga_typing.specs.TypedModules.{DeclarationsAreTyped, FunctionIsTyped};
ghost use Rattle.naga_typing.specs.declared.initial.DeclarationKind.TheVariants as kind;

use crate::body::check_body_types;
use crate::initial::{DeclarationKind, declaration_at};
use crate::invalid_types::{InvalidFunction, InvalidValues, TypeFault, Unmet, ValueFault};
use crate::requirement::Requirement;
use crate::typed_function::TypedFunction;
use naga_arena::{Arena, Handle};
use naga_ir::Expression;
use naga_typifier::{GrowError, ResolveError};

/// Checks a function, for whose expressions a typifier grows with this outcome.
pub(crate) fn check_typed(
    typed: &TypedFunction<'_>,
    outcome: &Result<(), GrowError>,
) -> Result<(), InvalidFunction>
    requires { MatchResult outcome.now
        (λ _. typing (context_of typed.now) [] (values typed.now.function.now.expressions) ≡ (typed.now.known.now, None))
        (λ error. IsStopped (context_of typed.now) [] (values typed.now.function.now.expressions) error
        typed.now.known.now) }
    ensures { MatchResult result (λ _. FunctionIsTyped typed.now.«module».now typed.now.function.now)
        (IsInvalidFunction typed.now.«module».now typed.now.function.now) }
{
    match check_expressions(typed, &typed.function.expressions, outcome) {
        Ok(()) => match check_uses(typed) {
            Ok(()) => Ok(()),
            Err(fault) => Err(InvalidFunction::Fault(fault)),
        },
        Err(stop) => Err(invalid_function(stop)),
    }
}

/// Returns why the check of a function ends where that of its expressions does.
fn invalid_function(stop: InvalidValues) -> InvalidFunction
    ensures { result ≡ invalid_function stop }
{
    match stop {
        InvalidValues::Memory => InvalidFunction::Memory,
        InvalidValues::Fault(fault) => InvalidFunction::Fault(TypeFault::Value(fault)),
    }
}

/// Checks the expressions of an arena, for which a typifier grows with this outcome.
pub(crate) fn check_expressions(
    typed: &TypedFunction<'_>,
    expressions: &Arena<Expression>,
    outcome: &Result<(), GrowError>,
) -> Result<(), InvalidValues>
    requires { MatchResult outcome.now
        (λ _. typing (context_of typed.now) [] (values expressions.now) ≡ (typed.now.known.now, None))
        (λ error. IsStopped (context_of typed.now) [] (values expressions.now) error typed.now.known.now) }
    ensures { MatchResult result
        (λ _. (typing (context_of typed.now) [] (values expressions.now) ≡ (typed.now.known.now, None))
        × ExpressionsAreTyped (context_of typed.now) (signature_of typed.now) (values expressions.now))
        (IsStop (context_of typed.now) (signature_of typed.now) (values expressions.now)) }
{
    match outcome {
        Ok(()) => check_all(typed, expressions),
        Err(GrowError::Memory) => Err(InvalidValues::Memory),
        Err(GrowError::NoType { expression, error }) => {
            Err(InvalidValues::Fault(first_fault(typed, expressions, *expression, *error)))
        }
    }
}

/// Checks the operands of the expressions of an arena, of which each has a type.
fn check_all(
    typed: &TypedFunction<'_>,
    expressions: &Arena<Expression>,
) -> Result<(), InvalidValues>
    requires { typing (context_of typed.now) [] (values expressions.now) ≡ (typed.now.known.now, None) }
    ensures { MatchResult result
        (λ _. (typing (context_of typed.now) [] (values expressions.now) ≡ (typed.now.known.now, None))
        × ExpressionsAreTyped (context_of typed.now) (signature_of typed.now) (values expressions.now))
        (IsStop (context_of typed.now) (signature_of typed.now) (values expressions.now)) }
{
    match check_operands(typed, expressions, expressions.len()) {
        Ok(()) => Ok(()),
        Err(fault) => Err(InvalidValues::Fault(fault)),
    }
}

/// Returns the first fault of the expressions of an arena, of which this is the first that has no type.
fn first_fault(
    typed: &TypedFunction<'_>,
    expressions: &Arena<Expression>,
    expression: Handle<Expression>,
    error: ResolveError,
) -> ValueFault
    requires at { expression ≡ length typed.now.known.now }
    requires stopped { typing (context_of typed.now) [] (values expressions.now) ≡ (typed.now.known.now, Some error) }
    ensures { IsExpressionFault (context_of typed.now) (signature_of typed.now) (values expressions.now) result }
{
    match check_operands(typed, expressions, expression.index()) {
        Ok(()) => ValueFault::NoType { expression, error },
        Err(fault) => fault,
    }
}

/// Checks the operands of this number of expressions at the beginning of an arena.
fn check_operands(
    typed: &TypedFunction<'_>,
    expressions: &Arena<Expression>,
    count: usize,
) -> Result<(), ValueFault>
    requires within { count ≤ length expressions.now }
    requires fits { count ≤ max_len }
    ensures { MatchResult result (λ _. All (ExpressionFits (FitsIn typed.now)) (take count (values expressions.now)))
        (IsOperandFault (context_of typed.now) (signature_of typed.now) typed.now.known.now (values expressions.now)
        count) }
{
    match typed.check_operands(expressions, count) {
        Ok(()) => Ok(()),
        Err(unfit) => Err(ValueFault::Operand {
            expression: unfit.expression,
            unmet: unmet(typed, unfit.requirement),
        }),
    }
}

/// Returns what is required, with the type that is found.
pub(crate) fn unmet(typed: &TypedFunction<'_>, requirement: Requirement) -> Unmet
    ensures required { result.requirement ≡ requirement }
    ensures found { IsFound (context_of typed.now) (signature_of typed.now) typed.now.known.now result }
{
    let found = typed.found(&requirement);
    Unmet { requirement, found }
}

/// Checks the initial values of the declarations of this kind.
fn check_initials(typed: &TypedFunction<'_>, kind: DeclarationKind) -> Result<(), ValueFault>
    ensures { MatchResult result
        (λ _. All (FitsIn typed.now) (initials typed.now.«module».now typed.now.function.now kind))
        (IsInitialFault (context_of typed.now) (signature_of typed.now) typed.now.known.now kind
        (initials typed.now.«module».now typed.now.function.now kind)) }
{
    match typed.check_initials(kind) {
        Ok(()) => Ok(()),
        Err(found) => Err(ValueFault::Initial {
            declared: declaration_at(kind, found.position),
            unmet: unmet(typed, found.requirement),
        }),
    }
}

/// Checks the variables and the statements of a function.
fn check_uses(typed: &TypedFunction<'_>) -> Result<(), TypeFault>
    ensures { MatchResult result (λ _. UsesFit typed.now) (IsUseFault typed.now) }
{
    match check_initials(typed, DeclarationKind::LocalVariable) {
        Ok(()) => check_body(typed),
        Err(fault) => Err(TypeFault::Value(fault)),
    }
}

/// Checks the statements of a function of which the variables pass.
fn check_body(typed: &TypedFunction<'_>) -> Result<(), TypeFault>
    requires { All (FitsIn typed.now) (initials typed.now.«module».now typed.now.function.now kind.LocalVariable) }
    ensures { MatchResult result (λ _. UsesFit typed.now) (IsUseFault typed.now) }
{
    match check_body_types(typed.module, typed.function, typed.known) {
        Ok(()) => Ok(()),
        Err(mismatch) => {
            let found = typed.found(&mismatch.requirement);
            Err(TypeFault::Mismatch { mismatch, found })
        }
    }
}

/// Checks global expressions, for which a typifier grows with this outcome, and the initial values of declarations.
pub(crate) fn check_global_values(
    typed: &TypedFunction<'_>,
    outcome: &Result<(), GrowError>,
) -> Result<(), InvalidValues>
    requires empty { IsEmptyFunction typed.now.function.now }
    requires types { MatchResult outcome.now
        (λ _. typing (context_of typed.now) [] (values typed.now.«module».now.global_expressions)
        ≡ (typed.now.known.now, None))
        (λ error. IsStopped (context_of typed.now) [] (values typed.now.«module».now.global_expressions) error
        typed.now.known.now) }
    ensures { MatchResult result (λ _. DeclarationsAreTyped typed.now.«module».now)
        (AreInvalidDeclarations typed.now.«module».now) }
{
    match check_expressions(typed, &typed.module.global_expressions, outcome) {
        Ok(()) => match check_global_initials(typed) {
            Ok(()) => Ok(()),
            Err(fault) => Err(InvalidValues::Fault(fault)),
        },
        Err(stop) => Err(stop),
    }
}

/// Checks the initial values of constants, overrides and global variables.
fn check_global_initials(typed: &TypedFunction<'_>) -> Result<(), ValueFault>
    ensures { MatchResult result (λ _. GlobalInitialsFit typed.now) (IsGlobalInitialFault typed.now) }
{
    if let Err(fault) = check_initials(typed, DeclarationKind::Constant) {
        return Err(fault);
    }
    if let Err(fault) = check_initials(typed, DeclarationKind::Override) {
        return Err(fault);
    }
    check_initials(typed, DeclarationKind::GlobalVariable)
}
