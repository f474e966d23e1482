//! How expressions get their values, and the results of statements.
ghost use Rattle.std.specs.Prelude.{◌≡◌};
ghost use Rattle.naga_flow.specs.Results.{evaluation_by, evaluation_of, result_of, result_of_query};

use naga_arena::Handle;
use naga_ir::{Expression, Function, RayQueryFunction, Statement};
use std::fmt;

/// How an expression gets its value.
///
/// Differs from naga: naga has no such type.
#[derive(Clone, Copy, Debug, PartialEq, Eq)]
pub enum Evaluation {
    /// It has its value when the function is entered ([`Expression::needs_pre_emit`]).
    Ready,
    /// By an `Emit` that covers it.
    Emit,
    /// By a `Call` of this function.
    Call(Handle<Function>),
    /// By an `Atomic`.
    Atomic,
    /// By a `WorkGroupUniformLoad`.
    WorkGroupUniformLoad,
    /// By a `RayQuery` that proceeds.
    RayQueryProceed,
    /// By a `SubgroupBallot`.
    SubgroupBallot,
    /// By a `SubgroupGather` or a `SubgroupCollectiveOperation`.
    SubgroupOperation,
}

impl Evaluation {
    /// Returns how an expression gets its value.
    pub fn of_expression(expression: &Expression) -> Self
        ensures { result ≡ evaluation_of expression.now }
    {
        match expression {
            Expression::CallResult(function) => Evaluation::Call(*function),
            Expression::AtomicResult { .. } => Evaluation::Atomic,
            Expression::WorkGroupUniformLoadResult { .. } => Evaluation::WorkGroupUniformLoad,
            Expression::RayQueryProceedResult => Evaluation::RayQueryProceed,
            Expression::SubgroupBallotResult => Evaluation::SubgroupBallot,
            Expression::SubgroupOperationResult { .. } => Evaluation::SubgroupOperation,
            _ => {
                if expression.needs_pre_emit() {
                    Evaluation::Ready
                } else {
                    Evaluation::Emit
                }
            }
        }
    }

    /// Returns how the expressions that a statement evaluates get their values.
    pub fn by_statement(statement: &Statement) -> Self
        ensures { result ≡ evaluation_by statement.now }
    {
        match statement {
            Statement::Atomic { .. } => Evaluation::Atomic,
            Statement::WorkGroupUniformLoad { .. } => Evaluation::WorkGroupUniformLoad,
            Statement::Call { function, .. } => Evaluation::Call(*function),
            Statement::RayQuery { .. } => Evaluation::RayQueryProceed,
            Statement::SubgroupBallot { .. } => Evaluation::SubgroupBallot,
            Statement::SubgroupGather { .. } => Evaluation::SubgroupOperation,
            Statement::SubgroupCollectiveOperation { .. } => Evaluation::SubgroupOperation,
            _ => Evaluation::Emit,
        }
    }
}

impl fmt::Display for Evaluation {
    ghost use Rattle.std.specs.Prelude.{Some};
    ghost use Rattle.naga_flow.specs.Messages.{evaluation_text};

    ghost output = { λ way. Some (evaluation_text way) };

    fn fmt<W: fmt::Write>(&self, f: &mut fmt::Formatter<W>) -> fmt::Result {
        match self {
            Evaluation::Ready => f.write_str("without a statement"),
            Evaluation::Emit => f.write_str("by an emit"),
            Evaluation::Call(function) => function.write_prefixed(f, "by a call of function "),
            Evaluation::Atomic => f.write_str("by an atomic operation"),
            Evaluation::WorkGroupUniformLoad => f.write_str("by a uniform load"),
            Evaluation::RayQueryProceed => f.write_str("by a ray query that proceeds"),
            Evaluation::SubgroupBallot => f.write_str("by a ballot"),
            Evaluation::SubgroupOperation => f.write_str("by a subgroup operation"),
        }
    }
}

/// Returns the expression whose value is the result of a statement.
///
/// Differs from naga: naga has no such function.
pub fn result_of(statement: &Statement) -> Option<Handle<Expression>>
    ensures { result ≡ result_of statement.now }
{
    match statement {
        Statement::Atomic { result, .. } => *result,
        Statement::Call { result, .. } => *result,
        Statement::WorkGroupUniformLoad { result, .. } => Some(*result),
        Statement::RayQuery { fun, .. } => result_of_query(fun),
        Statement::SubgroupBallot { result, .. } => Some(*result),
        Statement::SubgroupGather { result, .. } => Some(*result),
        Statement::SubgroupCollectiveOperation { result, .. } => Some(*result),
        Statement::Emit(_)
        | Statement::Block(_)
        | Statement::If { .. }
        | Statement::Switch { .. }
        | Statement::Loop { .. }
        | Statement::Break
        | Statement::Continue
        | Statement::Return { .. }
        | Statement::Kill
        | Statement::ControlBarrier(_)
        | Statement::MemoryBarrier(_)
        | Statement::Store { .. }
        | Statement::ImageStore { .. }
        | Statement::ImageAtomic { .. }
        | Statement::RayPipelineFunction(_)
        | Statement::CooperativeStore { .. } => None,
    }
}

/// Returns the result of an operation on a ray query.
fn result_of_query(fun: &RayQueryFunction) -> Option<Handle<Expression>>
    ensures { result ≡ result_of_query fun.now }
{
    match fun {
        RayQueryFunction::Proceed { result } => Some(*result),
        RayQueryFunction::Initialize { .. }
        | RayQueryFunction::GenerateIntersection { .. }
        | RayQueryFunction::ConfirmIntersection
        | RayQueryFunction::Terminate => None,
    }
}
