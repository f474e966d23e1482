//! An expression that is misused.
ghost use Rattle.std.specs.Prelude.{◌≡◌};

use crate::evaluation::Evaluation;
use crate::path::StatementPath;
use naga_arena::{Handle, Span};
use naga_ir::{Expression, Function};
use std::error::Error;
use std::fmt;

/// Why an expression is misused.
#[derive(Clone, Copy, Debug, PartialEq, Eq)]
pub enum Cause {
    /// Its value is used, and need not have been evaluated before.
    NotEvaluated,
    /// The statement evaluates it in this way, and the expression does not get its value in this way: it is the result
    /// of another kind of statement or of a call of another function, it is ready, or it is not in its arena.
    NotEvaluatedBy(Evaluation),
    /// The statement evaluates it, and an earlier one has evaluated it in a block whose values are still in scope.
    EvaluatedAgain,
}

impl fmt::Display for Cause {
    ghost use Rattle.std.specs.Prelude.{Some};
    ghost use Rattle.naga_flow.specs.Messages.{cause_text};

    ghost output = { λ cause. Some (cause_text cause) };

    fn fmt<W: fmt::Write>(&self, f: &mut fmt::Formatter<W>) -> fmt::Result {
        match self {
            Cause::NotEvaluated => f.write_str("is used and may not have been evaluated"),
            Cause::NotEvaluatedBy(way) => write!(f, "cannot be evaluated {way}"),
            Cause::EvaluatedAgain => f.write_str("is evaluated again in its scope"),
        }
    }
}

/// An expression that a statement misuses.
#[derive(Clone, Copy, Debug, PartialEq, Drop)]
pub struct Misuse {
    /// The number of statements that are read before this one, up to `u64::MAX`. A statement is read before the
    /// statements of its blocks, and these before what follows it.
    pub statement: u64,
    /// The span of the statement.
    pub span: Span,
    /// The expression.
    pub expression: Handle<Expression>,
    /// What is wrong.
    pub cause: Cause,
}

impl Misuse {
    /// Returns a value that displays this error with the path to the statement in the body of `function`, as in
    /// `body[4].accept[1]: expression 2 is used and may not have been evaluated`.
    pub fn display<'a>(&'a self, function: &'a Function) -> DisplayMisuse<'a>
        ensures error { result.error.now ≡ self.now }
        ensures function { result.function.now ≡ function.now }
    {
        DisplayMisuse {
            error: self,
            function,
        }
    }
}

impl fmt::Display for Misuse {
    ghost use Rattle.std.specs.Prelude.{Some};
    ghost use Rattle.naga_flow.specs.Messages.{numbered_misuse_text};

    ghost output = { λ misuse. Some (numbered_misuse_text misuse) };

    fn fmt<W: fmt::Write>(&self, f: &mut fmt::Formatter<W>) -> fmt::Result {
        let expression = self.expression.index();
        write!(
            f,
            "statement {}: expression {expression} {}",
            self.statement, self.cause
        )
    }
}

impl Error for Misuse {}

/// A [`Misuse`] with the path to its statement.
#[derive(Clone, Copy)]
pub struct DisplayMisuse<'a> {
    error: &'a Misuse,
    function: &'a Function,
}

impl fmt::Display for DisplayMisuse<'_> {
    ghost use Rattle.std.specs.Prelude.{Some};
    ghost use Rattle.naga_flow.specs.Messages.{placed_misuse_text};

    ghost output = { λ shown. Some (placed_misuse_text shown.function.now shown.error.now) };

    fn fmt<W: fmt::Write>(&self, f: &mut fmt::Formatter<W>) -> fmt::Result {
        let path = StatementPath::new(&self.function.body, self.error.statement);
        let expression = self.error.expression.index();
        write!(f, "{path}: expression {expression} {}", self.error.cause)
    }
}

/// Why the check of uses fails.
#[derive(Clone, Copy, Debug, PartialEq, Drop)]
pub enum InvalidUse {
    /// Allocation fails.
    Memory,
    /// An expression is misused.
    Misuse(Misuse),
}

impl fmt::Display for InvalidUse {
    ghost use Rattle.std.specs.Prelude.{Some};
    ghost use Rattle.naga_flow.specs.Messages.{invalid_use_text};

    ghost output = { λ invalid. Some (invalid_use_text invalid) };

    fn fmt<W: fmt::Write>(&self, f: &mut fmt::Formatter<W>) -> fmt::Result {
        match self {
            InvalidUse::Memory => f.write_str("out of memory"),
            InvalidUse::Misuse(misuse) => write!(f, "{misuse}"),
        }
    }
}

impl Error for InvalidUse {}
