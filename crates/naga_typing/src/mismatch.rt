//! A statement of which a requirement is not met.
ghost use Rattle.std.specs.Prelude.{◌≡◌};

use crate::requirement::Requirement;
use naga_arena::Span;
use naga_flow::StatementPath;
use naga_ir::Function;
use std::error::Error;
use std::fmt;

/// A statement that uses a value of another type than it requires.
#[derive(Clone, Copy, Debug, PartialEq, Drop)]
pub struct TypeMismatch {
    /// The number of statements that are read before this one, up to `u64::MAX`. A statement is read before the
    /// statements of its blocks, and these before what follows it.
    pub statement: u64,
    /// The span of the statement.
    pub span: Span,
    /// What the statement requires and what is not met.
    pub requirement: Requirement,
}

impl TypeMismatch {
    /// Returns a value that displays this error with the path to the statement in the body of `function`, as in
    /// `body[4].accept[1]: expression 2 must be an i32 or a u32`.
    pub fn display<'a>(&'a self, function: &'a Function) -> DisplayTypeMismatch<'a>
        ensures error { result.error.now ≡ self.now }
        ensures function { result.function.now ≡ function.now }
    {
        DisplayTypeMismatch {
            error: self,
            function,
        }
    }
}

impl fmt::Display for TypeMismatch {
    ghost use Rattle.naga_typing.specs.Messages.{mismatch_text};

    ghost output = { λ mismatch. mismatch_text mismatch };

    fn fmt<W: fmt::Write>(&self, f: &mut fmt::Formatter<W>) -> fmt::Result {
        write!(f, "statement {}: {}", self.statement, self.requirement)
    }
}

impl Error for TypeMismatch {}

/// A [`TypeMismatch`] with the path to its statement.
#[derive(Clone, Copy)]
pub struct DisplayTypeMismatch<'a> {
    error: &'a TypeMismatch,
    function: &'a Function,
}

impl fmt::Display for DisplayTypeMismatch<'_> {
    ghost use Rattle.naga_typing.specs.Messages.{placed_mismatch_text};

    ghost output = { λ shown. placed_mismatch_text shown.function.now shown.error.now };

    fn fmt<W: fmt::Write>(&self, f: &mut fmt::Formatter<W>) -> fmt::Result {
        let path = StatementPath::new(&self.function.body, self.error.statement);
        write!(f, "{path}: {}", self.error.requirement)
    }
}
