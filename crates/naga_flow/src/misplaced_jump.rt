//! A jump that is not allowed where it is.
ghost use Rattle.std.specs.Prelude.{◌≡◌};

use crate::path::StatementPath;
use naga_arena::Span;
use naga_ir::Function;
use std::error::Error;
use std::fmt;

/// A kind of statement that leaves a block before its end.
#[derive(Clone, Copy, Debug, PartialEq, Eq)]
pub enum Jump {
    Break,
    Continue,
    Return,
    Kill,
}

impl fmt::Display for Jump {
    ghost use Rattle.std.specs.Prelude.{Some};
    ghost use Rattle.naga_flow.specs.Messages.{jump_text};

    ghost output = { λ jump. Some (jump_text jump) };

    fn fmt<W: fmt::Write>(&self, f: &mut fmt::Formatter<W>) -> fmt::Result {
        f.write_str(match self {
            Jump::Break => "a break outside of a loop and of a switch",
            Jump::Continue => "a continue outside of a loop",
            Jump::Return => "a return in a continuing block",
            Jump::Kill => "a kill in a continuing block",
        })
    }
}

/// A jump that is not allowed where it is.
#[derive(Clone, Copy, Debug, PartialEq, Drop)]
pub struct MisplacedJump {
    /// The number of statements that are read before this one, up to `u64::MAX`. A statement is read before the
    /// statements of its blocks, and these before what follows it.
    pub statement: u64,
    /// The span of the statement.
    pub span: Span,
    /// Which jump it is.
    pub jump: Jump,
}

impl MisplacedJump {
    /// Returns a value that displays this error with the path to the statement in the body of `function`, as in
    /// `body[4].accept[1]: a continue outside of a loop`.
    pub fn display<'a>(&'a self, function: &'a Function) -> DisplayMisplacedJump<'a>
        ensures error { result.error.now ≡ self.now }
        ensures function { result.function.now ≡ function.now }
    {
        DisplayMisplacedJump {
            error: self,
            function,
        }
    }
}

impl fmt::Display for MisplacedJump {
    ghost use Rattle.std.specs.Prelude.{Some};
    ghost use Rattle.naga_flow.specs.Messages.{misplaced_jump_text};

    ghost output = { λ fault. Some (misplaced_jump_text fault) };

    fn fmt<W: fmt::Write>(&self, f: &mut fmt::Formatter<W>) -> fmt::Result {
        write!(f, "statement {}: {}", self.statement, self.jump)
    }
}

impl Error for MisplacedJump {}

/// A [`MisplacedJump`] with the path to its statement.
#[derive(Clone, Copy)]
pub struct DisplayMisplacedJump<'a> {
    error: &'a MisplacedJump,
    function: &'a Function,
}

impl fmt::Display for DisplayMisplacedJump<'_> {
    ghost use Rattle.std.specs.Prelude.{Some};
    ghost use Rattle.naga_flow.specs.Messages.{placed_jump_text};

    ghost output = { λ shown. Some (placed_jump_text shown.function.now shown.error.now) };

    fn fmt<W: fmt::Write>(&self, f: &mut fmt::Formatter<W>) -> fmt::Result {
        let path = StatementPath::new(&self.function.body, self.error.statement);
        write!(f, "{path}: {}", self.error.jump)
    }
}
