//! The command-line arguments of the program, and the rule that they select.
ghost use Rattle.std.specs.Prelude.{◌≡◌, None, IfSome, IfOk, IfErr};
ghost use Rattle.naga_shape.specs.Arguments.{GivesArguments, Selects, arguments_fault};

use crate::line::ShapeFault;
use crate::report::ProgramFault;
use naga_proc::{Rule, ShapeError};
use std::alloc::Global;
use std::env::Args;
use std::io::{self, ErrorKind};

/// Returns the command-line arguments after the program's name, from all arguments with which the program was started.
///
/// Fails with [`ProgramFault::UnexpectedArgument`] if an argument is not UTF-8, and with [`ShapeError::Memory`] if an
/// allocation failed.
pub fn arguments_after_name(
    alloc: Global,
    given: io::Result<Args>,
) -> Result<Vec<String>, ProgramFault>
    ensures arguments { IfOk result (λ arguments. GivesArguments given arguments.items) }
    ensures fault { IfErr result (λ fault. fault ≡ arguments_fault given) }
{
    let memory = ProgramFault::Line(ShapeFault::Shape(ShapeError::Memory));
    match given {
        Ok(all) => all.skip(1).collect(alloc).map_err(|_| memory),
        Err(error) if error.kind() == ErrorKind::OutOfMemory => Err(memory),
        // An argument is not UTF-8.
        Err(_) => Err(ProgramFault::UnexpectedArgument),
    }
}

/// Returns the rule that the arguments after the program's name select: the new rule if there are none, and the old
/// rule if the only argument is `--old`. All other arguments select no rule.
pub fn rule_of(arguments: &[String]) -> Option<Rule>
    ensures some { IfSome result (Selects arguments.now) }
    ensures none { result ≡ None → (rule : Rule) → ¬ Selects arguments.now rule }
{
    match arguments {
        [] => Some(Rule::New),
        [argument] if argument.as_str() == "--old" => Some(Rule::Old),
        _ => None,
    }
}
