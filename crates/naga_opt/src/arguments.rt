//! The command-line arguments of the program, and what they select.
ghost use Rattle.std.specs.Prelude.{◌≡◌, IfErr, IfOk};
ghost use Rattle.naga_opt.specs.Arguments.{GivesArguments, GivesCommand, GivesNoCommand, MayFailToSelect, Selects, arguments_fault, texts_of};

use crate::choices::{choose, choose_names};
use crate::report::{ArgumentFault, ProgramFault};
use crate::task::{Command, Task};
use std::alloc::Global;
use std::env::Args;
use std::io::{self, ErrorKind};

/// Returns the command-line arguments after the program's name, from all arguments with which the program was started.
///
/// Fails with [`ArgumentFault::NotUtf8`] if an argument is not UTF-8, and with [`ProgramFault::Memory`] if an allocation
/// failed.
pub fn arguments_after_name(
    alloc: Global,
    given: io::Result<Args>,
) -> Result<Vec<String>, ProgramFault>
    ensures arguments { IfOk result (λ arguments. GivesArguments given arguments.items) }
    ensures fault { IfErr result (λ fault. fault ≡ arguments_fault given) }
{
    match given {
        Ok(all) => all.skip(1).collect(alloc).map_err(|_| ProgramFault::Memory),
        Err(error) if error.kind() == ErrorKind::OutOfMemory => Err(ProgramFault::Memory),
        Err(_) => Err(ProgramFault::Arguments(ArgumentFault::NotUtf8)),
    }
}

/// Returns the command that the arguments after the program's name select.
///
/// If they could not be obtained, `arguments` is the reason as `Err`, and it is returned.
pub fn command_of(
    alloc: Global,
    arguments: Result<Vec<String>, ProgramFault>,
) -> Result<Command, ProgramFault>
    ensures some { IfOk result (GivesCommand arguments) }
    ensures none { IfErr result (GivesNoCommand arguments) }
{
    match arguments {
        Ok(given) => select(alloc, given.as_slice()),
        Err(reason) => Err(reason),
    }
}

/// Returns the command that arguments select.
///
/// They are read from left to right. Each option may be given once, where `-o` is `--output`. `--old` and `--passes`
/// exclude each other, and so do `--check`, `--text` and `--dot`. The value of an option is the next argument, or
/// follows `=` in the same one. An argument that does not begin with a hyphen, or is a single one, is the file to read,
/// and so is an argument after `--`. What comes after `--help` or `--version` is not read.
///
/// Returns `Err` with the first argument that is wrong, or if an allocation fails.
fn select(alloc: Global, arguments: &[String]) -> Result<Command, ProgramFault>
    ensures some { IfOk result (Selects (texts_of arguments.now)) }
    ensures none { IfErr result (MayFailToSelect (texts_of arguments.now)) }
{
    let mut task = Task::new();
    let mut left = arguments;
    'left: while let [argument, rest @ ..] = left {
        match argument.as_str() {
            "--help" => return Ok(Command::Help),
            "-h" => return Ok(Command::Help),
            "--version" => return Ok(Command::Version),
            "-V" => return Ok(Command::Version),
            "--" => {
                return match choose_names(alloc, &mut task, rest) {
                    Ok(()) => Ok(Command::Run(task)),
                    Err(fault) => Err(fault),
                };
            }
            text => left = choose(alloc, &mut task, text, rest)?,
        }
    }
    Ok(Command::Run(task))
}
