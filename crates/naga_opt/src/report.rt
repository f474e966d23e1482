//! The errors with which the program ends, and their messages.
ghost use Rattle.std.specs.Prelude.{◌≡◌, ◌<◌, ◌++◌, IsTrue, codes};
ghost use Rattle.std.specs.Io.KnownBytes.{Appends};
ghost use Rattle.std.specs.IoError.{error_kind};
ghost use Rattle.naga_streams.specs.Counted.{failed_calls, max_count, stream_of};
ghost use Rattle.naga_passes.specs.Names.{unknown_text};
ghost use Rattle.naga_opt.specs.Arguments.{NamesFault};
ghost use Rattle.naga_opt.specs.Messages.{CountsUnsaid, PrintsArgumentFault, PrintsFailure, PrintsFault, PrintsLine, PrintsOutputFailure, input_name_of, output_name_of, part_text};
ghost use Rattle.naga_text.specs.Escapes.{in_quotes};
ghost use Rattle.naga_opt.specs.declared.report.ArgumentFault.{ArgumentFault};
ghost use Rattle.naga_opt.specs.declared.usage.TheConstants.{USAGE};

use crate::flag::Flag;
use crate::line::{Part, print_line, print_part, print_text};
use crate::task::Command;
use crate::usage::USAGE;
use arrayvec::ArrayString;
use naga_json_write::WriteError;
use naga_passes::PASS_NAMES;
use naga_streams::Counted;
use std::alloc::Global;
use std::fmt;
use std::io::{Error, ErrorKind, Write};

/// What is wrong with the arguments.
#[derive(Debug, Drop)]
pub enum ArgumentFault {
    /// An argument is not UTF-8.
    NotUtf8,
    /// This argument cannot be here.
    Unexpected(String),
    /// The last argument is this option, which has a value.
    NoValue(Flag),
    /// This option is given twice.
    Twice(Flag),
    /// These options exclude each other. The first of them is given first.
    Exclude(Flag, Flag),
    /// This option does not come after `--check`.
    NoCheck(Flag),
    /// This name in the value of `--passes` is not that of a pass.
    UnknownPass(String),
}

/// The error with which the program ends if it wrote no whole answer.
#[derive(Debug, Drop)]
pub enum ProgramFault {
    /// The arguments select no command.
    Arguments(ArgumentFault),
    /// The input is not UTF-8.
    NotUtf8,
    /// A call of the reader failed with this error.
    Input(Error),
    /// A call of the writer failed with this error. Part of the answer may have been written, but a file that `--output`
    /// names is unchanged.
    Output(Error),
    /// The text was not read as a module. The message has the place of the fault, and the reason.
    Unread(String),
    /// The accesses of a function cannot be clamped. The message names the function, and has the reason.
    Unrestricted(String),
    /// The module that the passes made was not written, for this reason, which is not [`WriteError::Memory`].
    Unwritten(WriteError),
    /// An allocation failed.
    Memory,
}

/// Returns the error of an argument that cannot be here.
pub fn unexpected(alloc: Global, argument: &str) -> ProgramFault
    ensures { NamesFault ArgumentFault.Unexpected argument.now result }
{
    match String::from_str(alloc, argument) {
        Ok(named) => ProgramFault::Arguments(ArgumentFault::Unexpected(named)),
        Err(_) => ProgramFault::Memory,
    }
}

/// Writes the message of an error: a line, and if the arguments are wrong, another one that says how the program is
/// used. The message of a failed call names the file or the standard stream of the command, and has the system's reason.
/// Arguments and names of files are in quotes, and escaped. If the reader of the output was closed, there is no message.
///
/// Returns whether the whole message was written. It is not only if a call of `errors` fails.
pub fn print_fault<W: Write>(
    fault: &ProgramFault,
    command: &Result<Command, ProgramFault>,
    errors: &mut Counted<W>,
) -> bool
    requires { failed_calls errors.old < max_count }
    ensures said { IsTrue result → PrintsFault command.now fault.now (W.contents (stream_of errors.old))
        (W.contents (stream_of errors.new)) }
    ensures failed { CountsUnsaid result (failed_calls errors.old) (failed_calls errors.new) }
{
    match fault {
        ProgramFault::Arguments(wrong) => print_argument_fault(wrong, errors),
        ProgramFault::NotUtf8 => print_plain("not UTF-8", errors),
        ProgramFault::Input(error) => print_input_failure(&input_name(command), error, errors),
        ProgramFault::Output(error) => print_output_failure(&output_name(command), error, errors),
        ProgramFault::Unread(message) => print_plain(message.as_str(), errors),
        ProgramFault::Unrestricted(message) => print_plain(message.as_str(), errors),
        ProgramFault::Unwritten(error) => print_plain(error.as_str(), errors),
        ProgramFault::Memory => print_plain("out of memory", errors),
    }
}

/// Writes a text as a line.
fn print_plain<W: Write>(text: &str, errors: &mut Counted<W>) -> bool
    requires { failed_calls errors.old < max_count }
    ensures said { IsTrue result → PrintsLine text.now (W.contents (stream_of errors.old))
        (W.contents (stream_of errors.new)) }
    ensures failed { CountsUnsaid result (failed_calls errors.old) (failed_calls errors.new) }
{
    print_line(&[Part::Plain(text)], errors)
}

/// Returns the name of the file or the stream that a command reads, as a part of a line.
fn input_name(command: &Result<Command, ProgramFault>) -> Part<'_>
    ensures { part_text result ≡ input_name_of command.now }
{
    match command {
        Ok(Command::Run(task)) => task.input_name(),
        _ => Part::Plain("standard input"),
    }
}

/// Returns the name of the file or the stream that a command writes, as a part of a line.
fn output_name(command: &Result<Command, ProgramFault>) -> Part<'_>
    ensures { part_text result ≡ output_name_of command.now }
{
    match command {
        Ok(Command::Run(task)) => task.output_name(),
        _ => Part::Plain("standard output"),
    }
}

/// Writes the message for a failed call of the reader.
fn print_input_failure<W: Write>(name: &Part<'_>, error: &Error, errors: &mut Counted<W>) -> bool
    requires { failed_calls errors.old < max_count }
    ensures said { IsTrue result → PrintsFailure (codes "cannot read ") (part_text name.now)
        (W.contents (stream_of errors.old)) (W.contents (stream_of errors.new)) }
    ensures failed { CountsUnsaid result (failed_calls errors.old) (failed_calls errors.new) }
{
    print_failure("cannot read ", name, error, errors)
}

/// Writes the message for a failed call of the writer. There is none if the reader of the output was closed.
fn print_output_failure<W: Write>(name: &Part<'_>, error: &Error, errors: &mut Counted<W>) -> bool
    requires { failed_calls errors.old < max_count }
    ensures said { IsTrue result → PrintsOutputFailure (error_kind error.now) (part_text name.now)
        (W.contents (stream_of errors.old)) (W.contents (stream_of errors.new)) }
    ensures failed { CountsUnsaid result (failed_calls errors.old) (failed_calls errors.new) }
{
    if error.kind() == ErrorKind::BrokenPipe {
        return true;
    }
    print_failure("cannot write ", name, error, errors)
}

/// Writes the message for a failed call on a file or a stream, with the system's reason.
fn print_failure<W: Write>(
    what: &str,
    name: &Part<'_>,
    error: &Error,
    errors: &mut Counted<W>,
) -> bool
    requires { failed_calls errors.old < max_count }
    ensures said { IsTrue result → PrintsFailure what.now (part_text name.now) (W.contents (stream_of errors.old))
        (W.contents (stream_of errors.new)) }
    ensures failed { CountsUnsaid result (failed_calls errors.old) (failed_calls errors.new) }
{
    let mut text = ArrayString::<256>::new();
    let _ = fmt::Write::write_fmt(&mut text, format_args!("{error}"));
    print_start(what, name, errors) && print_end(text.as_str(), errors)
}

/// Writes the start of the message for a failed call.
fn print_start<W: Write>(what: &str, name: &Part<'_>, errors: &mut Counted<W>) -> bool
    requires { failed_calls errors.old < max_count }
    ensures said { IsTrue result → Appends (W.contents (stream_of errors.old)) (W.contents (stream_of errors.new))
        (codes "naga_opt: " ++ (what.now ++ part_text name.now)) }
    ensures failed { CountsUnsaid result (failed_calls errors.old) (failed_calls errors.new) }
{
    print_text("naga_opt: ", errors) && print_text(what, errors) && print_part(name, errors)
}

/// Writes the end of the message for a failed call, which is its reason.
fn print_end<W: Write>(reason: &str, errors: &mut Counted<W>) -> bool
    requires { failed_calls errors.old < max_count }
    ensures said { IsTrue result → Appends (W.contents (stream_of errors.old)) (W.contents (stream_of errors.new))
        (codes ": " ++ (reason.now ++ codes "\n")) }
    ensures failed { CountsUnsaid result (failed_calls errors.old) (failed_calls errors.new) }
{
    print_text(": ", errors) && print_text(reason, errors) && print_text("\n", errors)
}

/// Writes the message for wrong arguments.
fn print_argument_fault<W: Write>(wrong: &ArgumentFault, errors: &mut Counted<W>) -> bool
    requires { failed_calls errors.old < max_count }
    ensures said { IsTrue result → PrintsArgumentFault wrong.now (W.contents (stream_of errors.old))
        (W.contents (stream_of errors.new)) }
    ensures failed { CountsUnsaid result (failed_calls errors.old) (failed_calls errors.new) }
{
    match wrong {
        ArgumentFault::NotUtf8 => print_named("unexpected argument", Part::Plain(""), errors),
        ArgumentFault::Unexpected(named) => {
            print_named(
                "unexpected argument: ",
                Part::Quoted(named.as_str()),
                errors,
            )
        }
        ArgumentFault::NoValue(flag) => {
            print_named("no value for ", Part::Plain(flag.text()), errors)
        }
        ArgumentFault::Twice(flag) => {
            print_named("option given twice: ", Part::Plain(flag.text()), errors)
        }
        ArgumentFault::Exclude(first, second) => print_exclusion(*first, *second, errors),
        ArgumentFault::NoCheck(flag) => {
            print_named(flag.text(), Part::Plain(" must follow --check"), errors)
        }
        ArgumentFault::UnknownPass(named) => print_unknown_pass(named.as_str(), errors),
    }
}

/// Writes a message for wrong arguments that ends with what is wrong.
fn print_named<'a, W: Write>(before: &'a str, wrong: Part<'a>, errors: &mut Counted<W>) -> bool
    requires { failed_calls errors.old < max_count }
    ensures said { IsTrue result → PrintsLine ((before.now ++ part_text wrong.entry) ++ (codes "\n" ++ USAGE.now))
        (W.contents (stream_of errors.old)) (W.contents (stream_of errors.new)) }
    ensures failed { CountsUnsaid result (failed_calls errors.old) (failed_calls errors.new) }
{
    print_line(
        &[
            Part::Plain(before),
            wrong,
            Part::Plain("\n"),
            Part::Plain(USAGE),
        ],
        errors,
    )
}

/// Writes the message for two options that exclude each other.
fn print_exclusion<W: Write>(first: Flag, second: Flag, errors: &mut Counted<W>) -> bool
    requires { failed_calls errors.old < max_count }
    ensures said { IsTrue result → PrintsArgumentFault (ArgumentFault.Exclude first second)
        (W.contents (stream_of errors.old)) (W.contents (stream_of errors.new)) }
    ensures failed { CountsUnsaid result (failed_calls errors.old) (failed_calls errors.new) }
{
    print_line(
        &[
            Part::Plain(first.text()),
            Part::Plain(" and "),
            Part::Plain(second.text()),
            Part::Plain(" exclude each other\n"),
            Part::Plain(USAGE),
        ],
        errors,
    )
}

/// Writes the message for a name that is not that of a pass.
fn print_unknown_pass<W: Write>(name: &str, errors: &mut Counted<W>) -> bool
    requires { failed_calls errors.old < max_count }
    ensures said { IsTrue result → PrintsLine (unknown_text (in_quotes name.now) ++ (codes "\n" ++ USAGE.now))
        (W.contents (stream_of errors.old)) (W.contents (stream_of errors.new)) }
    ensures failed { CountsUnsaid result (failed_calls errors.old) (failed_calls errors.new) }
{
    print_line(
        &[
            Part::Plain("unknown pass: "),
            Part::Quoted(name),
            Part::Plain(" (passes: "),
            Part::Plain(PASS_NAMES),
            Part::Plain(")\n"),
            Part::Plain(USAGE),
        ],
        errors,
    )
}
