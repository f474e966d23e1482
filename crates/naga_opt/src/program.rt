//! The program as a function of its command and its streams.
ghost use Rattle.std.specs.Prelude.{◌≡◌, ◌<◌, ◌↔◌, List, [], ℕ, IfErr, IfOk, IsErr, IsOk, IsTrue, OnOk, string_bytes};
ghost use Rattle.std.specs.Io.KnownBytes.{Appends};
ghost use Rattle.std.specs.Process.{exit_status};
ghost use Rattle.naga_streams.specs.Counted.{failed_calls, is_flushed, max_count, stream_of};
ghost use Rattle.naga_opt.specs.Input.{IsInput, IsInputFault, IsOutput, IsOutputFault};
ghost use Rattle.naga_opt.specs.Messages.{CountsUnsaid, PrintsFault};
ghost use Rattle.naga_opt.specs.Program.{IsAnswered, MayEndGiven, MayEndWith, Writes, WritesAnswer, WritesGiven, exit_number, status_of_answer, status_of_fault};
ghost use Rattle.naga_opt.specs.Answer.{IsFaultOf, MayFault};
ghost use Rattle.naga_opt.specs.Task.{chosen_of};
ghost use Rattle.naga_opt.specs.declared.report.ProgramFault.{ProgramFault as Fault};

use crate::answer::{TextAnswer, answer};
use crate::line::print_text;
use crate::report::{ProgramFault, print_fault};
use crate::task::{Command, Task};
use crate::text::{read_bytes, without_mark, write_bytes};
use crate::usage::{HELP, VERSION};
use naga_explain::message_of;
use naga_json_read::ReadError;
use naga_look::TransformError;
use naga_streams::Counted;
use std::alloc::{AllocError, Global};
use std::io::{Read, Write};
use std::process::ExitCode;

/// How the program ended.
#[derive(Clone, Copy, Debug, PartialEq, Eq)]
pub enum Status {
    /// The whole answer was written.
    Answered,
    /// The whole report was written, and a function has a fault.
    FoundFault,
    /// An error other than wrong arguments.
    Failed,
    /// The arguments are wrong.
    WrongArguments,
}

/// How the program ended, and whether it said what was to be said.
#[derive(Clone, Copy, Debug, PartialEq, Eq)]
pub struct Ended {
    /// How the program ended.
    pub status: Status,
    /// `false` if a call of the writer of errors failed, so that the message of an error, or what is to be said of an
    /// answer, was not written whole.
    pub is_said: bool,
}

/// An answer that was written.
#[derive(Debug, Drop)]
struct Answered {
    /// How the program ends.
    status: Status,
    /// What is to be said of the answer on standard error.
    said: String,
}

impl Ended {
    /// Returns the exit status of the program.
    pub fn exit_code(self) -> ExitCode
        ensures { exit_status result ≡ exit_number self.status }
    {
        match self.status {
            Status::Answered => ExitCode::SUCCESS,
            Status::FoundFault => ExitCode::FAILURE,
            Status::Failed => ExitCode::FAILURE,
            Status::WrongArguments => ExitCode::from(2),
        }
    }
}

/// Does what the command says, and writes to `errors` what is to be said of it, or an error message.
///
/// The input is read to its end. What is to be said of an answer is written after the whole answer, and if it is nothing,
/// no call of `errors` is made. The status does not depend on whether it could be written, and it is not written only if
/// a call of `errors` fails. The answer is written once the whole of it is known, so with any error except
/// [`ProgramFault::Output`], no call of the output is made. If there is no command, `command` is the reason as `Err`,
/// and nothing is read and nothing is written except the error message. If the reader of the output was closed, there is
/// no message.
pub fn run<R: Read, W: Write, E: Write>(
    alloc: Global,
    command: &Result<Command, ProgramFault>,
    input: &mut Counted<R>,
    output: &mut Counted<W>,
    errors: &mut Counted<E>,
) -> Ended
    requires input_counts { failed_calls input.old < max_count }
    requires output_counts { failed_calls output.old < max_count }
    requires errors_count { failed_calls errors.old < max_count }

    ensures written { IsAnswered result.status → (said : List ℕ)
        × WritesGiven command.now (R.remaining (stream_of input.old)) (W.contents (stream_of output.old))
        (W.contents (stream_of output.new)) result.status said
        × (said ≡ [] → (errors.new ≡ errors.old) × IsTrue result.is_said)
        × (IsTrue result.is_said → Appends (E.contents (stream_of errors.old)) (E.contents (stream_of errors.new)) said) }
    ensures flushed { IsAnswered result.status → IsTrue (is_flushed output.new) }

    ensures fault { ¬ IsAnswered result.status → (fault : Fault)
        × MayEndGiven command.now (R.remaining (stream_of input.old)) fault
        × (result.status ≡ status_of_fault fault)
        × (IsOk command.now → failed_calls input.old < failed_calls input.new ↔ IsInputFault fault)
        × (IsOk command.now → failed_calls output.old < failed_calls output.new ↔ IsOutputFault fault)
        × ((¬ IsOutputFault fault) → output.new ≡ output.old)
        × (IsTrue result.is_said → PrintsFault command.now fault (E.contents (stream_of errors.old))
        (E.contents (stream_of errors.new))) }

    ensures unsaid { CountsUnsaid result.is_said (failed_calls errors.old) (failed_calls errors.new) }

    ensures arguments_first { IsErr command.now → (input.new ≡ input.old) × (output.new ≡ output.old) }
{
    match command {
        Ok(given) => match answer_command(alloc, given, input, output) {
            Ok(answered) => Ended {
                status: answered.status,
                is_said: say(answered.said.as_str(), errors),
            },
            Err(fault) => end_with(&fault, command, errors),
        },
        Err(reason) => end_with(reason, command, errors),
    }
}

/// Writes what is to be said of an answer, and returns whether it was written. If it is nothing, no call is made.
fn say<E: Write>(said: &str, errors: &mut Counted<E>) -> bool
    requires { failed_calls errors.old < max_count }
    ensures nothing { said.now ≡ [] → (errors.new ≡ errors.old) × IsTrue result }
    ensures said { IsTrue result
        → Appends (E.contents (stream_of errors.old)) (E.contents (stream_of errors.new)) said.now }
    ensures failed { CountsUnsaid result (failed_calls errors.old) (failed_calls errors.new) }
{
    said.is_empty() || print_text(said, errors)
}

/// Writes the message of an error, and returns how the program ends.
fn end_with<E: Write>(
    fault: &ProgramFault,
    command: &Result<Command, ProgramFault>,
    errors: &mut Counted<E>,
) -> Ended
    requires { failed_calls errors.old < max_count }
    ensures status { result.status ≡ status_of_fault fault.now }
    ensures said { IsTrue result.is_said → PrintsFault command.now fault.now (E.contents (stream_of errors.old))
        (E.contents (stream_of errors.new)) }
    ensures failed { CountsUnsaid result.is_said (failed_calls errors.old) (failed_calls errors.new) }
{
    Ended {
        status: status_of_fault(fault),
        is_said: print_fault(fault, command, errors),
    }
}

/// Does what the command says.
fn answer_command<R: Read, W: Write>(
    alloc: Global,
    command: &Command,
    input: &mut Counted<R>,
    output: &mut Counted<W>,
) -> Result<Answered, ProgramFault>
    requires input_counts { failed_calls input.old < max_count }
    requires output_counts { failed_calls output.old < max_count }
    ensures written { IfOk result (λ answered. Writes command.now (R.remaining (stream_of input.old))
        (W.contents (stream_of output.old)) (W.contents (stream_of output.new)) answered.status
        (string_bytes answered.said)) }
    ensures answered { IfOk result (λ answered. IsAnswered answered.status) }
    ensures flushed { OnOk result (IsTrue (is_flushed output.new)) }
    ensures fault { IfErr result (MayEndWith command.now (R.remaining (stream_of input.old))) }
    ensures unwritten { IfErr result (λ fault. (¬ IsOutputFault fault) → output.new ≡ output.old) }
    ensures input_failed { failed_calls input.old < failed_calls input.new ↔ IsInput result }
    ensures output_failed { failed_calls output.old < failed_calls output.new ↔ IsOutput result }
{
    match command {
        Command::Help => print(alloc, output, HELP),
        Command::Version => print(alloc, output, VERSION),
        Command::Run(task) => answer_input(alloc, input, output, task),
    }
}

/// Writes a text, of which nothing is to be said.
fn print<W: Write>(
    alloc: Global,
    output: &mut Counted<W>,
    text: &str,
) -> Result<Answered, ProgramFault>
    requires { failed_calls output.old < max_count }
    ensures written { IfOk result (λ answered. Appends (W.contents (stream_of output.old))
        (W.contents (stream_of output.new)) text.now
        × (answered.status ≡ Status.Answered) × (string_bytes answered.said ≡ [])) }
    ensures flushed { OnOk result (IsTrue (is_flushed output.new)) }
    ensures fault { IfErr result IsOutputFault }
    ensures output_failed { failed_calls output.old < failed_calls output.new ↔ IsOutput result }
{
    write_bytes(output, text.as_bytes())?;
    Ok(Answered {
        status: Status::Answered,
        said: String::new(alloc),
    })
}

/// Answers the text of the input for a task.
fn answer_input<R: Read, W: Write>(
    alloc: Global,
    input: &mut Counted<R>,
    output: &mut Counted<W>,
    task: &Task,
) -> Result<Answered, ProgramFault>
    requires input_counts { failed_calls input.old < max_count }
    requires output_counts { failed_calls output.old < max_count }
    ensures written { IfOk result (λ answered. WritesAnswer (chosen_of task.now) (R.remaining (stream_of input.old))
        (W.contents (stream_of output.old)) (W.contents (stream_of output.new)) answered.status
        (string_bytes answered.said)) }
    ensures answered { IfOk result (λ answered. IsAnswered answered.status) }
    ensures flushed { OnOk result (IsTrue (is_flushed output.new)) }
    ensures fault { IfErr result (MayFault (chosen_of task.now) (R.remaining (stream_of input.old))) }
    ensures unwritten { IfErr result (λ fault. (¬ IsOutputFault fault) → output.new ≡ output.old) }
    ensures input_failed { failed_calls input.old < failed_calls input.new ↔ IsInput result }
    ensures output_failed { failed_calls output.old < failed_calls output.new ↔ IsOutput result }
{
    let bytes = read_bytes(alloc, input)?;
    let rest = without_mark(&bytes);
    let Ok(text) = str::from_utf8(rest) else {
        return Err(ProgramFault::NotUtf8);
    };
    let TextAnswer { shown, said } = match answer(alloc, text, task) {
        Ok(answer) => answer,
        Err(error) => {
            let skipped = bytes.len().saturating_sub(rest.len());
            return Err(fault_of(alloc, text, skipped, error));
        }
    };
    write_bytes(output, shown.text.as_bytes())?;
    Ok(Answered {
        status: status_of_answer(shown.faults),
        said,
    })
}

/// Returns the error for a text that has no answer for this reason, where `skipped` bytes precede it in the input.
fn fault_of(alloc: Global, text: &str, skipped: usize, error: TransformError) -> ProgramFault
    ensures fault { IsFaultOf text.now skipped error result }
    ensures apart { (¬ IsInputFault result) × (¬ IsOutputFault result) }
{
    match error {
        TransformError::Read(reason) => unread(alloc, text, skipped, reason),
        TransformError::Restrict(message) => ProgramFault::Unrestricted(message),
        TransformError::Write(reason) => ProgramFault::Unwritten(reason),
        TransformError::Memory => ProgramFault::Memory,
    }
}

/// Returns the error for a text that was not read, for this reason, where `skipped` bytes precede it in the input.
fn unread(alloc: Global, text: &str, skipped: usize, reason: ReadError) -> ProgramFault
    ensures fault { IsFaultOf text.now skipped (TransformError.Read reason) result }
    ensures apart { (¬ IsInputFault result) × (¬ IsOutputFault result) }
{
    match message_of(alloc, text, skipped, reason) {
        Ok(message) => ProgramFault::Unread(message),
        Err(AllocError) => ProgramFault::Memory,
    }
}

/// Returns how the program ends after an answer with this number of faults.
fn status_of_answer(faults: usize) -> Status
    ensures { result ≡ status_of_answer faults }
{
    match faults {
        0 => Status::Answered,
        _ => Status::FoundFault,
    }
}

/// Returns how the program ends after an error.
fn status_of_fault(fault: &ProgramFault) -> Status
    ensures { result ≡ status_of_fault fault.now }
{
    match fault {
        ProgramFault::Arguments(_) => Status::WrongArguments,
        _ => Status::Failed,
    }
}
