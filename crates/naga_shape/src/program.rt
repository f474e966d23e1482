//! The program as a function of its command-line arguments and streams.
ghost use Rattle.std.specs.Prelude.{◌≡◌, ◌≢◌, ◌<◌, true, Ok, IfErr, OnOk, IsTrue};
ghost use Rattle.std.specs.Io.KnownBytes.{Keeps, Appends};
ghost use Rattle.std.specs.Process.{exit_status};
ghost use Rattle.naga_proc.specs.declared.terminator.rule.Rule.{Rule};
ghost use Rattle.naga_shape.specs.Arguments.{GivesRule};
ghost use Rattle.naga_streams.specs.Counted.{stream_of, failed_calls, is_flushed, max_count};
ghost use Rattle.naga_shape.specs.Faults.{WritesAnswer};
ghost use Rattle.naga_shape.specs.Messages.{fault_line};
ghost use Rattle.naga_shape.specs.Program.{MayEndWith, status_after};
ghost use Rattle.naga_shape.specs.declared.report.ProgramFault.{ProgramFault as Fault};

use crate::arguments::rule_of;
use crate::line::{ShapeFault, shape};
use crate::report::{ProgramFault, print_fault};
use naga_streams::Counted;
use std::alloc::Global;
use std::io::{Error, Read, Write};
use std::process::ExitCode;

/// Closes the line of the input by the rule that the arguments select, or writes an error message to `errors`.
///
/// The arguments come first: if they select no rule or could not be obtained, nothing is read, and nothing is written
/// except the error message. If they could not be obtained, `arguments` is the reason as `Err`.
///
/// Returns `true` if the answer was written, which is exactly when the exit status of the program is 0. Returns `Err`
/// if writing to `errors` failed: the program failed in this case too, but its error message may be missing.
pub fn run<R: Read, W: Write, E: Write>(
    alloc: Global,
    arguments: Result<Vec<String>, ProgramFault>,
    input: &mut Counted<R>,
    output: &mut Counted<W>,
    errors: &mut E,
) -> Result<bool, Error>
    requires input_counts { failed_calls input.old < max_count }
    requires output_counts { failed_calls output.old < max_count }

    ensures written { result ≡ Ok true → (rule : Rule) × GivesRule arguments rule
        × WritesAnswer rule (R.remaining (stream_of input.old))
        (W.contents (stream_of output.old)) (W.contents (stream_of output.new)) }
    ensures flushed { result ≡ Ok true → IsTrue (is_flushed output.new) }
    ensures silent { result ≡ Ok true → errors.new ≡ errors.old }

    ensures fault { result ≢ Ok true → (fault : Fault)
        × MayEndWith arguments (R.remaining (stream_of input.old)) fault
        × (fault ≢ ProgramFault.Line ShapeFault.Output
        → Keeps (W.contents (stream_of output.old)) (W.contents (stream_of output.new)))
        × OnOk result (Appends (E.contents errors.old) (E.contents errors.new) (fault_line fault)) }

    ensures arguments_first { ((rule : Rule) → ¬ GivesRule arguments rule)
        → (input.new ≡ input.old) × (output.new ≡ output.old) }
{
    match close_line(alloc, arguments, input, output) {
        Ok(()) => Ok(true),
        Err(fault) => {
            print_fault(fault, errors)?;
            Ok(false)
        }
    }
}

/// Closes the line of the input by the rule that the arguments select.
fn close_line<R: Read, W: Write>(
    alloc: Global,
    arguments: Result<Vec<String>, ProgramFault>,
    input: &mut Counted<R>,
    output: &mut Counted<W>,
) -> Result<(), ProgramFault>
    requires input_counts { failed_calls input.old < max_count }
    requires output_counts { failed_calls output.old < max_count }
    ensures written { OnOk result ((rule : Rule) × GivesRule arguments rule
        × WritesAnswer rule (R.remaining (stream_of input.old))
        (W.contents (stream_of output.old)) (W.contents (stream_of output.new))) }
    ensures fault { IfErr result (MayEndWith arguments (R.remaining (stream_of input.old))) }
    ensures unwritten { IfErr result (λ fault. fault ≢ ProgramFault.Line ShapeFault.Output
        → Keeps (W.contents (stream_of output.old)) (W.contents (stream_of output.new))) }
    ensures flushed { OnOk result (IsTrue (is_flushed output.new)) }
    ensures arguments_first { ((rule : Rule) → ¬ GivesRule arguments rule)
        → (input.new ≡ input.old) × (output.new ≡ output.old) }
{
    let Some(rule) = rule_of(arguments?.as_slice()) else {
        return Err(ProgramFault::UnexpectedArgument);
    };
    shape(alloc, input, output, rule).map_err(ProgramFault::Line)
}

/// Returns the exit status of the program for the result of `run`: success if the answer was written.
pub fn status_of(ended: &Result<bool, Error>) -> ExitCode
    ensures { exit_status result ≡ status_after ended.now }
{
    match ended {
        Ok(true) => ExitCode::SUCCESS,
        // The error message was written, or writing it failed.
        Ok(false) | Err(_) => ExitCode::FAILURE,
    }
}
