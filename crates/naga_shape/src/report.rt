//! The errors with which the program ends, and their messages.
ghost use Rattle.std.specs.Prelude.{OnOk};
ghost use Rattle.std.specs.Io.KnownBytes.{Appends};
ghost use Rattle.naga_shape.specs.Messages.{fault_line};

use crate::line::ShapeFault;
use naga_proc::ShapeError;
use std::io::{Error, Write};

/// The error with which the program ends if it wrote no whole answer.
#[derive(Clone, Copy, Debug, PartialEq, Eq)]
pub enum ProgramFault {
    /// An argument was not expected.
    UnexpectedArgument,
    /// The answer to the line could not be written, or there was no memory for the arguments.
    Line(ShapeFault),
}

/// Writes the message of an error as a line.
pub fn print_fault<W: Write>(fault: ProgramFault, errors: &mut W) -> Result<(), Error>
    ensures line { OnOk result (Appends (W.contents errors.old) (W.contents errors.new) (fault_line fault)) }
{
    match fault {
        ProgramFault::UnexpectedArgument => writeln!(errors, "naga_shape: unexpected argument"),
        ProgramFault::Line(ShapeFault::Shape(ShapeError::BadText { at })) => {
            writeln!(errors, "naga_shape: bad text at byte {at}")
        }
        ProgramFault::Line(ShapeFault::Shape(ShapeError::TooDeep { at })) => {
            writeln!(errors, "naga_shape: too deep at byte {at}")
        }
        ProgramFault::Line(ShapeFault::Shape(ShapeError::TooLong)) => {
            writeln!(errors, "naga_shape: too long")
        }
        ProgramFault::Line(ShapeFault::Shape(ShapeError::Memory)) => {
            writeln!(errors, "naga_shape: out of memory")
        }
        ProgramFault::Line(ShapeFault::NotUtf8) => writeln!(errors, "naga_shape: not UTF-8"),
        ProgramFault::Line(ShapeFault::Input) => writeln!(errors, "naga_shape: input failed"),
        ProgramFault::Line(ShapeFault::Output) => writeln!(errors, "naga_shape: output failed"),
    }
}
