//! The errors that end the program before it has printed its lines.
use naga_arena::ArenaError;
use std::alloc::AllocError;
use std::io;

/// An error that ends the program before it has printed its lines.
#[derive(Clone, Copy)]
pub enum Fault {
    /// The command-line arguments are invalid.
    Arguments,
    /// An allocation failed.
    Memory,
    /// The clock cannot be read, or a line cannot be written.
    System,
    /// The data of a workload does not meet the preconditions of the timed calls.
    SetUp,
}

impl Fault {
    /// Returns the line that reports the error.
    pub fn text(self) -> &'static str {
        match self {
            Fault::Arguments => "usage: naga_bench [NAME REPEATS]",
            Fault::Memory => "out of memory",
            Fault::System => "input or output failed",
            Fault::SetUp => "a workload does not meet the preconditions of its calls",
        }
    }
}

impl From<AllocError> for Fault {
    fn from(_error: AllocError) -> Fault {
        Fault::Memory
    }
}

impl From<ArenaError> for Fault {
    fn from(_error: ArenaError) -> Fault {
        Fault::Memory
    }
}

impl From<io::Error> for Fault {
    fn from(_error: io::Error) -> Fault {
        Fault::System
    }
}
