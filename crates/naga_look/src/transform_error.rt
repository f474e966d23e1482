//! The reason why a text has no answer.
ghost use Rattle.std.specs.Prelude.{◌≡◌};

use naga_json_read::ReadError;
use naga_json_write::WriteError;
use std::alloc::AllocError;
use std::error::Error;
use std::fmt;

/// The reason why the text of a module has no answer.
#[derive(Debug, Drop)]
pub enum TransformError {
    /// An allocation failed.
    Memory,
    /// The text was not read as a module. The error is not [`ReadError::Memory`].
    Read(ReadError),
    /// The module that the passes made was not written. The error is not [`WriteError::Memory`].
    Write(WriteError),
    /// The accesses of a function cannot be clamped. The message is that of
    /// [`restrict_message`](crate::restrict_message).
    Restrict(String),
}

impl fmt::Display for TransformError {
    ghost use Rattle.std.specs.Prelude.{Some};
    ghost use Rattle.naga_look.specs.Transform.{transform_error_text};

    ghost output = { λ error. Some (transform_error_text error) };

    fn fmt<W: fmt::Write>(&self, f: &mut fmt::Formatter<W>) -> fmt::Result {
        match self {
            TransformError::Memory => f.write_str("out of memory"),
            TransformError::Read(error) => write!(f, "{error}"),
            TransformError::Write(error) => write!(f, "{error}"),
            TransformError::Restrict(message) => f.write_str(message.as_str()),
        }
    }
}

impl Error for TransformError {}

impl From<AllocError> for TransformError {
    ghost use Rattle.naga_look.specs.declared.transform_error.TransformError.TheVariants.{Memory};

    ghost from_gives = { λ _ error. error ≡ Memory };

    fn from(_error: AllocError) -> Self {
        TransformError::Memory
    }
}

impl From<ReadError> for TransformError {
    ghost use Rattle.naga_look.specs.Transform.{error_of_read};

    ghost from_gives = { λ given error. error ≡ error_of_read given };

    fn from(given: ReadError) -> Self {
        match given {
            ReadError::Memory => TransformError::Memory,
            _ => TransformError::Read(given),
        }
    }
}

impl From<WriteError> for TransformError {
    ghost use Rattle.naga_look.specs.Transform.{error_of_write};

    ghost from_gives = { λ given error. error ≡ error_of_write given };

    fn from(given: WriteError) -> Self {
        match given {
            WriteError::Memory => TransformError::Memory,
            _ => TransformError::Write(given),
        }
    }
}
