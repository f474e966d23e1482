//! The reason why a text was not read as a module.
ghost use Rattle.std.specs.Prelude.{◌≡◌};

use naga_json_values::Cause;
use naga_valid::InvalidHandle;
use std::error::Error;
use std::fmt;

/// The reason why a text was not read as a module.
///
/// It contains no place in the JSON, so that a text is read at no cost for one. `naga_schema::find_module_fault` returns
/// the path to the first fault.
///
/// Differs from naga: naga returns serde's errors, and does not compare handles with their arenas.
#[derive(Clone, Copy, Debug, PartialEq, Eq, Drop)]
pub enum ReadError {
    /// An allocation failed.
    Memory,
    /// The text is not JSON, or its lists and objects are nested more than 127 deep.
    Text {
        /// The position in bytes up to which the text was read.
        offset: usize,
    },
    /// The JSON is not what naga writes for a module. The cause is not [`Cause::Memory`].
    Value(Cause),
    /// A handle of the module is not valid.
    Handle(InvalidHandle),
}

impl fmt::Display for ReadError {
    ghost use Rattle.std.specs.Prelude.{Some};
    ghost use Rattle.naga_json_read.specs.Messages.{read_error_text};

    ghost output = { λ error. Some (read_error_text error) };

    fn fmt<W: fmt::Write>(&self, f: &mut fmt::Formatter<W>) -> fmt::Result {
        match self {
            ReadError::Memory => f.write_str("out of memory"),
            ReadError::Text { offset } => write!(f, "invalid JSON at byte {offset}"),
            ReadError::Value(cause) => write!(f, "{cause}"),
            ReadError::Handle(invalid) => write!(f, "{invalid}"),
        }
    }
}

impl Error for ReadError {}

impl From<Cause> for ReadError {
    ghost use Rattle.naga_json_read.specs.Module.{error_of};

    ghost from_gives = { λ cause error. error ≡ error_of cause };

    fn from(cause: Cause) -> Self {
        match cause {
            Cause::Memory => ReadError::Memory,
            _ => ReadError::Value(cause),
        }
    }
}
