//! The reasons why a value or a module was not written.
ghost use Rattle.std.specs.Prelude.{◌≡◌};

use std::alloc::AllocError;
use std::fmt;
use thiserror::Error;

/// The reason why a value was not written as JSON.
///
/// Differs from naga: naga writes a NaN and an infinity as null, which it does not read.
#[derive(Clone, Copy, Debug, PartialEq, Eq, Drop, Error)]
pub enum TryWriteError {
    /// An allocation failed.
    #[error("out of memory")]
    Memory,
    /// A literal is a NaN or an infinity.
    #[error("a literal is not finite")]
    NotFinite,
}

impl From<AllocError> for TryWriteError {
    ghost use Rattle.naga_json_write.specs.declared.write_error.TryWriteError.TheVariants.{Memory};

    ghost from_gives = { λ _ error. error ≡ Memory };

    fn from(_error: AllocError) -> Self {
        TryWriteError::Memory
    }
}

/// The reason why a module was not written as JSON.
///
/// Differs from naga: naga writes a NaN and an infinity as null, which it does not read, writes a text that is nested too
/// deep for it to read, and returns serde's errors.
#[derive(Clone, Copy, Debug, PartialEq, Eq, Drop)]
pub enum WriteError {
    /// An allocation failed.
    Memory,
    /// A literal is a NaN or an infinity.
    NotFinite,
    /// The module declares types of the results of built-in functions.
    PredeclaredTypes,
    /// The module has comments on members of structures.
    MemberComments,
    /// The arrays and objects of the JSON are nested more than 127 deep.
    TooDeep,
}

impl WriteError {
    ghost use Rattle.naga_json_write.specs.WriteError.{write_error_text};

    /// Returns the message of the error.
    ///
    /// Differs from naga: naga has no such function.
    pub fn as_str(&self) -> &'static str
        ensures { result.now ≡ write_error_text self.now }
    {
        match self {
            WriteError::Memory => "out of memory",
            WriteError::NotFinite => "a literal is not finite",
            WriteError::PredeclaredTypes =>
                "types of the results of built-in functions have no JSON",
            WriteError::MemberComments => "comments on members of structures have no JSON",
            WriteError::TooDeep => "the JSON is nested too deep",
        }
    }
}

impl fmt::Display for WriteError {
    ghost use Rattle.std.specs.Prelude.{Some};
    ghost use Rattle.naga_json_write.specs.WriteError.{write_error_text};

    ghost output = { λ error. Some (write_error_text error) };

    fn fmt<W: fmt::Write>(&self, f: &mut fmt::Formatter<W>) -> fmt::Result {
        f.write_str(self.as_str())
    }
}

impl std::error::Error for WriteError {}

impl From<AllocError> for WriteError {
    ghost use Rattle.naga_json_write.specs.declared.write_error.WriteError.TheVariants.{Memory};

    ghost from_gives = { λ _ error. error ≡ Memory };

    fn from(_error: AllocError) -> Self {
        WriteError::Memory
    }
}

impl From<TryWriteError> for WriteError {
    ghost use Rattle.naga_json_write.specs.WriteError.{error_of_value};

    ghost from_gives = { λ given error. error ≡ error_of_value given };

    fn from(given: TryWriteError) -> Self {
        match given {
            TryWriteError::Memory => WriteError::Memory,
            TryWriteError::NotFinite => WriteError::NotFinite,
        }
    }
}
