//! The errors of reading.
ghost use Rattle.std.specs.Prelude.{◌≡◌};

use std::alloc::{AllocError, AllocFailed};

/// The error returned when a text is rejected.
#[derive(Clone, Copy, Debug, PartialEq, Eq)]
pub enum ShapeError {
    /// The text is not a notation. Its longest prefix that can be continued to a notation has `at` bytes.
    BadText { at: usize },
    /// The bracket at byte `at` opens a block that is deeper than [`DEPTH_LIMIT`](crate::DEPTH_LIMIT).
    TooDeep { at: usize },
    /// The text has more bytes than [`LENGTH_LIMIT`](crate::LENGTH_LIMIT).
    TooLong,
    /// An allocation failed.
    Memory,
}

impl From<AllocError> for ShapeError {
    ghost use Rattle.naga_notation.specs.declared.error.ShapeError.TheVariants.{Memory};

    ghost from_gives = { λ _ e. e ≡ Memory };

    fn from(_error: AllocError) -> ShapeError {
        ShapeError::Memory
    }
}

/// The error returned when a sign could not be read.
#[derive(Clone, Copy)]
pub enum NotationError {
    /// The sign may not follow what has been read.
    Unexpected,
    /// An allocation failed.
    Memory,
}

impl From<AllocError> for NotationError {
    ghost use Rattle.naga_notation.specs.declared.error.NotationError.TheVariants.{Memory};

    ghost from_gives = { λ _ e. e ≡ Memory };

    fn from(_error: AllocError) -> NotationError {
        NotationError::Memory
    }
}

impl<T: Drop> From<AllocFailed<T>> for NotationError {
    ghost use Rattle.naga_notation.specs.declared.error.NotationError.TheVariants.{Memory};

    ghost from_gives = { λ _ e. e ≡ Memory };

    fn from(_failed: AllocFailed<T>) -> NotationError {
        NotationError::Memory
    }
}
