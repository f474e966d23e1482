//! The reasons why passes stop.
ghost use Rattle.std.specs.Prelude.{◌≡◌};

use naga_bounds::{Obstacle, RestrictError};
use std::alloc::AllocError;
use std::error::Error;
use std::fmt;

/// The reason why a pass stopped.
#[derive(Clone, Copy, Debug, PartialEq, Drop)]
pub enum PassFault {
    /// An allocation failed.
    Memory,
    /// The accesses of this function cannot be clamped, for this reason, which is not [`Obstacle::Memory`].
    Restrict(RestrictError),
}

impl fmt::Display for PassFault {
    ghost use Rattle.naga_passes.specs.Messages.{pass_fault_text};

    ghost output = { λ fault. pass_fault_text fault };

    fn fmt<W: fmt::Write>(&self, f: &mut fmt::Formatter<W>) -> fmt::Result {
        match self {
            PassFault::Memory => f.write_str("out of memory"),
            PassFault::Restrict(error) => write!(f, "{error}"),
        }
    }
}

impl Error for PassFault {}

impl From<AllocError> for PassFault {
    ghost use Rattle.naga_passes.specs.declared.pass_error.PassFault.TheVariants.{Memory};

    ghost from_gives = { λ _ fault. fault ≡ Memory };

    fn from(_error: AllocError) -> Self {
        PassFault::Memory
    }
}

impl From<RestrictError> for PassFault {
    ghost use Rattle.naga_passes.specs.PassFault.{fault_of};

    ghost from_gives = { λ given fault. fault ≡ fault_of given };

    fn from(given: RestrictError) -> Self {
        match given.obstacle {
            Obstacle::Memory => PassFault::Memory,
            _ => PassFault::Restrict(given),
        }
    }
}

/// A pass stopped.
#[derive(Clone, Copy, Debug, PartialEq, Drop)]
pub struct PassError {
    /// The position of the pass in the list of passes.
    pub position: usize,
    /// The reason why it stopped.
    pub fault: PassFault,
}

impl fmt::Display for PassError {
    ghost use Rattle.naga_passes.specs.Messages.{pass_error_text};

    ghost output = { λ error. pass_error_text error };

    fn fmt<W: fmt::Write>(&self, f: &mut fmt::Formatter<W>) -> fmt::Result {
        write!(f, "pass {}: {}", self.position, self.fault)
    }
}

impl Error for PassError {}
