//! Why the accesses of a module cannot be clamped.
use crate::cause::Cause;
use naga_arena::Handle;
use naga_flow::{BodyOwner, Misuse};
use naga_ir::Expression;
use naga_typifier::ResolveError;
use std::error::Error;
use std::fmt;

/// Why the accesses of a function cannot be clamped.
#[derive(Clone, Copy, Debug, PartialEq, Drop)]
pub enum Obstacle {
    /// An expression has no type.
    NoType {
        /// The first expression that has none.
        expression: Handle<Expression>,
        /// Why it has none.
        error: ResolveError,
    },
    /// An expression is used that no `Emit` has evaluated, or is evaluated again in its scope.
    NotEmitted(Misuse),
    /// An access may be out of bounds, and no clamp makes sure that it is not.
    NoClamp {
        /// The first such access.
        access: Handle<Expression>,
        /// Why it may be out of bounds even if it is clamped.
        cause: Cause,
    },
    /// The function would have more than `u32::MAX` expressions.
    Full,
    /// Allocation fails.
    Memory,
}

impl fmt::Display for Obstacle {
    ghost use Rattle.naga_bounds.specs.Messages.{obstacle_text};

    ghost output = { λ obstacle. obstacle_text obstacle };

    fn fmt<W: fmt::Write>(&self, f: &mut fmt::Formatter<W>) -> fmt::Result {
        match self {
            Obstacle::NoType { expression, error } => {
                write!(f, "expression {} has no type: {error}", expression.index())
            }
            Obstacle::NotEmitted(misuse) => write!(f, "{misuse}"),
            Obstacle::NoClamp { access, cause } => write!(
                f,
                "expression {} {cause}, and cannot be clamped",
                access.index()
            ),
            Obstacle::Full => f.write_str("too many expressions"),
            Obstacle::Memory => f.write_str("out of memory"),
        }
    }
}

/// The first function of a module whose accesses cannot be clamped.
#[derive(Clone, Copy, Debug, PartialEq, Drop)]
pub struct RestrictError {
    /// The function or the entry point.
    pub owner: BodyOwner,
    /// Why its accesses cannot be clamped.
    pub obstacle: Obstacle,
}

impl fmt::Display for RestrictError {
    ghost use Rattle.naga_bounds.specs.Messages.{restrict_error_text};

    ghost output = { λ error. restrict_error_text error };

    fn fmt<W: fmt::Write>(&self, f: &mut fmt::Formatter<W>) -> fmt::Result {
        write!(f, "{}: {}", self.owner, self.obstacle)
    }
}

impl Error for RestrictError {}
