//! Accesses that may be out of bounds.
use crate::cause::Cause;
use naga_arena::Handle;
use naga_flow::BodyOwner;
use naga_ir::Expression;
use std::error::Error;
use std::fmt;

/// An access of a function that may be out of bounds.
#[derive(Clone, Copy, Debug, PartialEq, Drop)]
pub struct UnfitAccess {
    /// The access.
    pub expression: Handle<Expression>,
    /// Why it may be out of bounds.
    pub cause: Cause,
}

impl fmt::Display for UnfitAccess {
    ghost use Rattle.std.specs.Prelude.{Some};
    ghost use Rattle.naga_bounds.specs.Messages.{unfit_access_text};

    ghost output = { λ unfit. Some (unfit_access_text unfit) };

    fn fmt<W: fmt::Write>(&self, f: &mut fmt::Formatter<W>) -> fmt::Result {
        write!(f, "expression {} {}", self.expression.index(), self.cause)
    }
}

/// An access that may be out of bounds.
#[derive(Clone, Copy, Debug, PartialEq, Drop)]
pub struct Misfit {
    /// The function or the entry point.
    pub owner: BodyOwner,
    /// The access.
    pub expression: Handle<Expression>,
    /// Why it may be out of bounds.
    pub cause: Cause,
}

impl fmt::Display for Misfit {
    ghost use Rattle.std.specs.Prelude.{Some};
    ghost use Rattle.naga_bounds.specs.Messages.{misfit_text};

    ghost output = { λ misfit. Some (misfit_text misfit) };

    fn fmt<W: fmt::Write>(&self, f: &mut fmt::Formatter<W>) -> fmt::Result {
        let expression = self.expression.index();
        write!(f, "{}: expression {expression} {}", self.owner, self.cause)
    }
}

impl Error for Misfit {}

/// Why the check of bounds fails.
#[derive(Clone, Copy, Debug, PartialEq, Drop)]
pub enum InvalidAccess {
    /// Allocation fails.
    Memory,
    /// An access may be out of bounds.
    Misfit(Misfit),
}

impl fmt::Display for InvalidAccess {
    ghost use Rattle.std.specs.Prelude.{Some};
    ghost use Rattle.naga_bounds.specs.Messages.{invalid_access_text};

    ghost output = { λ invalid. Some (invalid_access_text invalid) };

    fn fmt<W: fmt::Write>(&self, f: &mut fmt::Formatter<W>) -> fmt::Result {
        match self {
            InvalidAccess::Memory => f.write_str("out of memory"),
            InvalidAccess::Misfit(misfit) => write!(f, "{misfit}"),
        }
    }
}

impl Error for InvalidAccess {}
