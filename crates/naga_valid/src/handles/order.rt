//! The check of the order of global expressions, by which constants and overrides could depend on themselves.
ghost use Rattle.std.specs.Prelude.{◌≡◌, ◌↔◌, ℕ, Contains, IfErr, IsOk, IsTrue};
ghost use Rattle.naga_valid.specs.Faults.{IsAtFault};
ghost use Rattle.naga_valid.specs.Places.{references_in};
ghost use Rattle.naga_valid.specs.Valid.{IsAfterInit, IsConstant, IsConstantExpression};
ghost use Rattle.naga_valid.specs.declared.place.Place.TheVariants as place;

use super::rule::{Rule, first_unlike};
use super::targets::init_of_reference;
use crate::invalid_handle::InvalidHandle;
use crate::place::Place;
use crate::reference::Reference;
use naga_arena::Handle;
use naga_ir::{Expression, Module};

/// The rule that a global expression refers only to what is constant, and to a constant or an override only after its
/// `init`.
struct ConstantInOrder;

impl Rule for ConstantInOrder {
    ghost use Rattle.naga_valid.specs.Valid.{IsAfterInit, IsConstant};

    ghost Permits = { λ whole _ expression to. IsConstant to × IsAfterInit whole expression to };

    fn allows(&self, module: &Module, expression: usize, reference: &Reference) -> bool {
        is_constant(reference) && is_after_init(module, expression, reference)
    }
}

/// Checks that each global expression refers only to types, constants, overrides and global expressions, and that the
/// `init` of each of these constants and overrides is an earlier global expression.
pub(super) fn check_global_expressions(module: &Module) -> Result<(), InvalidHandle>
    ensures valid { IsOk result ↔ ((expression : ℕ) → IsConstantExpression «module».now expression) }
    ensures fault { IfErr result (IsAtFault «module».now) }
{
    let end = module.global_expressions.len();
    match first_unlike(module, 0, end, &ConstantInOrder) {
        Some((expression, handle)) => Err(error_of(module, expression, handle)),
        None => Ok(()),
    }
}

/// Returns the error for a reference of a global expression that is not constant, or that comes before its `init`.
fn error_of(module: &Module, expression: Handle<Expression>, handle: Reference) -> InvalidHandle
    requires inside { Contains (references_in «module».now (place.GlobalExpression expression)) handle }
    requires unlike { ¬ (IsConstant handle × IsAfterInit «module».now expression handle) }
    ensures { IsAtFault «module».now result }
{
    match init_of_reference(module, &handle) {
        Some(init) if init.index() >= expression.index() => InvalidHandle::InitDependency {
            expression,
            handle,
            init,
        },
        _ => InvalidHandle::NotConstant {
            handle,
            place: Place::GlobalExpression(expression),
        },
    }
}

/// Returns whether a global expression may refer to the arena of this reference.
pub(super) fn is_constant(reference: &Reference) -> bool
    ensures { IsTrue result ↔ IsConstant reference.now }
{
    match reference {
        Reference::Type(_) | Reference::Constant(_) => true,
        Reference::Override(_) | Reference::Expression(_) => true,
        _ => false,
    }
}

/// Returns whether the `init` of the constant or the override that is referred to is before a global expression, if
/// there is an `init`.
fn is_after_init(module: &Module, expression: usize, reference: &Reference) -> bool
    ensures { IsTrue result ↔ IsAfterInit «module».now expression reference.now }
{
    match init_of_reference(module, reference) {
        Some(init) => init.index() < expression,
        None => true,
    }
}
