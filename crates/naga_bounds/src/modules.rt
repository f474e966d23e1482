//! The pass that clamps accesses.
ghost use Rattle.std.specs.Prelude.{◌≡◌, IfSome, MatchResult};
ghost use Rattle.naga_bounds.specs.Prepared.{IsReady};
ghost use Rattle.naga_bounds.specs.Restricted.{IsChanged};
ghost use Rattle.naga_bounds.specs.RestrictedModules.{IsRestrictError, RestrictsModule};
ghost use Rattle.naga_bounds.specs.RestrictedModules.Parts.{IsEntryError, RestrictsEntries, RestrictsFunctions};

use crate::prepared::{Prepared, prepare};
use crate::restrict_error::RestrictError;
use naga_arena::Handle;
use naga_flow::BodyOwner;
use naga_ir::{Function, Module};
use std::alloc::Global;

/// Clamps each access of each function and of each entry point of a module that does not fit, so that afterwards each
/// access fits, as [`check_bounds`](crate::check_bounds) has it. What fits stays as it is.
///
/// The index of an access becomes the minimum of the old index and the last index of its base:
/// - The last index is a literal if the length is fixed. If the length is an override, it is this override less 1, and
///   for an array in a buffer, [`ArrayLength`](naga_ir::Expression::ArrayLength) of the base less 1.
/// - An index that is not of type `u32` is converted to it before. A constant index becomes a literal, and the access an
///   [`Access`](naga_ir::Expression::Access).
///
/// Literals and overrides are inserted at the front of the arena, without names. The other inserted expressions come right
/// before their access, in the `Emit` that covers it. All have the span of the access. Handles are replaced throughout the
/// function; names of handles that are not in the arena are removed.
///
/// Of each function, these are judged in this order, and the first that is wrong is returned with the function:
/// - Each expression has a type.
/// - The body passes [`check_emitted`](naga_flow::check_emitted), where accesses by constant indices below fixed lengths
///   may be evaluated where they are used. This is judged even if each access fits.
/// - Each access, in the order of their handles, fits or can be clamped. None can if both its index and its length are
///   numbers, if it is a swizzle, if it would be an index of a matrix that is not behind a pointer, which must be a
///   constant, or if its index is of no integer type. Nor can one whose length is not known: a binding array without a
///   size, an override of another type than `u32`, and an array in a buffer whose pointer is not evaluated where it is
///   used.
/// - The new arena has at most `u32::MAX` expressions.
///
/// The functions come before the entry points. On error, those before the one that is named are restricted, and all others
/// are unchanged. All that is needed for a function is allocated before it changes. The time is linear in the number of
/// expressions and statements.
///
/// Differs from naga: naga has no such pass. Its back ends clamp indices.
pub fn restrict(alloc: Global, module: &mut Module) -> Result<(), RestrictError>
    ensures { MatchResult result (λ _. RestrictsModule «module».old «module».new)
        (IsRestrictError «module».old «module».new) }
{
    if let Err(error) = restrict_functions(alloc, module) {
        return Err(error);
    }
    restrict_entry_points(alloc, module)
}

/// Restricts the functions that are not entry points.
fn restrict_functions(alloc: Global, module: &mut Module) -> Result<(), RestrictError>
    ensures { MatchResult result (λ _. RestrictsFunctions «module».old «module».new)
        (IsRestrictError «module».old «module».new) }
{
    'functions: for index in 0..module.functions.len() {
        let handle = Handle::<Function>::at(index);
        match prepare(alloc, module, &module.functions[handle]) {
            Ok(found) => apply(found, module.functions.get_mut(handle)),
            Err(obstacle) => {
                let owner = BodyOwner::Function(handle);
                return Err(RestrictError { owner, obstacle });
            }
        }
    }
    Ok(())
}

/// Restricts the functions of the entry points.
fn restrict_entry_points(alloc: Global, module: &mut Module) -> Result<(), RestrictError>
    ensures { MatchResult result (λ _. RestrictsEntries «module».old «module».new)
        (IsEntryError «module».old «module».new) }
{
    'entry_points: for position in 0..module.entry_points.len() {
        match prepare(alloc, module, &module.entry_points[position].function) {
            Ok(found) => apply(found, &mut module.entry_points[position].function),
            Err(obstacle) => {
                let owner = BodyOwner::EntryPoint(position);
                return Err(RestrictError { owner, obstacle });
            }
        }
    }
    Ok(())
}

/// Changes a function if changes are prepared for it.
fn apply(found: Option<Prepared>, function: &mut Function)
    requires { IfSome found (IsReady function.old) }
    ensures kept { found ≡ None → function.new ≡ function.old }
    ensures changed { IfSome found (λ prepared. IsChanged prepared.plan function.old function.new) }
{
    if let Some(prepared) = found {
        prepared.apply(function);
    }
}
