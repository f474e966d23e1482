//! The check of all handles of a module.
ghost use Rattle.std.specs.Prelude.{◌≡◌, ◌↔◌, IsOk, IfErr};
ghost use Rattle.naga_valid.specs.Faults.{ArePlacesWithin, Checks, IsAtFault, IsPlaceWithin};
ghost use Rattle.naga_valid.specs.Places.{lengths};
ghost use Rattle.naga_valid.specs.Valid.{HandlesAreValid, ReferencesAreWithin};
ghost use Rattle.naga_valid.specs.declared.place.Place.TheVariants as place;

mod body;
mod declarations;
mod elements;
mod fault;
mod function;
mod lists;
mod order;
mod rule;
mod sizes;
mod targets;

use crate::invalid_handle::InvalidHandle;
use crate::limits::Limits;
use fault::Fault;
use naga_ir::Module;

/// Checks all handles and ranges of a module, without allocation.
///
/// Each handle must be in its arena; a function's expressions and local variables are its own. A type must refer only
/// to earlier types, an expression only to earlier expressions of its arena, a function only to earlier functions, and
/// a diagnostic filter only to an earlier one. The range of an `Emit` must not be inverted, and must not end after the
/// last expression.
///
/// A global expression must refer only to types, constants, overrides and global expressions, and to a constant or an
/// override only if its `init` is an earlier global expression, or if it is an override without an `init`. If the size
/// of a type is an override, the type of the override must be before this type. If this override has an `init`, all
/// global expressions up to the `init` must refer only to types that are before this type, and to constants and
/// overrides of such types. So no type, constant, override or global expression depends on itself.
///
/// Returns the first handle that is not valid, in this order: types, special types, constants, overrides, global
/// variables, global expressions, diagnostic filters, the innermost filter, doc comments, functions, entry points. In a
/// function, the order is: arguments, result, local variables, expressions, named expressions, body, innermost filter.
/// In an entry point, the function comes last. If all of these handles are in their arenas and in order, it returns the
/// first global expression that refers to something that is not constant or to an `init` that is not an earlier one,
/// and then the first type whose size comes too early.
///
/// Differs from naga: naga's validator has a check of its own. The error of this one contains the handle and its place.
pub fn check_handles(module: &Module) -> Result<(), InvalidHandle>
    ensures valid { IsOk result ↔ HandlesAreValid «module».now }
    ensures fault { IfErr result (IsAtFault «module».now) }
{
    if let Err(fault) = check_references(module) {
        return Err(fault.in_module(module));
    }
    if let Err(error) = order::check_global_expressions(module) {
        return Err(error);
    }
    sizes::check_sizes(module)
}

/// Checks the handles of all parts of a module, except for the order of types and global expressions.
fn check_references(module: &Module) -> Result<(), Fault>
    ensures { Checks «module».now (ReferencesAreWithin «module».now) result }
{
    let limits = Limits::of_module(module);
    if let Err(fault) = declarations::check_types(module, &limits) {
        return Err(fault);
    }
    if let Err(fault) = declarations::check_special_types(module, &limits) {
        return Err(fault);
    }
    if let Err(fault) = check_values(module, &limits) {
        return Err(fault);
    }
    if let Err(fault) = check_filters(module, &limits) {
        return Err(fault);
    }
    if let Err(fault) = declarations::check_doc_comments(module, &limits) {
        return Err(fault);
    }
    if let Err(fault) = function::check_functions(module, &limits) {
        return Err(fault);
    }
    function::check_entry_points(module, &limits)
}

/// Checks the constants, overrides, global variables and global expressions of a module.
fn check_values(module: &Module, limits: &Limits) -> Result<(), Fault>
    requires { limits.now ≡ lengths «module».now }
    ensures { Checks «module».now (ArePlacesWithin «module».now place.Constant
        × ArePlacesWithin «module».now place.Override
        × ArePlacesWithin «module».now place.GlobalVariable
        × ArePlacesWithin «module».now place.GlobalExpression) result }
{
    if let Err(fault) = declarations::check_constants(module, limits) {
        return Err(fault);
    }
    if let Err(fault) = declarations::check_overrides(module, limits) {
        return Err(fault);
    }
    if let Err(fault) = declarations::check_global_variables(module, limits) {
        return Err(fault);
    }
    declarations::check_global_expressions(module, limits)
}

/// Checks the diagnostic filters of a module, and the innermost one.
fn check_filters(module: &Module, limits: &Limits) -> Result<(), Fault>
    requires { limits.now ≡ lengths «module».now }
    ensures { Checks «module».now (ArePlacesWithin «module».now place.DiagnosticFilter
        × IsPlaceWithin «module».now place.DiagnosticFilterLeaf) result }
{
    if let Err(fault) = declarations::check_diagnostic_filters(module, limits) {
        return Err(fault);
    }
    declarations::check_diagnostic_filter_leaf(module, limits)
}
