//! Compacting whole modules.
ghost use Rattle.std.specs.Prelude.{◌≡◌, IfOk, OnErr, OnOk};
ghost use Rattle.naga_ir.specs.Module.{IsEmptyModule};
ghost use Rattle.naga_valid.specs.Valid.{HandlesAreValid};
ghost use Rattle.naga_compact.specs.Module.Compaction.{CompactsModule, RemovesElements, TypesAreClosed};
ghost use Rattle.naga_compact.specs.Module.Runs.{KeepsAllRuns};

use super::functions::compact_functions;
use super::renumbering::{
    ModuleRenumbering, rename_entry_points, rename_optional_comments, retain_functions,
    retain_types,
};
use super::{KeepUnused, used_handles};
use crate::renaming::{InGlobal, Rename};
use naga_ir::Module;
use std::alloc::{AllocError, Global};
use std::mem;

/// Removes everything from a module that is not used, and renames the handles of what is left. [`KeepUnused`] says what
/// is kept even if nothing refers to it.
///
/// First, each function is compacted by itself, as by [`compact_function`](crate::compact_function). Then the elements
/// that [`used_handles`] returns are kept, and all others are removed: types, constants, overrides, global variables,
/// global expressions and functions. The elements that are kept are in order, with their spans. Doc comments on
/// elements that are removed are removed, too. The returned [`ModuleRenumbering`] has the new handles.
///
/// All handles of the module are still valid, and each run of a function that is kept is the same as before, except
/// that it has the new handles.
///
/// If allocation fails, the module is empty. To keep it, clone it first.
///
/// The caller must ensure that all handles of the module are valid, which `check_handles` tests.
///
/// Differs from naga: naga's `compact` returns nothing, and panics if a handle is not valid.
pub fn compact(
    alloc: Global,
    module: &mut Module,
    keep_unused: KeepUnused,
) -> Result<ModuleRenumbering, AllocError>
    requires valid { HandlesAreValid «module».old }
    ensures compacted { IfOk result (λ renumbering.
        CompactsModule «module».old keep_unused renumbering «module».new) }
    ensures runs { IfOk result (λ renumbering. KeepsAllRuns «module».old renumbering «module».new) }
    ensures valid { OnOk result (HandlesAreValid «module».new) }
    ensures emptied { OnErr result (IsEmptyModule «module».new) }
{
    let whole = mem::replace(module, Module::new(alloc));
    let (compacted, renumbering) = compacted(alloc, whole, keep_unused)?;
    *module = compacted;
    Ok(renumbering)
}

/// Returns the compacted module and the new handles, or `Err` if allocation fails.
fn compacted(
    alloc: Global,
    mut whole: Module,
    keep_unused: KeepUnused,
) -> Result<(Module, ModuleRenumbering), AllocError>
    requires valid { HandlesAreValid whole }
    ensures compacted { IfOk result (λ r. CompactsModule whole keep_unused r.1 r.0) }
    ensures valid { IfOk result (λ r. HandlesAreValid r.0) }
{
    compact_functions(alloc, &mut whole)?;
    let used = used_handles(alloc, &whole, keep_unused)?;
    let renumbering = ModuleRenumbering::new(alloc, used)?;
    remove_elements(alloc, &mut whole, &renumbering)?;
    Ok((whole, renumbering))
}

/// Removes the elements that are not kept, and renames the handles of what is left.
///
/// Returns `Err` if allocation fails. The module is then incomplete.
///
/// The caller must ensure that the types and overrides to which kept types refer are kept.
fn remove_elements(
    alloc: Global,
    module: &mut Module,
    renumbering: &ModuleRenumbering,
) -> Result<(), AllocError>
    requires closed { TypesAreClosed renumbering.now «module».old.types }
    ensures { OnOk result (RemovesElements renumbering.now «module».old «module».new) }
{
    retain_types(&mut module.types, renumbering)?;
    renumbering
        .constants
        .retain_renamed(&mut module.constants, renumbering)?;
    renumbering
        .overrides
        .retain_renamed(&mut module.overrides, renumbering)?;
    renumbering
        .global_variables
        .retain_renamed(&mut module.global_variables, renumbering)?;
    let global = InGlobal {
        handles: renumbering,
    };
    renumbering
        .global_expressions
        .retain_renamed(&mut module.global_expressions, &global)?;
    retain_functions(&mut module.functions, renumbering)?;
    rename_optional_comments(alloc, &mut module.doc_comments, renumbering)?;
    module.special_types.rename(renumbering);
    rename_entry_points(&mut module.entry_points, renumbering);
    Ok(())
}
