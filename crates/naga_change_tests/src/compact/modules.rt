//! Tests of which elements of a module are used, and of how many are left once it is compacted.
use super::{module, nth};
use naga_compact::{KeepUnused, UsedHandles, compact, used_handles};
use naga_ir::{Constant, Module};
use naga_valid::{Reference, check_handles};
use std::alloc::Global;

/// Returns whether the sets have these members, or `None` if an allocation fails.
fn are_members(alloc: Global, used: &UsedHandles, text: &str) -> Option<bool> {
    let (types, constants, overrides) = (
        &used.types_used,
        &used.constants_used,
        &used.overrides_used,
    );
    let variables = &used.global_variables_used;
    let (expressions, functions) = (&used.global_expressions_used, &used.functions_used);
    match format!(in alloc;
        "{types:?} {constants:?} {overrides:?} {variables:?} {expressions:?} {functions:?}"
    ) {
        Ok(shown) => Some(
            shown.as_str() == text && used.contains(&Reference::Constant(nth::<Constant>(1))),
        ),
        Err(_) => None,
    }
}

/// Returns whether these elements of a module are used, or `None` if an allocation fails.
fn are_used(alloc: Global, module: &Module, keep_unused: KeepUnused, text: &str) -> Option<bool> {
    match used_handles(alloc, module, keep_unused) {
        Ok(used) => are_members(alloc, &used, text),
        Err(_) => None,
    }
}

/// Returns whether nothing is left of a module.
fn is_empty(module: &Module) -> bool {
    module.types.is_empty()
        && module.global_expressions.is_empty()
        && module.functions.is_empty()
        && module.entry_points.is_empty()
}

/// Returns whether the first element of each arena is removed from a module.
fn is_small(module: &Module) -> bool {
    module.types.len() == 2
        && module.constants.len() == 1
        && module.global_variables.len() == 1
        && module.global_expressions.len() == 1
        && module.functions.len() == 1
        && module.entry_points.len() == 1
}

/// Compacts a valid module, and returns whether what is not used is removed. If an allocation fails, the module must be
/// empty. Returns `None` if one fails.
fn compacts(alloc: Global, module: &mut Module) -> Option<bool> {
    if check_handles(module).is_err() {
        return Some(false);
    }
    match compact(alloc, module, KeepUnused::No) {
        Ok(_) => Some(is_small(module) && check_handles(module).is_ok()),
        Err(_) if is_empty(module) => None,
        Err(_) => Some(false),
    }
}

/// Returns whether the elements of a module are used as they should be, for either choice, and whether the others are
/// removed. Returns `None` if an allocation fails.
fn tells(alloc: Global, module: &mut Module) -> Option<bool> {
    let used = "{[1], [2]} {[1]} {[1]} {[1]} {[1]} {[1]}";
    let chosen = "{[0], [1], [2]} {[1]} {[1]} {[0], [1]} {[0], [1]} {[0], [1]}";
    if !are_used(alloc, module, KeepUnused::No, used)? {
        return Some(false);
    }
    if !are_used(alloc, module, KeepUnused::Yes, chosen)? {
        return Some(false);
    }
    compacts(alloc, module)
}

/// Returns whether the module is compacted, or `None` if an allocation fails.
fn is_compacted(alloc: Global) -> Option<bool> {
    let mut module = module(alloc, "null")?;
    tells(alloc, &mut module)
}

#[test]
fn what_is_used_is_left(rt: HostRuntime) {
    assert!(rt; is_compacted(rt.alloc()) == Some(true));
}

/// Tests in which allocations may fail.
mod refusals {
    use super::*;

    #[test]
    fn a_refused_allocation_is_an_error_and_leaves_an_empty_module(rt: HostRuntime) {
        assert!(rt; is_compacted(rt.alloc()) != Some(false));
    }
}
