//! Updates and checks in which allocations may fail.
use super::{TYPES, UNSOUND, at, module_with};
use naga_ir::Module;
use naga_layouter::{InvalidLayouts, LayoutErrorInner, Layouter, check_layouts, sizes_are_known};
use naga_valid::check_handles;
use std::alloc::Global;

/// Updates a layouter. Returns whether it has all layouts, or none if allocation failed.
fn has_all_or_none(layouter: &mut Layouter, module: &Module) -> bool {
    let ctx = module.to_ctx();
    if !sizes_are_known(ctx) {
        return false;
    }
    match layouter.update(ctx) {
        Ok(()) => layouter.as_slice().len() == 3,
        Err(error) => {
            error.ty == at(0)
                && error.inner == LayoutErrorInner::Memory
                && layouter.get(at(0)).is_none()
        }
    }
}

#[test]
fn a_refused_update_keeps_the_layouts(rt: HostRuntime) {
    let Some(module) = module_with(rt.alloc(), TYPES) else {
        return;
    };
    let mut layouter = Layouter::new(rt.alloc());
    assert!(rt; has_all_or_none(&mut layouter, &module));
}

/// Returns whether the check finds the type without a layout, or lacks memory.
fn finds_or_lacks_memory(alloc: Global, module: &Module) -> bool {
    if check_handles(module).is_err() {
        return false;
    }
    match check_layouts(alloc, module) {
        Ok(()) => false,
        Err(InvalidLayouts::Memory) => true,
        Err(InvalidLayouts::Fault(fault)) => fault.ty == at(3),
    }
}

#[test]
fn a_refused_check_finds_nothing(rt: HostRuntime) {
    let Some(module) = module_with(rt.alloc(), UNSOUND) else {
        return;
    };
    assert!(rt; finds_or_lacks_memory(rt.alloc(), &module));
}

/// Returns whether the check passes, or lacks memory.
fn passes_or_lacks_memory(alloc: Global, module: &Module) -> bool {
    check_handles(module).is_ok()
        && matches!(
            check_layouts(alloc, module),
            Ok(()) | Err(InvalidLayouts::Memory)
        )
}

#[test]
fn a_refused_check_finds_no_fault(rt: HostRuntime) {
    let Some(module) = module_with(rt.alloc(), TYPES) else {
        return;
    };
    assert!(rt; passes_or_lacks_memory(rt.alloc(), &module));
}
