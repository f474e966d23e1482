//! The check of layouts, and its laws.
use super::{TYPES, UNSOUND, at, module_with};
use naga_layouter::laws::{accesses_stay_inside, leaves_do_not_meet, leaves_lie_inside};
use naga_layouter::{InvalidLayouts, LayoutCause, LayoutErrorInner, LayoutFault, check_layouts};
use naga_valid::check_handles;
use std::alloc::Global;

/// Returns the result of the check of a module with these types, or `None` if allocation fails or a handle is not valid.
fn result_of(alloc: Global, types: &str) -> Option<Result<(), InvalidLayouts>> {
    let module = module_with(alloc, types)?;
    if check_handles(&module).is_ok() {
        Some(check_layouts(alloc, &module))
    } else {
        None
    }
}

/// Returns whether the check finds that a type has no layout.
fn finds_type_without_layout(alloc: Global) -> bool {
    let fault = LayoutFault {
        ty: at(3),
        member: None,
        cause: LayoutCause::NoLayout(LayoutErrorInner::NonPowerOfTwoWidth),
    };
    result_of(alloc, UNSOUND) == Some(Err(InvalidLayouts::Fault(fault)))
}

#[test]
fn layouts_are_checked(rt: HostRuntime) {
    assert!(rt; result_of(rt.alloc(), TYPES) == Some(Ok(())));
    assert!(rt; finds_type_without_layout(rt.alloc()));
    leaves_do_not_meet();
    leaves_lie_inside();
    accesses_stay_inside();
}
