//! Layouters: updates in steps, errors, and clearing.
use super::{TYPES, UNSOUND, at, module_with};
use naga_ir::{GlobalCtx, Module, Scalar, TypeInner};
use naga_layouter::{
    Alignment, LayoutErrorInner, Layouter, MAX_TYPE_SIZE, TypeLayout, sizes_are_known, try_size,
};
use std::alloc::Global;

/// Returns whether an update succeeds.
fn succeeds(layouter: &mut Layouter, ctx: GlobalCtx<'_>) -> bool {
    if sizes_are_known(ctx) {
        layouter.update(ctx).is_ok()
    } else {
        false
    }
}

/// Returns whether an update stops at the last type, whose width is not a power of two.
fn stops(layouter: &mut Layouter, ctx: GlobalCtx<'_>) -> bool {
    if !sizes_are_known(ctx) {
        return false;
    }
    match layouter.update(ctx) {
        Ok(()) => false,
        Err(error) => error.ty == at(3) && error.inner == LayoutErrorInner::NonPowerOfTwoWidth,
    }
}

/// Returns whether a layouter has this size and alignment for a type.
fn has(layouter: &Layouter, number: u8, size: u32, alignment: Alignment) -> bool {
    let layout = TypeLayout { size, alignment };
    layouter.get(at(number)) == Some(&layout)
}

/// Returns whether a layouter has the layouts of the vector, of the array and of the structure.
fn has_all(layouter: &Layouter) -> bool {
    has(layouter, 0, 12, Alignment::SIXTEEN)
        && has(layouter, 1, 64, Alignment::SIXTEEN)
        && has(layouter, 2, 80, Alignment::SIXTEEN)
        && layouter.as_slice().len() == 3
}

/// Returns whether a layouter is updated, twice, then stops at a type without a layout, twice, and is cleared.
fn is_updated(layouter: &mut Layouter, module: &Module, unsound: &Module) -> bool {
    if !succeeds(layouter, module.to_ctx())
        || !succeeds(layouter, module.to_ctx())
        || !has_all(layouter)
    {
        return false;
    }
    if !stops(layouter, unsound.to_ctx())
        || !stops(layouter, unsound.to_ctx())
        || !has_all(layouter)
    {
        return false;
    }
    layouter.clear();
    layouter.get(at(0)).is_none()
}

/// Returns whether a new layouter is updated, stops and is cleared.
fn is_layouter(alloc: Global) -> bool {
    let (Some(module), Some(unsound)) = (module_with(alloc, TYPES), module_with(alloc, UNSOUND))
    else {
        return false;
    };
    let mut layouter = Layouter::new(alloc);
    is_updated(&mut layouter, &module, &unsound)
}

/// Returns whether the stride of elements is their size, rounded up.
fn is_strided() -> bool {
    let layout = TypeLayout {
        size: 12,
        alignment: Alignment::SIXTEEN,
    };
    layout.to_stride() == 16
}

/// Returns whether a scalar is sized.
fn is_sized(alloc: Global) -> bool {
    let module = Module::new(alloc);
    let ctx = module.to_ctx();
    sizes_are_known(ctx)
        && try_size(&TypeInner::Scalar(Scalar::F64), ctx) == Some(8)
        && MAX_TYPE_SIZE == 1_073_741_824
}

#[test]
fn a_layouter_has_the_layouts_of_types(rt: HostRuntime) {
    assert!(rt; is_layouter(rt.alloc()));
    assert!(rt; is_strided());
    assert!(rt; is_sized(rt.alloc()));
}
