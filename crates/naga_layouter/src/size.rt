//! The sizes of types.
ghost use Rattle.std.specs.Prelude.{◌≡◌, ◌*◌, ◌^◌, ◌<◌, ◌≤◌, ◌↔◌, IsTrue};
ghost use Rattle.naga_kinds.specs.Scalar.{components_of};
ghost use Rattle.naga_ir.specs.Constant.{IsClosedOver, IsKnownSize};
ghost use Rattle.naga_layouter.specs.Alignment.{alignment_of_size};
ghost use Rattle.naga_layouter.specs.Layout.{IsKnownType, KnowsOverrides, SizesAreKnown, bounded, count_of, side_of, size_of};

use naga_arena::Handle;
use naga_ir::{ArraySize, GlobalCtx, IndexableLength, Type, TypeInner};
use naga_kinds::{Bytes, CooperativeSize, VectorSize};

/// The greatest size of an array, in bytes.
pub const MAX_TYPE_SIZE: u32 = 0x4000_0000;

/// The size of a pointer, in bytes.
const POINTER_SPAN: u32 = 4;

/// Returns whether a context contains all that the sizes of its types need: the overrides of the sizes of arrays, and
/// what their values refer to.
///
/// This is the precondition of [`Layouter::update`](crate::Layouter::update), and the context of a module whose handles
/// are valid meets it.
///
/// Differs from naga: naga has no such call.
pub fn sizes_are_known(gctx: GlobalCtx<'_>) -> bool
    ensures { IsTrue result ↔ SizesAreKnown gctx.entry }
{
    gctx.is_closed_over(gctx.global_expressions) && overrides_are_known(gctx)
}

/// Returns whether the overrides of the sizes of arrays are in the context.
fn overrides_are_known(gctx: GlobalCtx<'_>) -> bool
    ensures { IsTrue result ↔ KnowsOverrides gctx.entry }
{
    'each: for index in 0..gctx.types.len() {
        if !is_known(&gctx.types[Handle::<Type>::at(index)].inner, gctx) {
            return false;
        }
    }
    true
}

/// Returns whether the override of the size of an array is in the context.
fn is_known(inner: &TypeInner, gctx: GlobalCtx<'_>) -> bool
    ensures { IsTrue result ↔ IsKnownType gctx.entry inner.now }
{
    match inner {
        TypeInner::Array {
            size: ArraySize::Pending(named),
            ..
        } => named.index() < gctx.overrides.len(),
        _ => true,
    }
}

/// Returns the number of elements with which an array is sized: one if the number is not known.
fn count_of(gctx: GlobalCtx<'_>, size: ArraySize) -> u32
    requires known { IsKnownSize gctx size }
    requires closed { IsClosedOver gctx gctx.global_expressions.now }
    ensures { result ≡ count_of gctx.entry size }
{
    match size.resolve(gctx) {
        Ok(IndexableLength::Known(count)) => count,
        Ok(IndexableLength::Dynamic) | Err(_) => 1,
    }
}

/// Returns the size of an array, or `None` if it is above [`MAX_TYPE_SIZE`].
fn size_of_array(count: u32, stride: u32) -> Option<u32>
    ensures { result ≡ bounded count stride }
{
    let size = u64::from(count) * u64::from(stride);
    if size <= u64::from(MAX_TYPE_SIZE) {
        Some(size as u32)
    } else {
        None
    }
}

/// Returns the distance from a column of a matrix to the next one.
fn column_stride(rows: VectorSize, width: Bytes) -> u32
    ensures value { result ≡ 2 ^ alignment_of_size rows * width }
    ensures bound { result < 2 ^ 10 }
{
    match rows {
        VectorSize::Bi => 2 * u32::from(width),
        VectorSize::Tri | VectorSize::Quad => 4 * u32::from(width),
    }
}

/// Returns a product with the number of components of a vector, or of columns of a matrix.
fn repeated(size: VectorSize, part: u32) -> u32
    requires { part < 2 ^ 10 }
    ensures { result ≡ components_of size * part }
{
    match size {
        VectorSize::Bi => 2 * part,
        VectorSize::Tri => 3 * part,
        VectorSize::Quad => 4 * part,
    }
}

/// Returns a product with the number of columns or rows of a cooperative matrix.
fn beside(size: CooperativeSize, part: u32) -> u32
    requires { part < 2 ^ 16 }
    ensures value { result ≡ side_of size * part }
    ensures bound { result ≤ 16 * part }
{
    match size {
        CooperativeSize::Eight => 8 * part,
        CooperativeSize::Sixteen => 16 * part,
    }
}

/// Returns the size of the values of a type, in bytes, or `None` if the type is an array whose size is above
/// [`MAX_TYPE_SIZE`].
///
/// An array whose length is known only when the shader runs, or whose override has no value, has one element. The types
/// of images, samplers, acceleration structures, ray queries and binding arrays have the size 0.
///
/// The caller must ensure that the override of the size of an array is in the context, and that the context is closed
/// over its global expressions; [`sizes_are_known`](crate::sizes_are_known) tests this for all types.
///
/// Differs from naga: it is a function, and not a method of the type. naga panics if these preconditions are not met.
pub fn try_size(inner: &TypeInner, gctx: GlobalCtx<'_>) -> Option<u32>
    requires known { IsKnownType gctx inner.now }
    requires closed { IsClosedOver gctx gctx.global_expressions.now }
    ensures { result ≡ size_of gctx.entry inner.now }
{
    match inner {
        TypeInner::Scalar(scalar) | TypeInner::Atomic(scalar) => Some(u32::from(scalar.width)),
        TypeInner::Vector { size, scalar } => Some(repeated(*size, u32::from(scalar.width))),
        TypeInner::Matrix {
            columns,
            rows,
            scalar,
        } => Some(repeated(*columns, column_stride(*rows, scalar.width))),
        TypeInner::CooperativeMatrix {
            columns,
            rows,
            scalar,
            ..
        } => Some(beside(*columns, beside(*rows, u32::from(scalar.width)))),
        TypeInner::Pointer { .. } | TypeInner::ValuePointer { .. } => Some(POINTER_SPAN),
        TypeInner::Array { size, stride, .. } => size_of_array(count_of(gctx, *size), *stride),
        TypeInner::Struct { span, .. } => Some(*span),
        _ => Some(0),
    }
}
