//! The layouts of the types of a module.
ghost use Rattle.std.specs.Prelude.{◌≡◌, ◌++◌, [], List, OnOk, IfErr, None, drop, length, option_copied, slice_get, vec_capacity, ◌≤◌, ◌<◌, ◌^◌};
ghost use Rattle.naga_arena.specs.Arena.{values};
ghost use Rattle.naga_ir.specs.Constant.{IsClosedOver};
ghost use Rattle.naga_layouter.specs.Alignment.{alignment_of_width, rounded_up};
ghost use Rattle.naga_layouter.specs.Layout.{IsKnownType, IsStopped, SizesAreKnown, alignment_of, alignment_of_base, alignment_of_members, laying, layout_of, scaled};
ghost use Rattle.naga_layouter.specs.declared.layouter.TypeLayout.{TypeLayout as Laid};

use crate::alignment::Alignment;
use crate::layout_error::{LayoutError, LayoutErrorInner};
use crate::size::try_size;
use naga_arena::Handle;
use naga_ir::{GlobalCtx, StructMember, Type, TypeInner};
use naga_kinds::Bytes;
use std::alloc::Global;
use std::marker::Model;

/// The size and the alignment of a type.
#[derive(Clone, Copy, Debug, PartialEq, Eq, Hash)]
pub struct TypeLayout {
    /// The size, in bytes.
    pub size: u32,
    /// The number of which the address of each value of the type is a multiple.
    pub alignment: Alignment,
}

impl TypeLayout {
    /// Returns the distance from one element to the next of an array whose elements have this layout: the size, rounded
    /// up to a multiple of the alignment.
    ///
    /// The caller must ensure that it is below `2 ^ 32`.
    ///
    /// Differs from naga: naga wraps, or panics in a debug build.
    pub fn to_stride(&self) -> u32
        requires { rounded_up self.now.alignment self.now.size < 2 ^ 32 }
        ensures { result ≡ rounded_up self.now.alignment self.now.size }
    {
        self.alignment.round_up(self.size)
    }
}

/// The layouts of the first types of a module.
///
/// In contracts, a layouter is the list of these layouts.
#[derive(Drop)]
pub struct Layouter {
    layouts: Vec<TypeLayout>,
}

impl Model for Layouter {
    ghost use Rattle.std.specs.Prelude.{List};
    ghost use Rattle.naga_layouter.specs.declared.layouter.TypeLayout.{TypeLayout as Laid};

    ghost Value = { List Laid };

    ghost view = { λ l. l.layouts.items };
}

impl Layouter {
    /// Creates a layouter without layouts. Nothing is allocated.
    pub fn new(alloc: Global) -> Self
        ensures { result ≡ [] }
    {
        Layouter {
            layouts: Vec::new(alloc),
        }
    }

    /// Removes all layouts. A module whose types changed needs this before the layouter is updated.
    pub fn clear(&mut self)
        ensures { self.new ≡ [] }
    {
        self.layouts.clear();
    }

    /// Returns the layout of a type, or `None` if the layouter has none.
    ///
    /// Differs from naga: naga indexes a layouter, and panics if it has no layout of the type.
    pub fn get(&self, handle: Handle<Type>) -> Option<&TypeLayout>
        ensures { option_copied result ≡ slice_get self.now handle }
    {
        self.layouts.get(handle.index())
    }

    /// Returns the layouts, in the order of the types.
    ///
    /// Differs from naga: naga has no such call.
    pub fn as_slice(&self) -> &[TypeLayout]
        ensures { result.now ≡ self.now }
    {
        self.layouts.as_slice()
    }

    /// Finds the layouts of the types of a context, from the first whose layout is not known to the last.
    ///
    /// Layouts that are known are not found again: if their types changed, they are still those of the older types, and
    /// [`clear`](Self::clear) is needed. The time is linear in the number of types and members.
    ///
    /// Returns `Err` for the first type that has no layout. The layouts of the types before it are then known, and
    /// updating again continues from there. Memory for all layouts is allocated first: if that fails, the error is
    /// [`LayoutErrorInner::Memory`], with the first type whose layout is not known, and nothing is changed.
    ///
    /// The caller must ensure that the overrides of the sizes of arrays are in the context, and that the context is
    /// closed over its global expressions; [`sizes_are_known`](crate::sizes_are_known) tests this.
    ///
    /// Differs from naga: naga panics if these preconditions are not met.
    pub fn update(&mut self, gctx: GlobalCtx<'_>) -> Result<(), LayoutError>
        requires { SizesAreKnown gctx }
        ensures kept { (found : List Laid) × (self.new ≡ self.old ++ found) }
        ensures continues { laying gctx.entry self.new (drop (length self.new) (values gctx.entry.types.now))
            ≡ laying gctx.entry self.old (drop (length self.old) (values gctx.entry.types.now)) }
        ensures all { OnOk result (laying gctx.entry self.old
            (drop (length self.old) (values gctx.entry.types.now)) ≡ (self.new, None)) }
        ensures stopped { IfErr result (λ error. IsStopped gctx.entry self.old
            (drop (length self.old) (values gctx.entry.types.now)) error self.new) }
    {
        let start = self.layouts.len();
        let end = gctx.types.len();
        if end <= start {
            return Ok(());
        }
        if self.layouts.reserve(end - start).is_err() {
            return Err(LayoutError {
                ty: Handle::<Type>::at(start),
                inner: LayoutErrorInner::Memory,
            });
        }
        lay(&mut self.layouts, gctx)
    }
}

/// Appends the layouts of the types of a context, from the first whose layout is not known, to a vector that has room.
fn lay(known: &mut Vec<TypeLayout>, gctx: GlobalCtx<'_>) -> Result<(), LayoutError>
    requires sized { SizesAreKnown gctx }
    requires room { length gctx.types.now ≤ vec_capacity known.old }
    ensures kept { (found : List Laid) × (known.new.items ≡ known.old.items ++ found) }
    ensures continues { laying gctx.entry known.new.items (drop (length known.new.items) (values gctx.entry.types.now))
        ≡ laying gctx.entry known.old.items (drop (length known.old.items) (values gctx.entry.types.now)) }
    ensures all { OnOk result (laying gctx.entry known.old.items
        (drop (length known.old.items) (values gctx.entry.types.now)) ≡ (known.new.items, None)) }
    ensures stopped { IfErr result (λ error. IsStopped gctx.entry known.old.items
        (drop (length known.old.items) (values gctx.entry.types.now)) error known.new.items) }
{
    let start = known.len();
    'each: for index in start..gctx.types.len() {
        let ty = Handle::<Type>::at(index);
        let layout = match layout_of(known.as_slice(), &gctx.types[ty].inner, gctx) {
            Ok(layout) => layout,
            Err(inner) => return Err(LayoutError { ty, inner }),
        };
        known.push_reserved(layout);
    }
    Ok(())
}

/// Returns the layout of a type, from the layouts of the types before it.
fn layout_of(
    known: &[TypeLayout],
    inner: &TypeInner,
    gctx: GlobalCtx<'_>,
) -> Result<TypeLayout, LayoutErrorInner>
    requires known { IsKnownType gctx inner.now }
    requires closed { IsClosedOver gctx gctx.global_expressions.now }
    ensures { result ≡ layout_of gctx.entry known.now inner.now }
{
    let Some(size) = try_size(inner, gctx) else {
        return Err(LayoutErrorInner::TooLarge);
    };
    match alignment_of(known, inner) {
        Ok(alignment) => Ok(TypeLayout { size, alignment }),
        Err(error) => Err(error),
    }
}

/// Returns the alignment of a type, from the layouts of the types before it.
fn alignment_of(known: &[TypeLayout], inner: &TypeInner) -> Result<Alignment, LayoutErrorInner>
    ensures { result ≡ alignment_of known.now inner.now }
{
    match inner {
        TypeInner::Scalar(scalar) | TypeInner::Atomic(scalar) => {
            scaled(Alignment::ONE, scalar.width)
        }
        TypeInner::Vector { size, scalar } => scaled(Alignment::from(*size), scalar.width),
        TypeInner::Matrix { rows, scalar, .. } => scaled(Alignment::from(*rows), scalar.width),
        TypeInner::CooperativeMatrix { rows, scalar, .. } => {
            scaled(Alignment::from(*rows), scalar.width)
        }
        TypeInner::Array { base, .. } => alignment_of_base(known, *base),
        TypeInner::Struct { members, .. } => alignment_of_members(known, members.as_slice()),
        _ => Ok(Alignment::ONE),
    }
}

/// Returns the alignment of scalars of a width, times a factor of at most 16.
fn scaled(factor: Alignment, width: Bytes) -> Result<Alignment, LayoutErrorInner>
    requires { factor ≤ 4 }
    ensures { result ≡ scaled factor (alignment_of_width width) }
{
    match Alignment::from_width(width) {
        Some(alignment) => Ok(factor * alignment),
        None => Err(LayoutErrorInner::NonPowerOfTwoWidth),
    }
}

/// Returns the alignment of the elements of an array.
fn alignment_of_base(
    known: &[TypeLayout],
    base: Handle<Type>,
) -> Result<Alignment, LayoutErrorInner>
    ensures { result ≡ alignment_of_base base (slice_get known.now base) }
{
    match known.get(base.index()) {
        Some(layout) => Ok(layout.alignment),
        None => Err(LayoutErrorInner::InvalidArrayElementType(base)),
    }
}

/// Returns the greatest alignment of the members of a structure.
fn alignment_of_members(
    known: &[TypeLayout],
    members: &[StructMember],
) -> Result<Alignment, LayoutErrorInner>
    ensures { result ≡ alignment_of_members known.now 0 0 members.now }
{
    let mut alignment = Alignment::ONE;
    'each: for (index, member) in members.iter().enumerate() {
        match known.get(member.ty.index()) {
            Some(layout) => alignment = alignment.greater(layout.alignment),
            None => return Err(LayoutErrorInner::InvalidStructMemberType(index, member.ty)),
        }
    }
    Ok(alignment)
}
