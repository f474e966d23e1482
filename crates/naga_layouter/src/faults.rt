//! Why the layout of a type does not fit those of its parts.
ghost use Rattle.std.specs.Prelude.{◌≡◌, ◌+◌, ◌^◌, ◌%◌, ◌==◌, ◌≤◌, ◌<◌, length};
ghost use Rattle.std.specs.Prelude.{None, IfNone};
ghost use Rattle.std.specs.Option.{option_or};
ghost use Rattle.naga_arena.specs.Arena.{values};
ghost use Rattle.naga_layouter.specs.Faults.{array_cause, fault_by, is_misplaced, layout_at, member_cause, members_fault, place_cause, span_cause, stride_cause, type_fault, types_fault};

use crate::alignment::Alignment;
use crate::layout_fault::{LayoutCause, LayoutFault};
use crate::layouter::TypeLayout;
use crate::types::{is_open, is_open_array};
use naga_arena::{Handle, UniqueArena};
use naga_ir::{StructMember, Type, TypeInner};

/// Returns the fault of a type or of its member, if there is a cause.
pub(crate) fn fault_by(
    ty: Handle<Type>,
    member: Option<usize>,
    cause: Option<LayoutCause>,
) -> Option<LayoutFault>
    ensures { result ≡ fault_by ty member cause }
{
    match cause {
        Some(cause) => Some(LayoutFault { ty, member, cause }),
        None => None,
    }
}

/// Returns the layout of a type, or that of nothing if it is not known.
fn layout_at(known: &[TypeLayout], handle: Handle<Type>) -> TypeLayout
    ensures { result ≡ layout_at known.now handle }
{
    match known.get(handle.index()) {
        Some(layout) => *layout,
        None => TypeLayout {
            size: 0,
            alignment: Alignment::ONE,
        },
    }
}

/// Returns what is wrong with an array whose elements have this layout, if anything.
fn stride_cause(layout: TypeLayout, stride: u32) -> Option<LayoutCause>
    ensures { result ≡ stride_cause layout stride }
{
    let TypeLayout { size, alignment } = layout;
    if !alignment.is_aligned(stride) {
        return Some(LayoutCause::ArrayStride { stride, alignment });
    }
    if stride < size {
        return Some(LayoutCause::InvalidArrayStride {
            stride,
            expected: size,
        });
    }
    None
}

/// Returns what is wrong with an array, if anything.
fn array_cause(
    types: &UniqueArena<Type>,
    known: &[TypeLayout],
    base: Handle<Type>,
    stride: u32,
) -> Option<LayoutCause>
    ensures { result ≡ array_cause types.now known.now base stride }
{
    if is_open(types, base) {
        return Some(LayoutCause::InvalidArrayBaseType);
    }
    stride_cause(layout_at(known, base), stride)
}

/// Returns whether a member has no fixed size, and is not an array in the last place.
fn is_misplaced(types: &UniqueArena<Type>, is_last: bool, member: &StructMember) -> bool
    ensures { result ≡ is_misplaced types.now is_last member.now }
{
    is_open(types, member.ty) && !(is_last && is_open_array(types, member.ty))
}

/// Returns what is wrong with the place of a member with this layout, if anything, where the members before end at
/// `start`.
fn place_cause(layout: TypeLayout, start: u32, span: u32, offset: u32) -> Option<LayoutCause>
    ensures cause { result ≡ place_cause layout start span offset }
    ensures within { IfNone result (offset + layout.size ≤ span) }
{
    let TypeLayout { size, alignment } = layout;
    if !alignment.is_aligned(offset) {
        return Some(LayoutCause::MemberOffset { offset, alignment });
    }
    if offset < start {
        return Some(LayoutCause::MemberOverlap {
            offset,
            expected: start,
        });
    }
    if u64::from(span) < u64::from(offset) + u64::from(size) {
        return Some(LayoutCause::MemberOutOfBounds { offset, size, span });
    }
    None
}

/// Returns what is wrong with a member, if anything, where the members before end at `start`.
fn member_cause(
    types: &UniqueArena<Type>,
    known: &[TypeLayout],
    start: u32,
    span: u32,
    is_last: bool,
    member: &StructMember,
) -> Option<LayoutCause>
    ensures cause { result ≡ member_cause types.now known.now start span is_last member.now }
    ensures within { IfNone result (member.now.offset + (layout_at known.now member.now.ty).size ≤ span) }
{
    if is_misplaced(types, is_last, member) {
        return Some(LayoutCause::UnsizedMember);
    }
    place_cause(layout_at(known, member.ty), start, span, member.offset)
}

/// Returns the first fault of the members of a structure.
fn members_fault(
    types: &UniqueArena<Type>,
    known: &[TypeLayout],
    ty: Handle<Type>,
    span: u32,
    members: &[StructMember],
) -> Option<LayoutFault>
    ensures { result ≡ members_fault types.now known.now ty span (length members.now) 0 0 members.now }
{
    let mut start: u32 = 0;
    let count = members.len();
    'each: for index in 0..count {
        let member = &members[index];
        let cause = member_cause(types, known, start, span, index + 1 == count, member);
        if let Some(cause) = cause {
            return Some(LayoutFault {
                ty,
                member: Some(index),
                cause,
            });
        }
        start = member.offset + layout_at(known, member.ty).size;
    }
    None
}

/// Returns what is wrong with the size of a structure with this layout, if anything.
fn span_cause(alignment: Alignment, span: u32) -> Option<LayoutCause>
    ensures { result ≡ span_cause alignment span }
{
    if alignment.is_aligned(span) {
        None
    } else {
        Some(LayoutCause::StructSpan { span, alignment })
    }
}

/// Returns the first fault of a structure.
fn struct_fault(
    types: &UniqueArena<Type>,
    known: &[TypeLayout],
    ty: Handle<Type>,
    span: u32,
    members: &[StructMember],
) -> Option<LayoutFault>
    ensures { result ≡ option_or (members_fault types.now known.now ty span (length members.now) 0 0 members.now)
        (fault_by ty None (span_cause (layout_at known.now ty).alignment span)) }
{
    match members_fault(types, known, ty, span, members) {
        Some(fault) => Some(fault),
        None => fault_by(ty, None, span_cause(layout_at(known, ty).alignment, span)),
    }
}

/// Returns the first fault of a type.
fn type_fault(
    types: &UniqueArena<Type>,
    known: &[TypeLayout],
    ty: Handle<Type>,
    inner: &TypeInner,
) -> Option<LayoutFault>
    ensures { result ≡ type_fault types.now known.now ty inner.now }
{
    match inner {
        TypeInner::Array { base, stride, .. } => {
            fault_by(ty, None, array_cause(types, known, *base, *stride))
        }
        TypeInner::Struct { members, span } => {
            struct_fault(types, known, ty, *span, members.as_slice())
        }
        _ => None,
    }
}

/// Returns the first fault of the types of an arena, which have these layouts.
pub(crate) fn types_fault(types: &UniqueArena<Type>, known: &[TypeLayout]) -> Option<LayoutFault>
    ensures { result ≡ types_fault types.now known.now 0 (values types.now) }
{
    'each: for index in 0..types.len() {
        let ty = Handle::<Type>::at(index);
        if let Some(fault) = type_fault(types, known, ty, &types[ty].inner) {
            return Some(fault);
        }
    }
    None
}
