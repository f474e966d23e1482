//! Why values of a type cannot be in a space that the host shares, or in a uniform buffer.
ghost use Rattle.std.specs.Prelude.{◌≡◌, ◌+◌, ◌<◌, ◌^◌, [], IfOk, length};
ghost use Rattle.naga_arena.specs.Arena.{values};
ghost use Rattle.naga_layouter.specs.Alignment.{rounded_up};
ghost use Rattle.naga_layouter.specs.Spaces.{all_space_faults, fault_in, faults_at, is_block, is_shareable, least_after, scalar_fault, shared_fault, shared_members_fault, uniform_fault, uniform_members_fault, uniform_offset_cause, uniform_stride_cause, unshareable, variables_fault};
ghost use Rattle.naga_layouter.specs.Faults.{fault_by};
ghost use Rattle.std.specs.Prelude.{None, Some};
ghost use Rattle.std.specs.Option.{option_or};
ghost use Rattle.naga_layouter.specs.Types.{inner_at};

use crate::alignment::Alignment;
use crate::faults::fault_by;
use crate::layout_fault::{LayoutCause, LayoutFault};
use crate::types::inner_at;
use naga_arena::{Arena, Handle, UniqueArena};
use naga_ir::{GlobalVariable, StructMember, Type, TypeInner};
use naga_kinds::{AddressSpace, Scalar, ScalarKind};
use std::alloc::{AllocError, Global};

/// Why values of a type cannot be in a space.
#[derive(Clone, Copy)]
pub(crate) struct SpaceFaults {
    /// Why the host has no values of the type.
    pub(crate) shared: Option<LayoutFault>,
    /// What is wrong with the type in a uniform buffer.
    pub(crate) uniform: Option<LayoutFault>,
}

/// Returns the faults of a type, or none if they are not known.
fn faults_at(known: &[SpaceFaults], handle: Handle<Type>) -> SpaceFaults
    ensures { result ≡ faults_at known.now handle }
{
    match known.get(handle.index()) {
        Some(faults) => *faults,
        None => SpaceFaults {
            shared: None,
            uniform: None,
        },
    }
}

/// Returns why the host has no values of a type whose faults are known.
fn shared_at(known: &[SpaceFaults], handle: Handle<Type>) -> Option<LayoutFault>
    ensures { result ≡ (faults_at known.now handle).shared }
{
    faults_at(known, handle).shared
}

/// Returns the fault in a uniform buffer of a type whose faults are known.
fn uniform_at(known: &[SpaceFaults], handle: Handle<Type>) -> Option<LayoutFault>
    ensures { result ≡ (faults_at known.now handle).uniform }
{
    faults_at(known, handle).uniform
}

/// Returns whether the host has values of this kind.
fn is_shareable(kind: ScalarKind) -> bool
    ensures { result ≡ is_shareable kind }
{
    matches!(
        kind,
        ScalarKind::Sint | ScalarKind::Uint | ScalarKind::Float
    )
}

/// Returns the fault of a type of which the host has no values.
fn unshareable(ty: Handle<Type>) -> Option<LayoutFault>
    ensures { result ≡ unshareable ty }
{
    Some(LayoutFault {
        ty,
        member: None,
        cause: LayoutCause::NonHostShareable,
    })
}

/// Returns why the host has no values of a type that consists of these scalars.
fn scalar_fault(ty: Handle<Type>, scalar: Scalar) -> Option<LayoutFault>
    ensures { result ≡ scalar_fault ty scalar }
{
    if is_shareable(scalar.kind) {
        None
    } else {
        unshareable(ty)
    }
}

/// Returns the first fault of the types of members.
fn shared_members_fault(known: &[SpaceFaults], members: &[StructMember]) -> Option<LayoutFault>
    ensures { result ≡ shared_members_fault known.now members.now }
{
    'each: for index in 0..members.len() {
        let member = &members[index];
        if let Some(fault) = shared_at(known, member.ty) {
            return Some(fault);
        }
    }
    None
}

/// Returns why the host has no values of a type, from the faults of the types before it.
fn shared_fault(known: &[SpaceFaults], ty: Handle<Type>, inner: &TypeInner) -> Option<LayoutFault>
    ensures { result ≡ shared_fault known.now ty inner.now }
{
    match inner {
        TypeInner::Scalar(scalar)
        | TypeInner::Atomic(scalar)
        | TypeInner::Vector { scalar, .. }
        | TypeInner::Matrix { scalar, .. }
        | TypeInner::CooperativeMatrix { scalar, .. } => scalar_fault(ty, *scalar),
        TypeInner::Array { base, .. } | TypeInner::BindingArray { base, .. } => {
            shared_at(known, *base)
        }
        TypeInner::Struct { members, .. } => shared_members_fault(known, members.as_slice()),
        _ => unshareable(ty),
    }
}

/// Returns whether a type is an array or a structure.
fn is_block(types: &UniqueArena<Type>, handle: Handle<Type>) -> bool
    ensures { result ≡ is_block (inner_at types.now handle) }
{
    matches!(
        inner_at(types, handle),
        Some(TypeInner::Array { .. } | TypeInner::Struct { .. })
    )
}

/// Returns the next multiple of 16 at or after a number.
fn rounded_up(n: u32) -> u64
    ensures value { result ≡ rounded_up 4 n }
    ensures bound { result < 2 ^ 33 }
{
    u64::from(n).div_ceil(16) * 16
}

/// Returns the least offset of the member after one with this type and offset, in a uniform buffer.
fn least_after(types: &UniqueArena<Type>, handle: Handle<Type>, offset: u32) -> u64
    ensures { result ≡ least_after (inner_at types.now handle) offset }
{
    match inner_at(types, handle) {
        Some(TypeInner::Struct { span, .. }) => u64::from(offset) + rounded_up(*span),
        _ => 0,
    }
}

/// Returns what is wrong with the stride of an array in a uniform buffer, if anything.
fn uniform_stride_cause(stride: u32) -> Option<LayoutCause>
    ensures { result ≡ uniform_stride_cause stride }
{
    if Alignment::MIN_UNIFORM.is_aligned(stride) {
        None
    } else {
        Some(LayoutCause::UniformStride { stride })
    }
}

/// Returns what is wrong with the offset of a member with this type in a uniform buffer, if anything.
fn uniform_offset_cause(
    types: &UniqueArena<Type>,
    member: &StructMember,
    least: u64,
) -> Option<LayoutCause>
    ensures { result ≡ uniform_offset_cause (inner_at types.now member.now.ty) least member.now.offset }
{
    let offset = member.offset;
    if is_block(types, member.ty) && !Alignment::MIN_UNIFORM.is_aligned(offset) {
        return Some(LayoutCause::UniformOffset { offset });
    }
    if u64::from(offset) < least {
        return Some(LayoutCause::MemberOffsetAfterStruct {
            offset,
            expected: least,
        });
    }
    None
}

/// Returns the fault of the type of a member in a uniform buffer, or else of its offset.
fn uniform_member_fault(
    types: &UniqueArena<Type>,
    known: &[SpaceFaults],
    ty: Handle<Type>,
    index: usize,
    least: u64,
    member: &StructMember,
) -> Option<LayoutFault>
    ensures { result ≡ option_or (faults_at known.now member.now.ty).uniform (fault_by ty (Some index)
        (uniform_offset_cause (inner_at types.now member.now.ty) least member.now.offset)) }
{
    match uniform_at(known, member.ty) {
        Some(fault) => Some(fault),
        None => fault_by(ty, Some(index), uniform_offset_cause(types, member, least)),
    }
}

/// Returns the first fault of the members of a structure in a uniform buffer.
fn uniform_members_fault(
    types: &UniqueArena<Type>,
    known: &[SpaceFaults],
    ty: Handle<Type>,
    members: &[StructMember],
) -> Option<LayoutFault>
    ensures { result ≡ uniform_members_fault types.now known.now ty 0 0 members.now }
{
    let mut least: u64 = 0;
    'each: for index in 0..members.len() {
        let member = &members[index];
        if let Some(fault) = uniform_member_fault(types, known, ty, index, least, member) {
            return Some(fault);
        }
        least = least_after(types, member.ty, member.offset);
    }
    None
}

/// Returns the first fault of an array in a uniform buffer.
fn uniform_array_fault(
    known: &[SpaceFaults],
    ty: Handle<Type>,
    base: Handle<Type>,
    stride: u32,
) -> Option<LayoutFault>
    ensures { result ≡ option_or (faults_at known.now base).uniform
        (fault_by ty None (uniform_stride_cause stride)) }
{
    match uniform_at(known, base) {
        Some(fault) => Some(fault),
        None => fault_by(ty, None, uniform_stride_cause(stride)),
    }
}

/// Returns why values of a type cannot be in a uniform buffer, from the faults of the types before it.
fn uniform_fault(
    types: &UniqueArena<Type>,
    known: &[SpaceFaults],
    ty: Handle<Type>,
    inner: &TypeInner,
) -> Option<LayoutFault>
    ensures { result ≡ uniform_fault types.now known.now ty inner.now }
{
    match inner {
        TypeInner::Array { base, stride, .. } => uniform_array_fault(known, ty, *base, *stride),
        TypeInner::BindingArray { base, .. } => uniform_at(known, *base),
        TypeInner::Struct { members, .. } => {
            uniform_members_fault(types, known, ty, members.as_slice())
        }
        _ => None,
    }
}

/// Returns the faults of the types of an arena in spaces, in the order of the types, or `Err` if allocation fails.
pub(crate) fn all_space_faults(
    alloc: Global,
    types: &UniqueArena<Type>,
) -> Result<Vec<SpaceFaults>, AllocError>
    ensures { IfOk result (λ faults. faults.items ≡ all_space_faults types.now [] (values types.now)) }
{
    let mut known: Vec<SpaceFaults> = Vec::with_capacity(alloc, types.len())?;
    'each: for index in 0..types.len() {
        let ty = Handle::<Type>::at(index);
        let inner = &types[ty].inner;
        let faults = SpaceFaults {
            shared: shared_fault(known.as_slice(), ty, inner),
            uniform: uniform_fault(types, known.as_slice(), ty, inner),
        };
        known.push_reserved(faults);
    }
    Ok(known)
}

/// Returns why a type with these faults does not fit a space.
fn fault_in(space: AddressSpace, faults: SpaceFaults) -> Option<LayoutFault>
    ensures { result ≡ fault_in space faults }
{
    match space {
        AddressSpace::Storage { .. } | AddressSpace::Immediate => faults.shared,
        AddressSpace::Uniform => match faults.shared {
            Some(fault) => Some(fault),
            None => faults.uniform,
        },
        _ => None,
    }
}

/// Returns the first fault of the types of variables in their spaces.
pub(crate) fn variables_fault(
    known: &[SpaceFaults],
    variables: &Arena<GlobalVariable>,
) -> Option<LayoutFault>
    ensures { result ≡ variables_fault known.now (values variables.now) }
{
    'each: for index in 0..variables.len() {
        let variable = &variables[Handle::<GlobalVariable>::at(index)];
        if let Some(fault) = fault_in(variable.space, faults_at(known, variable.ty)) {
            return Some(fault);
        }
    }
    None
}
