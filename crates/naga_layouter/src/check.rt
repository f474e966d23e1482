//! The check of the layouts of a module.
ghost use Rattle.std.specs.Prelude.{◌≡◌, ◌<◌, [], List, None, MatchResult};
ghost use Rattle.naga_arena.specs.Arena.{values};
ghost use Rattle.naga_arena.specs.declared.span.Span.{Span};
ghost use Rattle.naga_ir.specs.declared.module.GlobalVariable.{GlobalVariable};
ghost use Rattle.naga_valid.specs.Valid.{HandlesAreValid};
ghost use Rattle.naga_layouter.specs.Check.{FirstFaultIs, IsFaultOf, IsInvalid, invalid_of, is_memory, layout_fault, member_of};
ghost use Rattle.naga_layouter.specs.Layout.{SizesAreKnown, laying};
ghost use Rattle.naga_layouter.specs.Spaces.{all_space_faults, variables_fault};

use crate::faults::types_fault;
use crate::laws::valid_modules_have_known_sizes;
use crate::layout_error::{LayoutError, LayoutErrorInner};
use crate::layout_fault::{InvalidLayouts, LayoutCause, LayoutFault};
use crate::layouter::Layouter;
use crate::spaces::{all_space_faults, variables_fault};
use naga_arena::{Arena, UniqueArena};
use naga_ir::{GlobalCtx, GlobalVariable, Module, Type};
use std::alloc::Global;

/// Checks that the layout of each type of a module fits those of its parts, and that the type of each variable in a
/// space that the host shares fits the space.
///
/// - The offset of a member is a multiple of its alignment, and each member begins at or after the end of the one before.
///   The last member ends at or before the end of the structure. The size of the structure is a multiple of its
///   alignment.
/// - The stride of an array is a multiple of the alignment of its elements, and not less than their size.
/// - The elements of an array have a fixed size, and so has a member, unless it is an array in the last place. An array
///   has a fixed size if the number of its elements is written in the shader, and a structure if its last member has.
/// - What variables in storage, in uniform buffers and in immediates have is made of integers and floats.
/// - In uniform buffers, strides are multiples of 16, members that are arrays or structures are at multiples of 16, and
///   the member after a structure begins at or after the next multiple of 16 behind it.
///
/// Returns the first fault: of a type that has no layout, or else of a type in the order of the types, or else of the
/// type of a variable in the order of the variables. Returns [`InvalidLayouts::Memory`] if allocation fails. The time is
/// linear in the number of types, members and variables.
///
/// The caller must ensure that the handles of the module are valid; [`check_handles`](naga_valid::check_handles) tests
/// this.
///
/// Differs from naga: this is a part of the validator, which accepts structures whose members overlap at the offset 0 if
/// no buffer has them, and members whose number of elements is an override.
pub fn check_layouts(alloc: Global, module: &Module) -> Result<(), InvalidLayouts>
    requires { HandlesAreValid «module».now }
    ensures { MatchResult result (λ _. FirstFaultIs «module».now None) (IsInvalid «module».now) }
{
    let gctx = module.to_ctx();
    valid_modules_have_known_sizes(module, gctx);
    check_parts(alloc, gctx, &module.global_variables)
}

/// Checks the layouts of the types of a context, and of variables.
fn check_parts(
    alloc: Global,
    gctx: GlobalCtx<'_>,
    variables: &Arena<GlobalVariable>,
) -> Result<(), InvalidLayouts>
    requires { SizesAreKnown gctx }
    ensures { MatchResult result (λ _. layout_fault gctx.entry variables.now ≡ None)
        (λ invalid. IsFaultOf (layout_fault gctx.entry variables.now) invalid) }
{
    let layouter = match lay_all(alloc, gctx) {
        Ok(layouter) => layouter,
        Err(invalid) => return Err(invalid),
    };
    if let Some(fault) = types_fault(gctx.types, layouter.as_slice()) {
        return Err(InvalidLayouts::Fault(fault));
    }
    check_variables(alloc, gctx.types, variables)
}

/// Returns the layouts of all types of a context, or the error of the first that has none.
fn lay_all(alloc: Global, gctx: GlobalCtx<'_>) -> Result<Layouter, InvalidLayouts>
    requires { SizesAreKnown gctx }
    ensures { MatchResult result
        (λ known. laying gctx.entry [] (values gctx.entry.types.now) ≡ (known, None))
        (λ invalid. (variables : List (GlobalVariable × Span)) → IsFaultOf (layout_fault gctx.entry variables) invalid) }
{
    let mut layouter = Layouter::new(alloc);
    match layouter.update(gctx) {
        Ok(()) => Ok(layouter),
        Err(error) => Err(invalid_of(error)),
    }
}

/// Checks the types of variables in their spaces.
fn check_variables(
    alloc: Global,
    types: &UniqueArena<Type>,
    variables: &Arena<GlobalVariable>,
) -> Result<(), InvalidLayouts>
    ensures { MatchResult result
        (λ _. variables_fault (all_space_faults types.now [] (values types.now)) (values variables.now) ≡ None)
        (λ invalid. IsFaultOf (variables_fault (all_space_faults types.now [] (values types.now)) (values variables.now)) invalid) }
{
    let Ok(faults) = all_space_faults(alloc, types) else {
        return Err(InvalidLayouts::Memory);
    };
    if let Some(fault) = variables_fault(faults.as_slice(), variables) {
        return Err(InvalidLayouts::Fault(fault));
    }
    Ok(())
}

/// Returns whether an allocation failed.
fn is_memory(inner: &LayoutErrorInner) -> bool
    ensures { result ≡ is_memory inner.now }
{
    matches!(inner, LayoutErrorInner::Memory)
}

/// Returns the error by which the check fails if a type has no layout.
fn invalid_of(error: LayoutError) -> InvalidLayouts
    ensures { result ≡ invalid_of error }
{
    if is_memory(&error.inner) {
        return InvalidLayouts::Memory;
    }
    InvalidLayouts::Fault(LayoutFault {
        ty: error.ty,
        member: member_of(error.inner),
        cause: LayoutCause::NoLayout(error.inner),
    })
}

/// Returns the index of the member that an error is about, if it is about one.
fn member_of(inner: LayoutErrorInner) -> Option<usize>
    ensures { result ≡ member_of inner }
{
    match inner {
        LayoutErrorInner::InvalidStructMemberType(index, _) => Some(index),
        _ => None,
    }
}
