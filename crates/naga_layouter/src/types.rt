//! Types whose values have no fixed size.
ghost use Rattle.std.specs.Prelude.{◌≡◌, option_copied};
ghost use Rattle.naga_layouter.specs.Types.{inner_at, inner_of_member, is_open, is_open_array, is_open_size, last_of};

use naga_arena::{Handle, UniqueArena};
use naga_ir::{ArraySize, StructMember, Type, TypeInner};

/// Returns the contents of a type, or `None` if the arena does not have it.
pub(crate) fn inner_at(types: &UniqueArena<Type>, handle: Handle<Type>) -> Option<&TypeInner>
    ensures { option_copied result ≡ inner_at types.now handle }
{
    match types.get_handle(handle) {
        Ok(ty) => Some(&ty.inner),
        Err(_) => None,
    }
}

/// Returns whether the number of elements of an array is known only once the pipeline is created, or the shader runs.
fn is_open_size(size: ArraySize) -> bool
    ensures { result ≡ is_open_size size }
{
    match size {
        ArraySize::Constant(_) => false,
        ArraySize::Pending(_) | ArraySize::Dynamic => true,
    }
}

/// Returns whether a type is an array with such a number of elements.
pub(crate) fn is_open_array(types: &UniqueArena<Type>, handle: Handle<Type>) -> bool
    ensures { result ≡ is_open_array (inner_at types.now handle) }
{
    match inner_at(types, handle) {
        Some(TypeInner::Array { size, .. }) => is_open_size(*size),
        _ => false,
    }
}

/// Returns whether the last member of a structure is such an array.
fn ends_open(types: &UniqueArena<Type>, members: &[StructMember]) -> bool
    ensures { result ≡ is_open_array (inner_of_member types.now (last_of members.now)) }
{
    match members.last() {
        Some(member) => is_open_array(types, member.ty),
        None => false,
    }
}

/// Returns whether a type is such an array, or a structure whose last member is one.
pub(crate) fn is_open(types: &UniqueArena<Type>, handle: Handle<Type>) -> bool
    ensures { result ≡ is_open types.now (inner_at types.now handle) }
{
    match inner_at(types, handle) {
        Some(TypeInner::Struct { members, .. }) => ends_open(types, members.as_slice()),
        _ => is_open_array(types, handle),
    }
}
