//! Telling which types of a module are abstract.
ghost use Rattle.std.specs.Prelude.{◌≡◌, length};
ghost use Rattle.naga_ir.specs.MeshOutput.{inner_of};
ghost use Rattle.naga_compact.specs.Module.AbstractTypes.{array_base, has_abstract_kind, innermost, is_abstract, is_abstract_kind};

use naga_arena::{Handle, UniqueArena};
use naga_ir::{ScalarKind, Type, TypeInner};

/// Returns whether a type is a scalar, vector or matrix of an abstract kind, or an array whose base is abstract.
///
/// Goes from array to base, at most as often as there are types. A type that is not in the arena is not abstract, and
/// neither is an array that contains itself.
pub(super) fn is_abstract(types: &UniqueArena<Type>, ty: Handle<Type>) -> bool
    ensures { result ≡ is_abstract types.now ty }
{
    has_abstract_kind(types, innermost(types, ty))
}

/// Returns the type that is reached by going from an array to its base, at most as often as there are types.
fn innermost(types: &UniqueArena<Type>, ty: Handle<Type>) -> Handle<Type>
    ensures { result ≡ innermost (length types.now) types.now ty }
{
    let mut reached = ty;
    'steps: for _ in 0..types.len() {
        match array_base(types, reached) {
            Some(base) => reached = base,
            None => return reached,
        }
    }
    reached
}

/// Returns the base of an array, and `None` for any other type and for one that is not in the arena.
fn array_base(types: &UniqueArena<Type>, ty: Handle<Type>) -> Option<Handle<Type>>
    ensures { result ≡ array_base (inner_of types.now ty) }
{
    match types.get_handle(ty) {
        Ok(
            Type {
                inner: TypeInner::Array { base, .. },
                ..
            },
        ) => Some(*base),
        _ => None,
    }
}

/// Returns whether a type is a scalar, vector or matrix of an abstract kind.
fn has_abstract_kind(types: &UniqueArena<Type>, ty: Handle<Type>) -> bool
    ensures { result ≡ has_abstract_kind (inner_of types.now ty) }
{
    let Ok(found) = types.get_handle(ty) else {
        return false;
    };
    match &found.inner {
        TypeInner::Scalar(scalar) => is_abstract_kind(scalar.kind),
        TypeInner::Vector { scalar, .. } => is_abstract_kind(scalar.kind),
        TypeInner::Matrix { scalar, .. } => is_abstract_kind(scalar.kind),
        _ => false,
    }
}

/// Returns whether a kind is abstract.
fn is_abstract_kind(kind: ScalarKind) -> bool
    ensures { result ≡ is_abstract_kind kind }
{
    match kind {
        ScalarKind::AbstractInt | ScalarKind::AbstractFloat => true,
        _ => false,
    }
}
