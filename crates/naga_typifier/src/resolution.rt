//! The type of an expression.
ghost use Rattle.std.specs.Prelude.{◌≡◌, Some, IsSome, option_copied};
ghost use Rattle.naga_typifier.specs.Context.{contents_of, inner_at};
ghost use Rattle.naga_typifier.specs.Rows.{copied};

use naga_arena::{Handle, UniqueArena};
use naga_ir::{Type, TypeInner};

/// The type of an expression.
///
/// The type of an expression need not be in the arena of types. For example, the type of a sum can be a vector that no
/// declaration uses.
#[derive(Debug, PartialEq, Drop)]
pub enum TypeResolution {
    /// A type that the module declares.
    Handle(Handle<Type>),
    /// A type that the module need not declare. For an expression, it is a scalar, a vector, a matrix, a cooperative
    /// matrix or a pointer.
    Value(TypeInner),
}

impl TypeResolution {
    /// Returns the contents of the type.
    ///
    /// The caller must ensure that a [`Handle`](Self::Handle) is in `types`, which [`get_inner`](Self::get_inner)
    /// tests.
    pub fn inner_with<'a>(&'a self, types: &'a UniqueArena<Type>) -> &'a TypeInner
        requires { IsSome (contents_of (inner_at types.now) self.now) }
        ensures { Some result.now ≡ contents_of (inner_at types.now) self.now }
    {
        match self {
            TypeResolution::Handle(handle) => &types[*handle].inner,
            TypeResolution::Value(inner) => inner,
        }
    }

    /// Returns the contents of the type, or `None` if it is a [`Handle`](Self::Handle) that is not in `types`.
    pub fn get_inner<'a>(&'a self, types: &'a UniqueArena<Type>) -> Option<&'a TypeInner>
        ensures { option_copied result ≡ contents_of (inner_at types.now) self.now }
    {
        match self {
            TypeResolution::Handle(handle) => inner_at(types, *handle),
            TypeResolution::Value(inner) => Some(inner),
        }
    }

    /// Returns a copy of the type, without an allocation.
    ///
    /// Returns `None` for a [`Value`](Self::Value) that no expression has as its type, such as a structure.
    pub fn copied(&self) -> Option<TypeResolution>
        ensures { result ≡ copied self.now }
    {
        match self {
            TypeResolution::Handle(ty) => Some(TypeResolution::Handle(*ty)),
            TypeResolution::Value(inner) => copied_inner(inner),
        }
    }
}

/// Returns the contents of the type with this handle, or `None` if the arena has no such type.
pub(crate) fn inner_at(types: &UniqueArena<Type>, handle: Handle<Type>) -> Option<&TypeInner>
    ensures { option_copied result ≡ inner_at types.now handle }
{
    match types.get_handle(handle) {
        Ok(declared) => Some(&declared.inner),
        Err(_) => None,
    }
}

/// Returns a copy of a type that need not be declared, or `None` for the contents of any other type.
fn copied_inner(inner: &TypeInner) -> Option<TypeResolution>
    ensures { result ≡ copied (TypeResolution.Value inner.now) }
{
    let inner = match inner {
        TypeInner::Scalar(scalar) => TypeInner::Scalar(*scalar),
        TypeInner::Vector { size, scalar } => TypeInner::Vector {
            size: *size,
            scalar: *scalar,
        },
        TypeInner::Matrix {
            columns,
            rows,
            scalar,
        } => TypeInner::Matrix {
            columns: *columns,
            rows: *rows,
            scalar: *scalar,
        },
        TypeInner::CooperativeMatrix {
            columns,
            rows,
            scalar,
            role,
        } => TypeInner::CooperativeMatrix {
            columns: *columns,
            rows: *rows,
            scalar: *scalar,
            role: *role,
        },
        TypeInner::Pointer { base, space } => TypeInner::Pointer {
            base: *base,
            space: *space,
        },
        TypeInner::ValuePointer {
            size,
            scalar,
            space,
        } => TypeInner::ValuePointer {
            size: *size,
            scalar: *scalar,
            space: *space,
        },
        _ => return None,
    };
    Some(TypeResolution::Value(inner))
}
