//! The rows of the table of types: the type of an expression, by the contents of the types of its operands.
ghost use Rattle.std.specs.Prelude.{◌≡◌, option_and_then};
ghost use Rattle.naga_typifier.specs.Context.{context_of};
ghost use Rattle.naga_typifier.specs.Rows.{accessed, cast, is_within, loaded, mapped, part_of, pointee, pointer_to, matrix_product, product, same_size, scalar_behind, scalar_in, sized, splatted, swizzled};
ghost use Rattle.naga_typifier.specs.Table.{cooperative};
ghost use Rattle.naga_kinds.specs.declared.scalar.TheConstants.Scalar.{BOOL};

use crate::context::ResolveContext;
use crate::resolution::TypeResolution;
use naga_arena::Handle;
use naga_ir::{
    AddressSpace, Bytes, CooperativeRole, CooperativeSize, Scalar, ScalarKind, Type, TypeInner,
    VectorSize,
};

/// Returns a scalar, or a vector of this size.
pub(crate) fn sized(size: Option<VectorSize>, scalar: Scalar) -> TypeInner
    ensures { result ≡ sized size scalar }
{
    match size {
        None => TypeInner::Scalar(scalar),
        Some(size) => TypeInner::Vector { size, scalar },
    }
}

/// Returns a boolean for each component, or `None` for what is neither a scalar nor a vector.
pub(crate) fn compared(inner: &TypeInner) -> Option<TypeResolution>
    ensures { result ≡ mapped (λ _. BOOL) inner.now }
{
    match inner {
        TypeInner::Scalar(_) => Some(TypeResolution::Value(TypeInner::Scalar(Scalar::BOOL))),
        TypeInner::Vector { size, .. } => Some(TypeResolution::Value(TypeInner::Vector {
            size: *size,
            scalar: Scalar::BOOL,
        })),
        _ => None,
    }
}

/// Returns a scalar of this kind, of the width to which it is converted or of its own width.
fn cast(kind: ScalarKind, convert: Option<Bytes>, scalar: Scalar) -> Scalar
    ensures { result ≡ cast kind convert scalar }
{
    Scalar {
        kind,
        width: convert.unwrap_or(scalar.width),
    }
}

/// Returns the type of a scalar or a vector whose components are converted, or `None` for any other type.
pub(crate) fn converted(
    kind: ScalarKind,
    convert: Option<Bytes>,
    inner: &TypeInner,
) -> Option<TypeResolution>
    ensures { result ≡ mapped (cast kind convert) inner.now }
{
    match inner {
        TypeInner::Scalar(scalar) => Some(TypeResolution::Value(TypeInner::Scalar(cast(
            kind, convert, *scalar,
        )))),
        TypeInner::Vector { size, scalar } => Some(TypeResolution::Value(TypeInner::Vector {
            size: *size,
            scalar: cast(kind, convert, *scalar),
        })),
        _ => None,
    }
}

/// Returns whether an index is less than a size, or not known.
#[inline(always)]
fn is_within(index: Option<u32>, size: VectorSize) -> bool
    ensures { result ≡ is_within index size }
{
    match index {
        None => true,
        Some(index) => index < u32::from(size),
    }
}

/// Returns the type of the part of a value at an index, which is `None` if it is computed.
#[inline(always)]
fn part_of(index: Option<u32>, inner: &TypeInner) -> Option<TypeResolution>
    ensures { result ≡ part_of index inner.now }
{
    match inner {
        TypeInner::Vector { size, scalar } => {
            if is_within(index, *size) {
                Some(TypeResolution::Value(TypeInner::Scalar(*scalar)))
            } else {
                None
            }
        }
        TypeInner::Matrix {
            columns,
            rows,
            scalar,
        } => {
            if is_within(index, *columns) {
                Some(TypeResolution::Value(TypeInner::Vector {
                    size: *rows,
                    scalar: *scalar,
                }))
            } else {
                None
            }
        }
        TypeInner::Array { base, .. } | TypeInner::BindingArray { base, .. } => {
            Some(TypeResolution::Handle(*base))
        }
        TypeInner::Struct { members, .. } => match index {
            Some(index) => match members.get(index as usize) {
                Some(member) => Some(TypeResolution::Handle(member.ty)),
                None => None,
            },
            None => None,
        },
        _ => None,
    }
}

/// Returns the type of a pointer to a part with this type.
#[inline(always)]
fn pointer_to(space: AddressSpace, part: &TypeResolution) -> Option<TypeResolution>
    ensures { result ≡ pointer_to space part.now }
{
    match part {
        TypeResolution::Handle(base) => Some(TypeResolution::Value(TypeInner::Pointer {
            base: *base,
            space,
        })),
        TypeResolution::Value(TypeInner::Scalar(scalar)) => {
            Some(TypeResolution::Value(TypeInner::ValuePointer {
                size: None,
                scalar: *scalar,
                space,
            }))
        }
        TypeResolution::Value(TypeInner::Vector { size, scalar }) => {
            Some(TypeResolution::Value(TypeInner::ValuePointer {
                size: Some(*size),
                scalar: *scalar,
                space,
            }))
        }
        _ => None,
    }
}

/// Returns the type of a part of a value, or of a pointer to a part of what a pointer points to.
#[inline(always)]
pub(crate) fn accessed(
    ctx: &ResolveContext<'_>,
    index: Option<u32>,
    inner: &TypeInner,
) -> Option<TypeResolution>
    ensures { result ≡ accessed (context_of ctx.now) index inner.now }
{
    match inner {
        TypeInner::Pointer { base, space } => {
            let part = part_of(index, ctx.inner(*base)?)?;
            pointer_to(*space, &part)
        }
        TypeInner::ValuePointer {
            size: Some(size),
            scalar,
            space,
        } => {
            let vector = TypeInner::Vector {
                size: *size,
                scalar: *scalar,
            };
            let part = part_of(index, &vector)?;
            pointer_to(*space, &part)
        }
        _ => part_of(index, inner),
    }
}

/// Returns the type of the value behind a pointer to a declared type with these contents.
fn pointee(base: Handle<Type>, inner: &TypeInner) -> TypeResolution
    ensures { result ≡ pointee base inner.now }
{
    match inner {
        TypeInner::Atomic(scalar) => TypeResolution::Value(TypeInner::Scalar(*scalar)),
        _ => TypeResolution::Handle(base),
    }
}

/// Returns the type of what is loaded through a pointer, or `None` for any other type.
pub(crate) fn loaded(ctx: &ResolveContext<'_>, inner: &TypeInner) -> Option<TypeResolution>
    ensures { result ≡ loaded (context_of ctx.now) inner.now }
{
    match inner {
        TypeInner::Pointer { base, .. } => {
            let behind = ctx.inner(*base)?;
            Some(pointee(*base, behind))
        }
        TypeInner::ValuePointer { size, scalar, .. } => {
            Some(TypeResolution::Value(sized(*size, *scalar)))
        }
        _ => None,
    }
}

/// Returns a vector of this size from a scalar, or `None` for any other type.
pub(crate) fn splatted(size: VectorSize, inner: &TypeInner) -> Option<TypeResolution>
    ensures { result ≡ splatted size inner.now }
{
    match inner {
        TypeInner::Scalar(scalar) => Some(TypeResolution::Value(TypeInner::Vector {
            size,
            scalar: *scalar,
        })),
        _ => None,
    }
}

/// Returns a vector of this size from a vector, or `None` for any other type.
pub(crate) fn swizzled(size: VectorSize, inner: &TypeInner) -> Option<TypeResolution>
    ensures { result ≡ swizzled size inner.now }
{
    match inner {
        TypeInner::Vector { scalar, .. } => Some(TypeResolution::Value(TypeInner::Vector {
            size,
            scalar: *scalar,
        })),
        _ => None,
    }
}

/// Returns whether two sizes are equal.
pub(crate) fn same_size(first: VectorSize, second: VectorSize) -> bool
    ensures { result ≡ same_size first second }
{
    u8::from(first) == u8::from(second)
}

/// Returns the type of the product of two values with these types and contents.
pub(crate) fn product(
    left: &TypeResolution,
    right: &TypeResolution,
    left_inner: &TypeInner,
    right_inner: &TypeInner,
) -> Option<TypeResolution>
    ensures { result ≡ product left.now right.now left_inner.now right_inner.now }
{
    match (left_inner, right_inner) {
        (TypeInner::Scalar(_), TypeInner::Scalar(_))
        | (TypeInner::Vector { .. } | TypeInner::Matrix { .. }, TypeInner::Scalar(_)) => {
            left.copied()
        }
        (TypeInner::Scalar(_), TypeInner::Vector { .. } | TypeInner::Matrix { .. }) => {
            right.copied()
        }
        (TypeInner::Vector { size, .. }, TypeInner::Vector { size: again, .. }) => {
            if same_size(*size, *again) {
                left.copied()
            } else {
                None
            }
        }
        _ => matrix_product(left_inner, right_inner),
    }
}

/// Returns the type of the product of two values with these contents, of which at least one is a matrix.
fn matrix_product(left: &TypeInner, right: &TypeInner) -> Option<TypeResolution>
    ensures { result ≡ matrix_product left.now right.now }
{
    let inner = match (left, right) {
        (
            TypeInner::Vector { size, .. },
            TypeInner::Matrix {
                columns,
                rows,
                scalar,
            },
        ) if same_size(*rows, *size) => TypeInner::Vector {
            size: *columns,
            scalar: *scalar,
        },
        (
            TypeInner::Matrix {
                columns,
                rows,
                scalar,
            },
            TypeInner::Vector { size, .. },
        ) if same_size(*columns, *size) => TypeInner::Vector {
            size: *rows,
            scalar: *scalar,
        },
        (
            TypeInner::Matrix {
                columns,
                rows,
                scalar,
            },
            TypeInner::Matrix {
                columns: others,
                rows: inside,
                ..
            },
        ) if same_size(*columns, *inside) => TypeInner::Matrix {
            columns: *others,
            rows: *rows,
            scalar: *scalar,
        },
        _ => return None,
    };
    Some(TypeResolution::Value(inner))
}

/// Returns the scalar of which a number, a vector or a matrix consists, or `None` for any other type.
pub(crate) fn scalar_in(inner: &TypeInner) -> Option<Scalar>
    ensures { result ≡ scalar_in inner.now }
{
    match inner {
        TypeInner::Scalar(scalar)
        | TypeInner::Vector { scalar, .. }
        | TypeInner::Matrix { scalar, .. } => Some(*scalar),
        _ => None,
    }
}

/// Returns the scalar behind a pointer, or `None` for any other type.
pub(crate) fn scalar_behind(ctx: &ResolveContext<'_>, inner: &TypeInner) -> Option<Scalar>
    ensures { result ≡ scalar_behind (context_of ctx.now) inner.now }
{
    match inner {
        TypeInner::Pointer { base, .. } => scalar_in(ctx.inner(*base)?),
        TypeInner::ValuePointer { scalar, .. } => Some(*scalar),
        _ => None,
    }
}

/// Returns the type of a cooperative matrix of the scalars behind a pointer, or `None` for any other type.
pub(crate) fn cooperative(
    ctx: &ResolveContext<'_>,
    columns: CooperativeSize,
    rows: CooperativeSize,
    role: CooperativeRole,
    inner: &TypeInner,
) -> Option<TypeResolution>
    ensures { result ≡ option_and_then (cooperative columns rows role)
        (scalar_behind (context_of ctx.now) inner.now) }
{
    let scalar = scalar_behind(ctx, inner)?;
    Some(TypeResolution::Value(TypeInner::CooperativeMatrix {
        columns,
        rows,
        scalar,
        role,
    }))
}
