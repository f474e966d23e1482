//! What requirements read from the contents of types.
ghost use Rattle.std.specs.Prelude.{◌≡◌, ◌||◌, is_some};
ghost use Rattle.std.specs.Option.{option_map};
ghost use Rattle.naga_typifier.specs.Rows.{handle, pointee, scalar_in, sized};
ghost use Rattle.naga_typing.specs.Kinds.{has_one_of};
ghost use Rattle.naga_typing.specs.declared.requirement.Scalars.TheVariants.{Numbers};
ghost use Rattle.naga_typing.specs.Requirements.{atomic_of, case_scalar, cooperative_columns, cooperative_rows, coordinate_size, dimension_of, is_acceleration_structure, is_ray_payload, is_ray_query, is_vertex_query, is_work_group, layers_of, points_into, scalar_in_cooperative, sized_type, stored_scalar, texel_scalar};

use crate::kinds::has_one_of;
use crate::requirement::Scalars;
use naga_arena::Handle;
use naga_ir::{
    AddressSpace, CooperativeSize, ImageClass, ImageDimension, Scalar, SwitchValue, Type,
    TypeInner, VectorSize,
};
use naga_typifier::TypeResolution;

/// Returns the type of a scalar, or of a vector of this size.
pub(crate) fn sized_type(size: Option<VectorSize>, scalar: Scalar) -> TypeResolution
    ensures { result ≡ sized_type size scalar }
{
    TypeResolution::Value(match size {
        None => TypeInner::Scalar(scalar),
        Some(size) => TypeInner::Vector { size, scalar },
    })
}

/// Returns the type of a scalar that may be absent, or of a vector of this size.
pub(crate) fn sized_type_of(
    size: Option<VectorSize>,
    scalar: Option<Scalar>,
) -> Option<TypeResolution>
    ensures { result ≡ option_map (sized_type size) scalar }
{
    match scalar {
        Some(scalar) => Some(sized_type(size, scalar)),
        None => None,
    }
}

/// Returns a declared type that may be absent.
pub(crate) fn handle_of(ty: Option<Handle<Type>>) -> Option<TypeResolution>
    ensures { result ≡ option_map handle ty }
{
    match ty {
        Some(ty) => Some(TypeResolution::Handle(ty)),
        None => None,
    }
}

/// Returns the scalar of the value of a case, or `None` for the default.
pub(crate) fn case_scalar(value: SwitchValue) -> Option<Scalar>
    ensures { result ≡ case_scalar value }
{
    match value {
        SwitchValue::I32(_) => Some(Scalar::I32),
        SwitchValue::U32(_) => Some(Scalar::U32),
        SwitchValue::Default => None,
    }
}

/// Returns the type of the value behind a pointer: the scalar of an atomic, and otherwise the base itself.
pub(crate) fn pointee(base: Handle<Type>, inner: &TypeInner) -> TypeResolution
    ensures { result ≡ pointee base inner.now }
{
    match inner {
        TypeInner::Atomic(scalar) => TypeResolution::Value(TypeInner::Scalar(*scalar)),
        _ => TypeResolution::Handle(base),
    }
}

/// Returns the scalar of a number, a vector or a matrix, or `None` for any other type.
pub(crate) fn scalar_in(inner: &TypeInner) -> Option<Scalar>
    ensures { result ≡ scalar_in inner.now }
{
    match inner {
        TypeInner::Scalar(scalar)
        | TypeInner::Vector { scalar, .. }
        | TypeInner::Matrix { scalar, .. } => Some(*scalar),
        _ => None,
    }
}

/// Returns the scalar of an atomic, or `None` for any other type.
pub(crate) fn atomic_of(inner: &TypeInner) -> Option<Scalar>
    ensures { result ≡ atomic_of inner.now }
{
    match inner {
        TypeInner::Atomic(scalar) => Some(*scalar),
        _ => None,
    }
}

/// Returns the scalar of a cooperative matrix, or `None` for any other type.
pub(crate) fn scalar_in_cooperative(inner: &TypeInner) -> Option<Scalar>
    ensures { result ≡ scalar_in_cooperative inner.now }
{
    match inner {
        TypeInner::CooperativeMatrix { scalar, .. } => Some(*scalar),
        _ => None,
    }
}

/// Returns whether this is a number, or a vector, a matrix or a cooperative matrix of numbers.
pub(crate) fn is_summand(inner: &TypeInner) -> bool
    ensures { result ≡ (has_one_of Numbers (scalar_in inner.now) || is_some (scalar_in_cooperative inner.now)) }
{
    has_one_of(Scalars::Numbers, scalar_in(inner)) || scalar_in_cooperative(inner).is_some()
}

/// Returns the number of columns of a cooperative matrix, or `None` for any other type.
pub(crate) fn cooperative_columns(inner: &TypeInner) -> Option<CooperativeSize>
    ensures { result ≡ cooperative_columns inner.now }
{
    match inner {
        TypeInner::CooperativeMatrix { columns, .. } => Some(*columns),
        _ => None,
    }
}

/// Returns the number of rows of a cooperative matrix, or `None` for any other type.
pub(crate) fn cooperative_rows(inner: &TypeInner) -> Option<CooperativeSize>
    ensures { result ≡ cooperative_rows inner.now }
{
    match inner {
        TypeInner::CooperativeMatrix { rows, .. } => Some(*rows),
        _ => None,
    }
}

/// Returns the dimension of an image, or `None` for any other type.
pub(crate) fn dimension_of(inner: &TypeInner) -> Option<ImageDimension>
    ensures { result ≡ dimension_of inner.now }
{
    match inner {
        TypeInner::Image { dim, .. } => Some(*dim),
        _ => None,
    }
}

/// Returns whether an image has array layers, or `None` for any other type.
pub(crate) fn layers_of(inner: &TypeInner) -> Option<bool>
    ensures { result ≡ layers_of inner.now }
{
    match inner {
        TypeInner::Image { arrayed, .. } => Some(*arrayed),
        _ => None,
    }
}

/// Returns the size of a coordinate, or `None` if it is a scalar.
pub(crate) fn coordinate_size(dim: ImageDimension) -> Option<VectorSize>
    ensures { result ≡ coordinate_size dim }
{
    match dim {
        ImageDimension::D1 => None,
        ImageDimension::D2 => Some(VectorSize::Bi),
        ImageDimension::D3 | ImageDimension::Cube => Some(VectorSize::Tri),
    }
}

/// Returns the scalar of the texels of a storage image, or `None` for another class.
fn stored_scalar(class: ImageClass) -> Option<Scalar>
    ensures { result ≡ stored_scalar class }
{
    match class {
        ImageClass::Storage { format, .. } => Some(Scalar::from(format)),
        _ => None,
    }
}

/// Returns the scalar of the texels of a storage image, or `None` for any other type.
pub(crate) fn texel_scalar(inner: &TypeInner) -> Option<Scalar>
    ensures { result ≡ texel_scalar inner.now }
{
    match inner {
        TypeInner::Image { class, .. } => stored_scalar(*class),
        _ => None,
    }
}

/// Returns whether this is a ray query.
pub(crate) fn is_ray_query(inner: &TypeInner) -> bool
    ensures { result ≡ is_ray_query inner.now }
{
    matches!(inner, TypeInner::RayQuery { .. })
}

/// Returns whether this is a ray query that returns the vertices that are hit.
pub(crate) fn is_vertex_query(inner: &TypeInner) -> bool
    ensures { result ≡ is_vertex_query inner.now }
{
    match inner {
        TypeInner::RayQuery { vertex_return } => *vertex_return,
        _ => false,
    }
}

/// Returns whether this is an acceleration structure.
pub(crate) fn is_acceleration_structure(inner: &TypeInner) -> bool
    ensures { result ≡ is_acceleration_structure inner.now }
{
    matches!(inner, TypeInner::AccelerationStructure { .. })
}

/// Returns whether this is a pointer to a declared type in workgroup memory.
pub(crate) fn points_into_work_group(inner: &TypeInner) -> bool
    ensures { result ≡ points_into is_work_group inner.now }
{
    match inner {
        TypeInner::Pointer { space, .. } => matches!(space, AddressSpace::WorkGroup),
        _ => false,
    }
}

/// Returns whether this is a pointer to a ray payload.
pub(crate) fn points_to_ray_payload(inner: &TypeInner) -> bool
    ensures { result ≡ points_into is_ray_payload inner.now }
{
    match inner {
        TypeInner::Pointer { space, .. } => matches!(
            space,
            AddressSpace::RayPayload | AddressSpace::IncomingRayPayload
        ),
        _ => false,
    }
}
