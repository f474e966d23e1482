//! What the requirements of expressions read from the contents of types.
ghost use Rattle.std.specs.Prelude.{◌≡◌};
ghost use Rattle.naga_kinds.specs.Image.{is_depth};
ghost use Rattle.naga_typifier.specs.Images.{class_of};
ghost use Rattle.naga_typifier.specs.Math.{is_concrete_float, is_float, is_integer, is_number, is_signed, size_in};
ghost use Rattle.naga_typing.specs.Kinds.{can_be_gathered, can_be_sampled, class_passes, component, converts, has_bits_of, has_component, has_coordinates, has_levels, has_one_of, has_samples, has_squares, has_width, is_boolean, is_dynamic_array, is_one_of, is_sampler, is_unsigned, single, unsigned_size};
ghost use Rattle.naga_typing.specs.Requirements.{levels_of, samples_of};

use crate::requirement::Scalars;
use naga_ir::{ArraySize, ImageClass, ImageDimension, Scalar, ScalarKind, TypeInner, VectorSize};

/// Returns whether a scalar of this kind is a number.
fn is_number(kind: ScalarKind) -> bool
    ensures { result ≡ is_number kind }
{
    !matches!(kind, ScalarKind::Bool)
}

/// Returns whether a scalar of this kind is a number that can be negative.
fn is_signed(kind: ScalarKind) -> bool
    ensures { result ≡ is_signed kind }
{
    !matches!(kind, ScalarKind::Bool | ScalarKind::Uint)
}

/// Returns whether a scalar of this kind is a floating-point number.
fn is_float(kind: ScalarKind) -> bool
    ensures { result ≡ is_float kind }
{
    matches!(kind, ScalarKind::Float | ScalarKind::AbstractFloat)
}

/// Returns whether a scalar of this kind is a floating-point number whose type is chosen.
fn is_concrete_float(kind: ScalarKind) -> bool
    ensures { result ≡ is_concrete_float kind }
{
    matches!(kind, ScalarKind::Float)
}

/// Returns whether a scalar of this kind is an integer whose type is chosen.
fn is_integer(kind: ScalarKind) -> bool
    ensures { result ≡ is_integer kind }
{
    matches!(kind, ScalarKind::Sint | ScalarKind::Uint)
}

/// Returns whether a scalar of this kind is an unsigned integer.
fn is_unsigned(kind: ScalarKind) -> bool
    ensures { result ≡ is_unsigned kind }
{
    matches!(kind, ScalarKind::Uint)
}

/// Returns whether a scalar of this kind is a boolean.
fn is_boolean(kind: ScalarKind) -> bool
    ensures { result ≡ is_boolean kind }
{
    matches!(kind, ScalarKind::Bool)
}

/// Returns whether a scalar is one of these.
fn is_one_of(scalars: Scalars, scalar: Scalar) -> bool
    ensures { result ≡ is_one_of scalars scalar }
{
    match scalars {
        Scalars::Any => true,
        Scalars::Numbers => is_number(scalar.kind),
        Scalars::Signed => is_signed(scalar.kind),
        Scalars::Floats => is_float(scalar.kind),
        Scalars::Integers => is_integer(scalar.kind),
        Scalars::Bits => is_integer(scalar.kind) || is_boolean(scalar.kind),
        Scalars::Booleans => is_boolean(scalar.kind),
    }
}

/// Returns whether scalars of a kind can have this number of bytes.
fn has_width(kind: ScalarKind, width: u8) -> bool
    ensures { result ≡ has_width kind width }
{
    match kind {
        ScalarKind::Bool => width == 1,
        ScalarKind::AbstractInt | ScalarKind::AbstractFloat => width == 8,
        ScalarKind::Sint | ScalarKind::Uint | ScalarKind::Float => {
            width == 2 || (width == 4 || width == 8)
        }
    }
}

/// Returns whether there is a scalar, and it can be converted to this one.
pub(crate) fn converts(to: Scalar, scalar: Option<Scalar>) -> bool
    ensures { result ≡ converts to scalar }
{
    match scalar {
        Some(_) => has_width(to.kind, to.width),
        None => false,
    }
}

/// Returns whether there is a scalar, and its bits are those of one of this kind, which is not that of booleans.
pub(crate) fn has_bits_of(to: ScalarKind, scalar: Option<Scalar>) -> bool
    ensures { result ≡ has_bits_of to scalar }
{
    match scalar {
        Some(scalar) => !is_boolean(to) && has_width(to, scalar.width),
        None => false,
    }
}

/// Returns whether a scalar is present and one of these.
pub(crate) fn has_one_of(scalars: Scalars, scalar: Option<Scalar>) -> bool
    ensures { result ≡ has_one_of scalars scalar }
{
    match scalar {
        Some(scalar) => is_one_of(scalars, scalar),
        None => false,
    }
}

/// Returns the scalar that a type is, or `None` for any other type.
pub(crate) fn single(inner: &TypeInner) -> Option<Scalar>
    ensures { result ≡ single inner.now }
{
    match inner {
        TypeInner::Scalar(scalar) => Some(*scalar),
        _ => None,
    }
}

/// Returns the scalar of the components of a vector, or that a type is, or `None` for any other type.
pub(crate) fn component(inner: &TypeInner) -> Option<Scalar>
    ensures { result ≡ component inner.now }
{
    match inner {
        TypeInner::Scalar(scalar) | TypeInner::Vector { scalar, .. } => Some(*scalar),
        _ => None,
    }
}

/// Returns the size of a vector, or `None` for any other type.
pub(crate) fn size_in(inner: &TypeInner) -> Option<VectorSize>
    ensures { result ≡ size_in inner.now }
{
    match inner {
        TypeInner::Vector { size, .. } => Some(*size),
        _ => None,
    }
}

/// Returns the size of a vector of unsigned integers, or `None` in place of a size for one of them.
pub(crate) fn unsigned_size(inner: &TypeInner) -> Option<Option<VectorSize>>
    ensures { result ≡ unsigned_size inner.now }
{
    match inner {
        TypeInner::Scalar(scalar) if is_unsigned(scalar.kind) => Some(None),
        TypeInner::Vector { size, scalar } if is_unsigned(scalar.kind) => Some(Some(*size)),
        _ => None,
    }
}

/// Returns the class of an image, or `None` for any other type.
pub(crate) fn class_of(inner: &TypeInner) -> Option<ImageClass>
    ensures { result ≡ class_of inner.now }
{
    match inner {
        TypeInner::Image { class, .. } => Some(*class),
        _ => None,
    }
}

/// Returns whether images of this class can be sampled.
fn can_be_sampled(class: ImageClass) -> bool
    ensures { result ≡ can_be_sampled class }
{
    match class {
        ImageClass::Sampled { kind, multi } => is_concrete_float(kind) && !multi,
        ImageClass::Depth { multi } => !multi,
        ImageClass::Storage { .. } => false,
        ImageClass::External => true,
    }
}

/// Returns whether the component at a position can be gathered from images of this class.
fn has_component(position: u32, class: ImageClass) -> bool
    ensures { result ≡ has_component position class }
{
    match class {
        ImageClass::Sampled { multi, .. } => !multi,
        ImageClass::Depth { multi } => !multi && position == 0,
        ImageClass::Storage { .. } | ImageClass::External => false,
    }
}

/// Returns whether four texels of images of this dimension are beside one another.
fn has_squares(dim: ImageDimension) -> bool
    ensures { result ≡ has_squares dim }
{
    match dim {
        ImageDimension::D2 | ImageDimension::Cube => true,
        ImageDimension::D1 | ImageDimension::D3 => false,
    }
}

/// Returns whether the component at a position can be gathered from four texels of this image.
pub(crate) fn can_be_gathered(position: u32, inner: &TypeInner) -> bool
    ensures { result ≡ can_be_gathered position inner.now }
{
    match inner {
        TypeInner::Image { dim, class, .. } => {
            has_squares(*dim) && has_component(position, *class)
        }
        _ => false,
    }
}

/// Returns whether there is a dimension, and texels have coordinates in it.
pub(crate) fn has_coordinates(dim: Option<ImageDimension>) -> bool
    ensures { result ≡ has_coordinates dim }
{
    match dim {
        Some(ImageDimension::Cube) | None => false,
        Some(ImageDimension::D1 | ImageDimension::D2 | ImageDimension::D3) => true,
    }
}

/// Returns whether each texel of images of this class has several samples.
fn has_samples(class: ImageClass) -> bool
    ensures { result ≡ has_samples class }
{
    match class {
        ImageClass::Sampled { multi, .. } | ImageClass::Depth { multi } => multi,
        ImageClass::Storage { .. } | ImageClass::External => false,
    }
}

/// Returns whether images of this class have mipmap levels.
fn has_levels(class: ImageClass) -> bool
    ensures { result ≡ has_levels class }
{
    match class {
        ImageClass::Sampled { multi, .. } | ImageClass::Depth { multi } => !multi,
        ImageClass::Storage { .. } | ImageClass::External => false,
    }
}

/// Returns whether this is an image that can be sampled.
pub(crate) fn is_sampled_image(inner: &TypeInner) -> bool
    ensures { result ≡ class_passes can_be_sampled (class_of inner.now) }
{
    match class_of(inner) {
        Some(class) => can_be_sampled(class),
        None => false,
    }
}

/// Returns whether this is an image of depths.
pub(crate) fn is_depth_image(inner: &TypeInner) -> bool
    ensures { result ≡ class_passes is_depth (class_of inner.now) }
{
    match class_of(inner) {
        Some(class) => class.is_depth(),
        None => false,
    }
}

/// Returns whether each texel of an image has several samples, or `None` for any other type.
pub(crate) fn samples_of(inner: &TypeInner) -> Option<bool>
    ensures { result ≡ samples_of inner.now }
{
    match class_of(inner) {
        Some(class) => Some(has_samples(class)),
        None => None,
    }
}

/// Returns whether an image has mipmap levels, or `None` for any other type.
pub(crate) fn levels_of(inner: &TypeInner) -> Option<bool>
    ensures { result ≡ levels_of inner.now }
{
    match class_of(inner) {
        Some(class) => Some(has_levels(class)),
        None => None,
    }
}

/// Returns whether this is a sampler that compares depths if and only if `wanted`.
pub(crate) fn is_sampler(wanted: bool, inner: &TypeInner) -> bool
    ensures { result ≡ is_sampler wanted inner.now }
{
    match inner {
        TypeInner::Sampler { comparison } => { if wanted { *comparison } else { !*comparison } }
        _ => false,
    }
}

/// Returns whether this is an array of a dynamic size.
pub(crate) fn is_dynamic_array(inner: &TypeInner) -> bool
    ensures { result ≡ is_dynamic_array inner.now }
{
    match inner {
        TypeInner::Array { size, .. } => matches!(size, ArraySize::Dynamic),
        _ => false,
    }
}
