//! The rows of the table of types for images.
ghost use Rattle.std.specs.Prelude.{◌≡◌, option_and_then};
ghost use Rattle.naga_typifier.specs.Images.{class_of, extent, sample, size_of, texel};
ghost use Rattle.naga_typifier.specs.Rows.{value};

use crate::resolution::TypeResolution;
use naga_ir::{ImageClass, ImageDimension, Scalar, SwizzleComponent, TypeInner, VectorSize};

/// Returns the class of an image, or `None` for any other type.
pub(crate) fn class_of(inner: &TypeInner) -> Option<ImageClass>
    ensures { result ≡ class_of inner.now }
{
    match inner {
        TypeInner::Image { class, .. } => Some(*class),
        _ => None,
    }
}

/// Returns the type of a texel.
pub(crate) fn texel(class: ImageClass) -> TypeInner
    ensures { result ≡ texel class }
{
    let scalar = match class {
        ImageClass::Depth { .. } => return TypeInner::Scalar(Scalar::F32),
        ImageClass::Sampled { kind, .. } => Scalar { kind, width: 4 },
        ImageClass::Storage { format, .. } => Scalar::from(format),
        ImageClass::External => Scalar::F32,
    };
    TypeInner::Vector {
        size: VectorSize::Quad,
        scalar,
    }
}

/// Returns the type of a texel of an image, or `None` for any other type.
pub(crate) fn texel_of(inner: &TypeInner) -> Option<TypeResolution>
    ensures { result ≡ option_and_then (λ class. value (texel class)) (class_of inner.now) }
{
    Some(TypeResolution::Value(texel(class_of(inner)?)))
}

/// Returns the type of a sample, which gathers one component of each of four texels if a component is given.
pub(crate) fn sample(gather: Option<SwizzleComponent>, class: ImageClass) -> Option<TypeResolution>
    ensures { result ≡ sample gather class }
{
    let inner = match (gather, class) {
        (Some(_), ImageClass::Sampled { kind, .. }) => TypeInner::Vector {
            size: VectorSize::Quad,
            scalar: Scalar { kind, width: 4 },
        },
        (Some(_), ImageClass::Depth { .. }) => TypeInner::Vector {
            size: VectorSize::Quad,
            scalar: Scalar::F32,
        },
        (None, ImageClass::Sampled { .. } | ImageClass::Depth { .. } | ImageClass::External) =>
            texel(class),
        _ => return None,
    };
    Some(TypeResolution::Value(inner))
}

/// Returns the type of the size of an image with this number of dimensions.
fn extent(dim: ImageDimension) -> TypeInner
    ensures { result ≡ extent dim }
{
    match dim {
        ImageDimension::D1 => TypeInner::Scalar(Scalar::U32),
        ImageDimension::D3 => TypeInner::Vector {
            size: VectorSize::Tri,
            scalar: Scalar::U32,
        },
        ImageDimension::D2 | ImageDimension::Cube => TypeInner::Vector {
            size: VectorSize::Bi,
            scalar: Scalar::U32,
        },
    }
}

/// Returns the type of the size of an image, or `None` for any other type.
pub(crate) fn size_of(inner: &TypeInner) -> Option<TypeResolution>
    ensures { result ≡ size_of inner.now }
{
    match inner {
        TypeInner::Image { dim, .. } => Some(TypeResolution::Value(extent(*dim))),
        _ => None,
    }
}
