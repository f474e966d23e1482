//! The scalars and sizes that the types of GLSL uniforms consist of.
ghost use Rattle.std.specs.Prelude.{◌≡◌};
ghost use Rattle.std.specs.Result.{result_ok};
ghost use Rattle.naga_kinds.specs.Glsl.{glsl_kind_of, glsl_size_of, glsl_scalar_of};

use crate::scalar::{Scalar, ScalarKind, VectorSize};

/// The kind of a scalar in a GLSL uniform.
#[derive(Clone, Copy, Debug, PartialEq, Eq)]
pub enum GlslScalarKind {
    /// A signed integer.
    Sint,
    /// An unsigned integer.
    Uint,
    /// A floating-point number.
    Float,
}

/// Converts to the kind of the same name. Returns `Err` if GLSL has no such kind.
impl TryFrom<ScalarKind> for GlslScalarKind {
    type Error = ();

    ghost try_from_gives = { λ kind result. result_ok result ≡ glsl_kind_of kind };

    fn try_from(kind: ScalarKind) -> Result<Self, ()> {
        match kind {
            ScalarKind::Sint => Ok(GlslScalarKind::Sint),
            ScalarKind::Uint => Ok(GlslScalarKind::Uint),
            ScalarKind::Float => Ok(GlslScalarKind::Float),
            ScalarKind::Bool | ScalarKind::AbstractInt | ScalarKind::AbstractFloat => Err(()),
        }
    }
}

/// The number of components of a vector, or of columns or rows of a matrix, in a GLSL uniform.
#[derive(Clone, Copy, Debug, PartialEq, Eq)]
pub enum GlslVectorSize {
    /// Two components.
    Bi,
    /// Three components.
    Tri,
    /// Four components.
    Quad,
}

/// Converts to the size of the same name.
impl From<VectorSize> for GlslVectorSize {
    ghost from_gives = { λ size result. result ≡ glsl_size_of size };

    fn from(size: VectorSize) -> Self {
        match size {
            VectorSize::Bi => GlslVectorSize::Bi,
            VectorSize::Tri => GlslVectorSize::Tri,
            VectorSize::Quad => GlslVectorSize::Quad,
        }
    }
}

/// The type of a single number in a GLSL uniform.
#[derive(Clone, Copy, Debug, PartialEq, Eq)]
pub struct GlslScalar {
    /// The kind of the number.
    pub kind: GlslScalarKind,

    /// The width of the number, in bytes.
    pub width: u8,
}

/// Converts to the scalar of the same kind and width. Returns `Err` if GLSL has no such kind. Every width is accepted.
impl TryFrom<Scalar> for GlslScalar {
    type Error = ();

    ghost try_from_gives = { λ scalar result. result_ok result ≡ glsl_scalar_of scalar };

    fn try_from(scalar: Scalar) -> Result<Self, ()> {
        let kind = GlslScalarKind::try_from(scalar.kind)?;
        Ok(GlslScalar {
            kind,
            width: scalar.width,
        })
    }
}
