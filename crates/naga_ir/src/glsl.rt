//! The types that a GLSL uniform can have.
ghost use Rattle.std.specs.Prelude.{◌≡◌};
ghost use Rattle.std.specs.Result.{result_ok};
ghost use Rattle.naga_ir.specs.Glsl.{glsl_type_of};

use crate::types::TypeInner;
use naga_kinds::{GlslScalar, GlslVectorSize};

/// The type of a GLSL uniform.
#[derive(Clone, Copy, Debug, PartialEq, Eq)]
pub enum GlslUniformType {
    /// A number.
    Scalar(GlslScalar),
    /// A vector of 2 to 4 numbers.
    Vector {
        size: GlslVectorSize,
        scalar: GlslScalar,
    },
    /// A matrix, as a list of columns.
    Matrix {
        columns: GlslVectorSize,
        rows: GlslVectorSize,
        scalar: GlslScalar,
    },
}

/// Converts a type to the GLSL type with the same sizes and the same scalar.
///
/// Returns `Err` if GLSL does not have that scalar, and for all types other than scalars, vectors and matrices.
impl TryFrom<&TypeInner> for GlslUniformType {
    type Error = ();

    ghost try_from_gives = { λ inner result. result_ok result ≡ glsl_type_of inner.now };

    fn try_from(inner: &TypeInner) -> Result<Self, ()> {
        match inner {
            TypeInner::Scalar(scalar) => Ok(GlslUniformType::Scalar(GlslScalar::try_from(
                *scalar,
            )?)),
            TypeInner::Vector { size, scalar } => Ok(GlslUniformType::Vector {
                size: GlslVectorSize::from(*size),
                scalar: GlslScalar::try_from(*scalar)?,
            }),
            TypeInner::Matrix {
                columns,
                rows,
                scalar,
            } => Ok(GlslUniformType::Matrix {
                columns: GlslVectorSize::from(*columns),
                rows: GlslVectorSize::from(*rows),
                scalar: GlslScalar::try_from(*scalar)?,
            }),
            _ => Err(()),
        }
    }
}
