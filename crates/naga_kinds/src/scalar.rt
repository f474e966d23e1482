//! Scalars, and the sizes of vectors and matrices.
ghost use Rattle.std.specs.Prelude.{◌≡◌};
ghost use Rattle.naga_kinds.specs.Scalar.{components_of, scalar_of};

use crate::format::StorageFormat;

/// A number of bytes.
pub type Bytes = u8;

/// The width of a scalar of kind [`ScalarKind::Bool`], in bytes.
pub const BOOL_WIDTH: Bytes = 1;

/// The width of a scalar of kind [`ScalarKind::AbstractInt`] or [`ScalarKind::AbstractFloat`], in bytes.
pub const ABSTRACT_WIDTH: Bytes = 8;

/// The number of components of a vector, or of columns or rows of a matrix.
///
/// `as u8` converts it to the number.
#[derive(Clone, Copy, Debug, PartialEq, Eq, PartialOrd, Ord, Hash)]
pub enum VectorSize {
    /// Two components, as in `vec2`.
    Bi = 2,
    /// Three components, as in `vec3`.
    Tri = 3,
    /// Four components, as in `vec4`.
    Quad = 4,
}

impl VectorSize {
    /// The greatest number of components of a vector.
    pub const MAX: usize = VectorSize::Quad as usize;
}

/// Converts to the number of components.
impl From<VectorSize> for u8 {
    ghost from_gives = { λ size number. number ≡ components_of size };

    fn from(size: VectorSize) -> u8 {
        size as u8
    }
}

/// Converts to the number of components.
impl From<VectorSize> for u32 {
    ghost from_gives = { λ size number. number ≡ components_of size };

    fn from(size: VectorSize) -> u32 {
        size as u32
    }
}

/// The number of columns or rows of a cooperative matrix.
///
/// `as u8` converts it to the number.
#[derive(Clone, Copy, Debug, PartialEq, Eq, PartialOrd, Ord, Hash)]
pub enum CooperativeSize {
    /// Eight columns or rows.
    Eight = 8,
    /// Sixteen columns or rows.
    Sixteen = 16,
}

/// The interpretation of the bits of a scalar.
#[derive(Clone, Copy, Debug, PartialEq, Eq, PartialOrd, Ord, Hash)]
pub enum ScalarKind {
    /// A signed integer.
    Sint,
    /// An unsigned integer.
    Uint,
    /// A floating-point number.
    Float,
    /// A boolean, `true` or `false`.
    Bool,
    /// An integer of a WGSL constant expression whose type is not chosen yet.
    ///
    /// No valid module contains it, so back ends never encounter it.
    AbstractInt,
    /// A floating-point number of a WGSL constant expression whose type is not chosen yet.
    ///
    /// No valid module contains it, so back ends never encounter it.
    AbstractFloat,
}

/// The role of a cooperative matrix in `A * B + C`.
#[derive(Clone, Copy, Debug, PartialEq, Eq, PartialOrd, Ord, Hash)]
pub enum CooperativeRole {
    /// The left factor.
    A,
    /// The right factor.
    B,
    /// The addend, and the result.
    C,
}

/// The type of a single number or boolean.
#[derive(Clone, Copy, Debug, PartialEq, Eq, PartialOrd, Ord, Hash)]
pub struct Scalar {
    /// The interpretation of the bits.
    pub kind: ScalarKind,

    /// The width in bytes.
    pub width: Bytes,
}

impl Scalar {
    /// A 64-bit floating-point number.
    pub const F64: Self = Scalar {
        kind: ScalarKind::Float,
        width: 8,
    };

    /// A 32-bit floating-point number.
    pub const F32: Self = Scalar {
        kind: ScalarKind::Float,
        width: 4,
    };

    /// A 16-bit floating-point number.
    pub const F16: Self = Scalar {
        kind: ScalarKind::Float,
        width: 2,
    };

    /// A 64-bit signed integer.
    pub const I64: Self = Scalar {
        kind: ScalarKind::Sint,
        width: 8,
    };

    /// A 32-bit signed integer.
    pub const I32: Self = Scalar {
        kind: ScalarKind::Sint,
        width: 4,
    };

    /// A 16-bit signed integer.
    pub const I16: Self = Scalar {
        kind: ScalarKind::Sint,
        width: 2,
    };

    /// A 64-bit unsigned integer.
    pub const U64: Self = Scalar {
        kind: ScalarKind::Uint,
        width: 8,
    };

    /// A 32-bit unsigned integer.
    pub const U32: Self = Scalar {
        kind: ScalarKind::Uint,
        width: 4,
    };

    /// A 16-bit unsigned integer.
    pub const U16: Self = Scalar {
        kind: ScalarKind::Uint,
        width: 2,
    };

    /// A boolean.
    pub const BOOL: Self = Scalar {
        kind: ScalarKind::Bool,
        width: BOOL_WIDTH,
    };

    /// An integer of a constant expression whose type is not chosen yet.
    pub const ABSTRACT_INT: Self = Scalar {
        kind: ScalarKind::AbstractInt,
        width: ABSTRACT_WIDTH,
    };

    /// A floating-point number of a constant expression whose type is not chosen yet.
    pub const ABSTRACT_FLOAT: Self = Scalar {
        kind: ScalarKind::AbstractFloat,
        width: ABSTRACT_WIDTH,
    };
}

/// Converts to the scalar type with which a shader reads and writes the components of a texel.
///
/// Components of fewer than 32 bits are widened.
impl From<StorageFormat> for Scalar {
    ghost from_gives = { λ format scalar. scalar ≡ scalar_of format };

    fn from(format: StorageFormat) -> Self {
        match format {
            StorageFormat::R64Uint => Scalar::U64,
            StorageFormat::R8Uint
            | StorageFormat::R16Uint
            | StorageFormat::Rg8Uint
            | StorageFormat::R32Uint
            | StorageFormat::Rg16Uint
            | StorageFormat::Rgba8Uint
            | StorageFormat::Rgb10a2Uint
            | StorageFormat::Rg32Uint
            | StorageFormat::Rgba16Uint
            | StorageFormat::Rgba32Uint => Scalar::U32,
            StorageFormat::R8Sint
            | StorageFormat::R16Sint
            | StorageFormat::Rg8Sint
            | StorageFormat::R32Sint
            | StorageFormat::Rg16Sint
            | StorageFormat::Rgba8Sint
            | StorageFormat::Rg32Sint
            | StorageFormat::Rgba16Sint
            | StorageFormat::Rgba32Sint => Scalar::I32,
            _ => Scalar::F32,
        }
    }
}

/// The result type of a WGSL built-in function whose result has several parts.
///
/// Such a type has no name in WGSL.
#[derive(Clone, Debug, PartialEq, Eq, Hash, Drop)]
pub enum PredeclaredType {
    /// The result of `atomicCompareExchangeWeak` for an atomic of this scalar type: the old value, and a boolean that
    /// is `true` if the value was exchanged.
    AtomicCompareExchangeWeakResult(Scalar),
    /// The result of `modf`: the fractional part and the whole part.
    ModfResult {
        /// The size of the argument, or `None` if it is a scalar.
        size: Option<VectorSize>,
        /// The scalar type of the argument.
        scalar: Scalar,
    },
    /// The result of `frexp`: the fraction and the exponent.
    FrexpResult {
        /// The size of the argument, or `None` if it is a scalar.
        size: Option<VectorSize>,
        /// The scalar type of the argument.
        scalar: Scalar,
    },
}
