//! The types of built-in mathematical functions.
ghost use Rattle.std.specs.Prelude.{◌≡◌, option_copied};
ghost use Rattle.naga_typifier.specs.Context.{context_of};
ghost use Rattle.naga_typifier.specs.Math.{accepted, applied, given, is_of, outer, rule_of, shaped, size_in, transposed};
ghost use Rattle.std.specs.Option.{option_map};
ghost use Rattle.naga_typifier.specs.Rows.{handle};

use crate::context::ResolveContext;
use crate::resolution::TypeResolution;
use crate::rows::{same_size, sized};
use naga_ir::{MathFunction, PredeclaredType, Scalar, ScalarKind, TypeInner, VectorSize};

/// The shape of the first argument of a mathematical function.
#[derive(Clone, Copy, Debug, PartialEq)]
pub enum ArgumentShape {
    /// A scalar or a vector.
    Components,
    /// A scalar.
    Single,
    /// A vector.
    Vector,
    /// A vector of this size.
    VectorOf(VectorSize),
    /// A matrix with as many columns as rows.
    Square,
    /// A matrix.
    Matrix,
}

/// The scalars of which the first argument of a mathematical function consists.
#[derive(Clone, Copy, Debug, PartialEq)]
pub enum ArgumentScalars {
    /// Numbers of any kind.
    Numbers,
    /// Numbers that can be negative.
    Signed,
    /// Floating-point numbers.
    Floats,
    /// Integers whose type is chosen.
    Integers,
    /// Floating-point numbers of 4 bytes, whose type is chosen.
    Float32,
    /// Signed integers of 4 bytes, whose type is chosen.
    Sint32,
    /// Unsigned integers of 4 bytes, whose type is chosen.
    Uint32,
}

/// The type of the result of a mathematical function.
#[derive(Clone, Copy, Debug, PartialEq)]
pub enum MathResult {
    /// The type of the first argument.
    Argument,
    /// The scalar of the first argument.
    Component,
    /// The first argument with rows and columns exchanged.
    Transposed,
    /// A matrix with as many rows as the first argument has components, and as many columns as the second.
    Outer,
    /// The predeclared type of the results of `modf`.
    Modf,
    /// The predeclared type of the results of `frexp`.
    Frexp,
    /// This scalar, or a vector of this size of it.
    Fixed(Option<VectorSize>, Scalar),
}

/// The first argument that a mathematical function accepts, and the type of its result.
///
/// The result of [`Outer`](MathFunction::Outer) also depends on the second argument.
#[derive(Clone, Copy, Debug, PartialEq)]
pub struct MathRule {
    /// The shape of the first argument.
    pub shape: ArgumentShape,
    /// The scalars of the first argument.
    pub scalars: ArgumentScalars,
    /// The type of the result.
    pub gives: MathResult,
}

impl MathRule {
    /// Returns the rule of a function.
    pub fn of(fun: MathFunction) -> Self
        ensures { result ≡ rule_of fun }
    {
        use MathFunction as Fun;
        let (shape, scalars, gives) = match fun {
            Fun::Abs | Fun::Min | Fun::Max | Fun::Clamp => {
                (
                    ArgumentShape::Components,
                    ArgumentScalars::Numbers,
                    MathResult::Argument,
                )
            }
            Fun::Sign => (
                ArgumentShape::Components,
                ArgumentScalars::Signed,
                MathResult::Argument,
            ),
            Fun::Modf => (
                ArgumentShape::Components,
                ArgumentScalars::Floats,
                MathResult::Modf,
            ),
            Fun::Frexp => (
                ArgumentShape::Components,
                ArgumentScalars::Floats,
                MathResult::Frexp,
            ),
            Fun::Distance | Fun::Length => (
                ArgumentShape::Components,
                ArgumentScalars::Floats,
                MathResult::Component,
            ),
            Fun::Dot => (
                ArgumentShape::Vector,
                ArgumentScalars::Numbers,
                MathResult::Component,
            ),
            Fun::Dot4I8Packed => (
                ArgumentShape::Single,
                ArgumentScalars::Uint32,
                MathResult::Fixed(None, Scalar::I32),
            ),
            Fun::Dot4U8Packed => (
                ArgumentShape::Single,
                ArgumentScalars::Uint32,
                MathResult::Fixed(None, Scalar::U32),
            ),
            Fun::Outer => (
                ArgumentShape::Vector,
                ArgumentScalars::Floats,
                MathResult::Outer,
            ),
            Fun::Cross => (
                ArgumentShape::VectorOf(VectorSize::Tri),
                ArgumentScalars::Floats,
                MathResult::Argument,
            ),
            Fun::Normalize | Fun::FaceForward | Fun::Reflect | Fun::Refract => {
                (
                    ArgumentShape::Vector,
                    ArgumentScalars::Floats,
                    MathResult::Argument,
                )
            }
            Fun::Inverse => (
                ArgumentShape::Square,
                ArgumentScalars::Floats,
                MathResult::Argument,
            ),
            Fun::Transpose => (
                ArgumentShape::Matrix,
                ArgumentScalars::Floats,
                MathResult::Transposed,
            ),
            Fun::Determinant => (
                ArgumentShape::Square,
                ArgumentScalars::Floats,
                MathResult::Component,
            ),
            Fun::QuantizeToF16 => (
                ArgumentShape::Components,
                ArgumentScalars::Float32,
                MathResult::Argument,
            ),
            Fun::CountTrailingZeros
            | Fun::CountLeadingZeros
            | Fun::CountOneBits
            | Fun::ReverseBits
            | Fun::ExtractBits
            | Fun::InsertBits
            | Fun::FirstTrailingBit
            | Fun::FirstLeadingBit => (
                ArgumentShape::Components,
                ArgumentScalars::Integers,
                MathResult::Argument,
            ),
            Fun::Pack4x8snorm | Fun::Pack4x8unorm => (
                ArgumentShape::VectorOf(VectorSize::Quad),
                ArgumentScalars::Float32,
                MathResult::Fixed(None, Scalar::U32),
            ),
            Fun::Pack2x16snorm | Fun::Pack2x16unorm | Fun::Pack2x16float => (
                ArgumentShape::VectorOf(VectorSize::Bi),
                ArgumentScalars::Float32,
                MathResult::Fixed(None, Scalar::U32),
            ),
            Fun::Pack4xI8 | Fun::Pack4xI8Clamp => (
                ArgumentShape::VectorOf(VectorSize::Quad),
                ArgumentScalars::Sint32,
                MathResult::Fixed(None, Scalar::U32),
            ),
            Fun::Pack4xU8 | Fun::Pack4xU8Clamp => (
                ArgumentShape::VectorOf(VectorSize::Quad),
                ArgumentScalars::Uint32,
                MathResult::Fixed(None, Scalar::U32),
            ),
            Fun::Unpack4x8snorm | Fun::Unpack4x8unorm => (
                ArgumentShape::Single,
                ArgumentScalars::Uint32,
                MathResult::Fixed(Some(VectorSize::Quad), Scalar::F32),
            ),
            Fun::Unpack2x16snorm | Fun::Unpack2x16unorm | Fun::Unpack2x16float => (
                ArgumentShape::Single,
                ArgumentScalars::Uint32,
                MathResult::Fixed(Some(VectorSize::Bi), Scalar::F32),
            ),
            Fun::Unpack4xI8 => (
                ArgumentShape::Single,
                ArgumentScalars::Uint32,
                MathResult::Fixed(Some(VectorSize::Quad), Scalar::I32),
            ),
            Fun::Unpack4xU8 => (
                ArgumentShape::Single,
                ArgumentScalars::Uint32,
                MathResult::Fixed(Some(VectorSize::Quad), Scalar::U32),
            ),
            _ => (
                ArgumentShape::Components,
                ArgumentScalars::Floats,
                MathResult::Argument,
            ),
        };
        MathRule {
            shape,
            scalars,
            gives,
        }
    }
}

/// Returns whether a scalar is one of these.
fn is_of(scalars: ArgumentScalars, scalar: Scalar) -> bool
    ensures { result ≡ is_of scalars scalar }
{
    match scalars {
        ArgumentScalars::Numbers => !matches!(scalar.kind, ScalarKind::Bool),
        ArgumentScalars::Signed => !matches!(scalar.kind, ScalarKind::Bool | ScalarKind::Uint),
        ArgumentScalars::Floats => matches!(
            scalar.kind,
            ScalarKind::Float | ScalarKind::AbstractFloat
        ),
        ArgumentScalars::Integers => matches!(scalar.kind, ScalarKind::Sint | ScalarKind::Uint),
        ArgumentScalars::Float32 => matches!(scalar.kind, ScalarKind::Float) && scalar.width == 4,
        ArgumentScalars::Sint32 => matches!(scalar.kind, ScalarKind::Sint) && scalar.width == 4,
        ArgumentScalars::Uint32 => matches!(scalar.kind, ScalarKind::Uint) && scalar.width == 4,
    }
}

/// Returns the scalar of a type of this shape, or `None` for a type of another shape.
fn shaped(shape: ArgumentShape, inner: &TypeInner) -> Option<Scalar>
    ensures { result ≡ shaped shape inner.now }
{
    match (shape, inner) {
        (ArgumentShape::Components | ArgumentShape::Single, TypeInner::Scalar(scalar)) => Some(
            *scalar,
        ),
        (ArgumentShape::Components | ArgumentShape::Vector, TypeInner::Vector { scalar, .. }) =>
            Some(*scalar),
        (ArgumentShape::VectorOf(wanted), TypeInner::Vector { size, scalar }) => {
            if same_size(wanted, *size) {
                Some(*scalar)
            } else {
                None
            }
        }
        (
            ArgumentShape::Square,
            TypeInner::Matrix {
                columns,
                rows,
                scalar,
            },
        ) => {
            if same_size(*columns, *rows) {
                Some(*scalar)
            } else {
                None
            }
        }
        (ArgumentShape::Matrix, TypeInner::Matrix { scalar, .. }) => Some(*scalar),
        _ => None,
    }
}

/// Returns the size of a vector, or `None` for any other type.
fn size_in(inner: &TypeInner) -> Option<VectorSize>
    ensures { result ≡ size_in inner.now }
{
    match inner {
        TypeInner::Vector { size, .. } => Some(*size),
        _ => None,
    }
}

/// Returns a matrix with rows and columns exchanged, or `None` for any other type.
fn transposed(inner: &TypeInner) -> Option<TypeResolution>
    ensures { result ≡ transposed inner.now }
{
    match inner {
        TypeInner::Matrix {
            columns,
            rows,
            scalar,
        } => Some(TypeResolution::Value(TypeInner::Matrix {
            columns: *rows,
            rows: *columns,
            scalar: *scalar,
        })),
        _ => None,
    }
}

/// Returns the type of the outer product of two vectors, or `None` for any other types.
fn outer(first: &TypeInner, second: &TypeInner) -> Option<TypeResolution>
    ensures { result ≡ outer first.now second.now }
{
    match (first, second) {
        (TypeInner::Vector { size: rows, scalar }, TypeInner::Vector { size: columns, .. }) => {
            Some(TypeResolution::Value(TypeInner::Matrix {
                columns: *columns,
                rows: *rows,
                scalar: *scalar,
            }))
        }
        _ => None,
    }
}

/// Returns a predeclared type, or `None` if it is not in the module.
fn predeclared(ctx: &ResolveContext<'_>, key: PredeclaredType) -> Option<TypeResolution>
    ensures { result ≡ option_map handle ((context_of ctx.now).predeclared key) }
{
    match ctx.special_types.predeclared_types.get(&key) {
        Some(ty) => Some(TypeResolution::Handle(*ty)),
        None => None,
    }
}

/// Returns the type of the result for a first argument with this type, these contents and this scalar, and for a
/// second argument.
fn given(
    ctx: &ResolveContext<'_>,
    argument: &TypeResolution,
    inner: &TypeInner,
    second: Option<&TypeInner>,
    scalar: Scalar,
    gives: MathResult,
) -> Option<TypeResolution>
    ensures { result ≡ given (context_of ctx.now) argument.now inner.now (option_copied second.entry) scalar gives }
{
    match gives {
        MathResult::Argument => argument.copied(),
        MathResult::Component => Some(TypeResolution::Value(TypeInner::Scalar(scalar))),
        MathResult::Transposed => transposed(inner),
        MathResult::Outer => outer(inner, second?),
        MathResult::Modf => {
            let size = size_in(inner);
            predeclared(ctx, PredeclaredType::ModfResult { size, scalar })
        }
        MathResult::Frexp => {
            let size = size_in(inner);
            predeclared(ctx, PredeclaredType::FrexpResult { size, scalar })
        }
        MathResult::Fixed(size, of) => Some(TypeResolution::Value(sized(size, of))),
    }
}

/// Returns the scalar of a first argument with these contents, or `None` if the rule does not accept it.
pub(crate) fn accepted(rule: MathRule, inner: &TypeInner) -> Option<Scalar>
    ensures { result ≡ accepted rule inner.now }
{
    let scalar = shaped(rule.shape, inner)?;
    if is_of(rule.scalars, scalar) {
        Some(scalar)
    } else {
        None
    }
}

/// Returns the type of the result of a function with this rule, or `None` if the rule does not accept the first
/// argument.
pub(crate) fn applied(
    ctx: &ResolveContext<'_>,
    rule: MathRule,
    argument: &TypeResolution,
    inner: &TypeInner,
    second: Option<&TypeInner>,
) -> Option<TypeResolution>
    ensures { result ≡ applied (context_of ctx.now) rule argument.now inner.now (option_copied second.entry) }
{
    let scalar = accepted(rule, inner)?;
    given(ctx, argument, inner, second, scalar, rule.gives)
}
