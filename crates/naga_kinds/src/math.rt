//! The mathematical functions that are built into shading languages.
ghost use Rattle.std.specs.Prelude.{◌≡◌};
ghost use Rattle.naga_kinds.specs.Math.{argument_count_of};

/// A built-in function on numbers, vectors and matrices.
///
/// The functions on bits take integers. The names of the `Pack` and `Unpack` functions state which values are packed
/// into one 32-bit number, or unpacked from it.
#[derive(Clone, Copy, Debug, PartialEq, Eq, PartialOrd, Ord, Hash)]
pub enum MathFunction {
    // Comparison.
    Abs,
    Min,
    Max,
    Clamp,
    Saturate,

    // Angles.
    Cos,
    Cosh,
    Sin,
    Sinh,
    Tan,
    Tanh,
    Acos,
    Asin,
    Atan,
    Atan2,
    Asinh,
    Acosh,
    Atanh,
    Radians,
    Degrees,

    // Splitting and composing numbers.
    Ceil,
    Floor,
    Round,
    Fract,
    Trunc,
    Modf,
    Frexp,
    Ldexp,

    // Exponents.
    Exp,
    Exp2,
    Log,
    Log2,
    Pow,

    // Vectors and their geometry.
    Dot,
    Dot4I8Packed,
    Dot4U8Packed,
    Outer,
    Cross,
    Distance,
    Length,
    Normalize,
    FaceForward,
    Reflect,
    Refract,

    // Computation.
    Sign,
    Fma,
    Mix,
    Step,
    SmoothStep,
    Sqrt,
    InverseSqrt,
    Inverse,
    Transpose,
    Determinant,
    QuantizeToF16,

    // Bits.
    CountTrailingZeros,
    CountLeadingZeros,
    CountOneBits,
    ReverseBits,
    ExtractBits,
    InsertBits,
    FirstTrailingBit,
    FirstLeadingBit,

    // Packing into one number.
    Pack4x8snorm,
    Pack4x8unorm,
    Pack2x16snorm,
    Pack2x16unorm,
    Pack2x16float,
    Pack4xI8,
    Pack4xU8,
    Pack4xI8Clamp,
    Pack4xU8Clamp,

    // Unpacking.
    Unpack4x8snorm,
    Unpack4x8unorm,
    Unpack2x16snorm,
    Unpack2x16unorm,
    Unpack2x16float,
    Unpack4xI8,
    Unpack4xU8,
}

impl MathFunction {
    /// Returns the number of arguments that the function takes.
    pub fn argument_count(&self) -> usize
        ensures { result ≡ argument_count_of self.now }
    {
        match self {
            MathFunction::InsertBits => 4,
            MathFunction::Clamp
            | MathFunction::FaceForward
            | MathFunction::Refract
            | MathFunction::Fma
            | MathFunction::Mix
            | MathFunction::SmoothStep
            | MathFunction::ExtractBits => 3,
            MathFunction::Min
            | MathFunction::Max
            | MathFunction::Atan2
            | MathFunction::Ldexp
            | MathFunction::Pow
            | MathFunction::Dot
            | MathFunction::Dot4I8Packed
            | MathFunction::Dot4U8Packed
            | MathFunction::Outer
            | MathFunction::Cross
            | MathFunction::Distance
            | MathFunction::Reflect
            | MathFunction::Step => 2,
            _ => 1,
        }
    }
}
