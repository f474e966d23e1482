//! Literal values.
ghost use Rattle.std.specs.Prelude.{◌≡◌, ◌<◌, ◌≤◌, ◌+◌, ◌*◌, ◌^◌};
ghost use Rattle.naga_ir.specs.Literal.{scalar_of, literal_of, minus_one_of, hashable_of, float_bits, float_of, natural_of, integer_of, truth_of, abstract_integer_of, abstract_float_of, minus_one_of_float};

use crate::types::TypeInner;
use naga_kinds::{ABSTRACT_WIDTH, BOOL_WIDTH, Bytes, Scalar, ScalarKind};

/// A value that is written out in the shader.
///
/// A float is stored as its bits in the layout of IEEE 754, including the sign and the payload of a NaN, and no code
/// here computes with floats. Two literals are equal if and only if they are of the same variant and have the same
/// bits: 0.0 and -0.0 are not equal, and a NaN is equal to itself, but not to a NaN with other bits.
///
/// Differs from naga: naga stores the floats themselves, and orders literals.
///
/// A front end creates the literal of an `f32` with `Literal::F32(x.to_bits())` if `x` is not a NaN. For any `f32`, it
/// uses the bits `std::num::f32_to_bits_with_nan(x)`, which are 0x7FC0_0000 for every NaN. The same applies to `f64`. A
/// NaN with a payload is written by its bits. Rattle has no 16-bit floats, so the code that creates an `F16` must
/// itself round the number to the bits of a 16-bit float; for example, 0x3C00 is 1.0.
#[derive(Clone, Copy, Debug, PartialEq, Eq, Hash)]
pub enum Literal {
    /// The bits of a 64-bit float.
    // derive: binary64
    F64(u64),
    /// The bits of a 32-bit float.
    // derive: binary32
    F32(u32),
    /// The bits of a 16-bit float.
    F16(u16),
    U16(u16),
    I16(i16),
    U32(u32),
    I32(i32),
    U64(u64),
    I64(i64),
    Bool(bool),
    /// An integer that has no concrete type yet.
    AbstractInt(i64),
    /// The bits of a float that has no concrete type yet.
    // derive: binary64
    AbstractFloat(u64),
}

impl Literal {
    /// Creates the literal of a small number for a scalar, or returns `None` if the scalar has no such literal.
    ///
    /// No kind of scalar has literals of every width, and the only booleans are 0 (`false`) and 1 (`true`).
    pub fn new(value: u8, scalar: Scalar) -> Option<Self>
        ensures { result ≡ literal_of scalar.kind scalar.width value }
    {
        let width = scalar.width;
        match scalar.kind {
            ScalarKind::Float => float(value, width),
            ScalarKind::Uint => natural(value, width),
            ScalarKind::Sint => integer(i16::from(value), width),
            ScalarKind::Bool => truth(value, width),
            ScalarKind::AbstractInt => abstract_integer(i64::from(value), width),
            ScalarKind::AbstractFloat => abstract_float(value, width),
        }
    }

    /// Returns zero as a literal of a scalar, or `None` if the scalar has no literals.
    pub fn zero(scalar: Scalar) -> Option<Self>
        ensures { result ≡ literal_of scalar.kind scalar.width 0 }
    {
        Self::new(0, scalar)
    }

    /// Returns one as a literal of a scalar, or `None` if the scalar has no literals. As a boolean, one is `true`.
    pub fn one(scalar: Scalar) -> Option<Self>
        ensures { result ≡ literal_of scalar.kind scalar.width 1 }
    {
        Self::new(1, scalar)
    }

    /// Returns minus one as a literal of a scalar, or `None` if the scalar has no literals or is neither a float nor a
    /// signed integer.
    ///
    /// As in naga, returns `None` for [`ScalarKind::AbstractFloat`], although its literals include minus one.
    pub fn minus_one(scalar: Scalar) -> Option<Self>
        ensures { result ≡ minus_one_of scalar.kind scalar.width }
    {
        let width = scalar.width;
        match scalar.kind {
            ScalarKind::Float => minus_one_float(width),
            ScalarKind::Sint => integer(-1, width),
            ScalarKind::AbstractInt => abstract_integer(-1, width),
            _ => None,
        }
    }

    /// Returns the width of the literal's scalar, in bytes.
    pub fn width(&self) -> Bytes
        ensures { result ≡ (scalar_of self.now).width }
    {
        self.scalar().width
    }

    /// Returns the scalar of the literal.
    pub fn scalar(&self) -> Scalar
        ensures { result ≡ scalar_of self.now }
    {
        match self {
            Literal::F64(_) => Scalar::F64,
            Literal::F32(_) => Scalar::F32,
            Literal::F16(_) => Scalar::F16,
            Literal::U16(_) => Scalar::U16,
            Literal::I16(_) => Scalar::I16,
            Literal::U32(_) => Scalar::U32,
            Literal::I32(_) => Scalar::I32,
            Literal::U64(_) => Scalar::U64,
            Literal::I64(_) => Scalar::I64,
            Literal::Bool(_) => Scalar::BOOL,
            Literal::AbstractInt(_) => Scalar::ABSTRACT_INT,
            Literal::AbstractFloat(_) => Scalar::ABSTRACT_FLOAT,
        }
    }

    /// Returns the kind of the literal's scalar, which determines how its bits are interpreted.
    pub fn scalar_kind(&self) -> ScalarKind
        ensures { result ≡ (scalar_of self.now).kind }
    {
        self.scalar().kind
    }

    /// Returns the type of the literal.
    pub fn ty_inner(&self) -> TypeInner
        ensures { result ≡ TypeInner.Scalar (scalar_of self.now) }
    {
        TypeInner::Scalar(self.scalar())
    }
}

/// Returns the number as a float of `width` bytes, or `None` if there are no floats of this width.
fn float(value: u8, width: Bytes) -> Option<Literal>
    ensures { result ≡ float_of width value }
{
    match width {
        8 => Some(Literal::F64(bits_of_float(value, 1023, 52))),
        4 => Some(Literal::F32(bits_of_float(value, 127, 23) as u32)),
        2 => Some(Literal::F16(bits_of_float(value, 15, 10) as u16)),
        _ => None,
    }
}

/// Returns the bits of the number as a float whose exponent has this `bias` and whose fraction has `fraction` bits.
///
/// Preconditions: `bias` is at most 1023, and `fraction` is at least 7 and at most 52.
fn bits_of_float(value: u8, bias: u64, fraction: u32) -> u64
    requires exponents { bias ≤ 1023 }
    requires digits { 7 ≤ fraction }
    requires fits { fraction ≤ 52 }
    ensures bits { result ≡ float_bits bias fraction value }
    ensures bound { result < 2 ^ fraction * (bias + 8) }
{
    if value == 0 {
        return 0;
    }
    let exponent = value.ilog2();
    let below = u64::from(value) - (1 << exponent);
    ((bias + u64::from(exponent)) << fraction) + (below << (fraction - exponent))
}

/// Returns minus one as a float of `width` bytes, or `None` if there are no floats of this width.
fn minus_one_float(width: Bytes) -> Option<Literal>
    ensures { result ≡ minus_one_of_float width }
{
    match width {
        8 => Some(Literal::F64(0xBFF0_0000_0000_0000)),
        4 => Some(Literal::F32(0xBF80_0000)),
        2 => Some(Literal::F16(0xBC00)),
        _ => None,
    }
}

/// Returns the number as an unsigned integer of `width` bytes, or `None` if there are no such integers of this width.
fn natural(value: u8, width: Bytes) -> Option<Literal>
    ensures { result ≡ natural_of width value }
{
    match width {
        8 => Some(Literal::U64(u64::from(value))),
        4 => Some(Literal::U32(u32::from(value))),
        2 => Some(Literal::U16(u16::from(value))),
        _ => None,
    }
}

/// Returns the number as a signed integer of `width` bytes, or `None` if there are no such integers of this width.
fn integer(value: i16, width: Bytes) -> Option<Literal>
    ensures { result ≡ integer_of width value }
{
    match width {
        8 => Some(Literal::I64(i64::from(value))),
        4 => Some(Literal::I32(i32::from(value))),
        2 => Some(Literal::I16(value)),
        _ => None,
    }
}

/// Returns the boolean `false` for 0 and `true` for 1, or `None` for any other number or width.
fn truth(value: u8, width: Bytes) -> Option<Literal>
    ensures { result ≡ truth_of width value }
{
    if width != BOOL_WIDTH {
        return None;
    }
    match value {
        0 => Some(Literal::Bool(false)),
        1 => Some(Literal::Bool(true)),
        _ => None,
    }
}

/// Returns the number as an integer that has no concrete type yet, or `None` if there are no such integers of this
/// width.
fn abstract_integer(value: i64, width: Bytes) -> Option<Literal>
    ensures { result ≡ abstract_integer_of width value }
{
    if width == ABSTRACT_WIDTH {
        Some(Literal::AbstractInt(value))
    } else {
        None
    }
}

/// Returns the number as a float that has no concrete type yet, or `None` if there are no such floats of this width.
fn abstract_float(value: u8, width: Bytes) -> Option<Literal>
    ensures { result ≡ abstract_float_of width value }
{
    if width == ABSTRACT_WIDTH {
        Some(Literal::AbstractFloat(bits_of_float(value, 1023, 52)))
    } else {
        None
    }
}

/// A [`Literal`] that can be a key of maps and sets.
///
/// Here, a [`Literal`] itself is compared by its bits, so the two types differ only in name.
///
/// Differs from naga: in naga, only this type stores floats as bits.
#[derive(Clone, Copy, Debug, PartialEq, Eq, Hash)]
pub enum HashableLiteral {
    /// The bits of a 64-bit float.
    F64(u64),
    /// The bits of a 32-bit float.
    F32(u32),
    /// The bits of a 16-bit float.
    F16(u16),
    U16(u16),
    I16(i16),
    U32(u32),
    I32(i32),
    U64(u64),
    I64(i64),
    Bool(bool),
    /// An integer that has no concrete type yet.
    AbstractInt(i64),
    /// The bits of a float that has no concrete type yet.
    AbstractFloat(u64),
}

/// Converts a literal to the variant with the same name and the same value.
impl From<Literal> for HashableLiteral {
    ghost from_gives = { λ literal hashable. hashable ≡ hashable_of literal };

    fn from(literal: Literal) -> Self {
        match literal {
            Literal::F64(bits) => HashableLiteral::F64(bits),
            Literal::F32(bits) => HashableLiteral::F32(bits),
            Literal::F16(bits) => HashableLiteral::F16(bits),
            Literal::U16(number) => HashableLiteral::U16(number),
            Literal::I16(number) => HashableLiteral::I16(number),
            Literal::U32(number) => HashableLiteral::U32(number),
            Literal::I32(number) => HashableLiteral::I32(number),
            Literal::U64(number) => HashableLiteral::U64(number),
            Literal::I64(number) => HashableLiteral::I64(number),
            Literal::Bool(truth) => HashableLiteral::Bool(truth),
            Literal::AbstractInt(number) => HashableLiteral::AbstractInt(number),
            Literal::AbstractFloat(bits) => HashableLiteral::AbstractFloat(bits),
        }
    }
}
