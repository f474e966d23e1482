//! The texts of operators, and the names of built-in functions.
ghost use Rattle.std.specs.Prelude.{◌≡◌};
ghost use Rattle.std.specs.Option.{option_copied};
ghost use Rattle.naga_wgsl.specs.Operators.{binary_operator_text, derivative_text, math_text, relational_text, unary_operator_text};

use naga_kinds::{
    BinaryOperator, DerivativeAxis, DerivativeControl, MathFunction, RelationalFunction,
    UnaryOperator,
};

/// Returns the text of a unary operator, which comes before its operand.
pub fn unary_operator(op: UnaryOperator) -> &'static str
    ensures { result.now ≡ unary_operator_text op }
{
    match op {
        UnaryOperator::Negate => "-",
        UnaryOperator::LogicalNot => "!",
        UnaryOperator::BitwiseNot => "~",
    }
}

/// Returns the text of a binary operator, which comes between its operands.
///
/// By [`operators_are_found_by_text`](crate::laws::operators::operators_are_found_by_text), two operators have different
/// texts.
pub fn binary_operator(op: BinaryOperator) -> &'static str
    ensures { result.now ≡ binary_operator_text op }
{
    match op {
        BinaryOperator::Add => "+",
        BinaryOperator::Subtract => "-",
        BinaryOperator::Multiply => "*",
        BinaryOperator::Divide => "/",
        BinaryOperator::Modulo => "%",
        BinaryOperator::Equal => "==",
        BinaryOperator::NotEqual => "!=",
        BinaryOperator::Less => "<",
        BinaryOperator::LessEqual => "<=",
        BinaryOperator::Greater => ">",
        BinaryOperator::GreaterEqual => ">=",
        BinaryOperator::And => "&",
        BinaryOperator::ExclusiveOr => "^",
        BinaryOperator::InclusiveOr => "|",
        BinaryOperator::LogicalAnd => "&&",
        BinaryOperator::LogicalOr => "||",
        BinaryOperator::ShiftLeft => "<<",
        BinaryOperator::ShiftRight => ">>",
    }
}

/// Returns the name of the function that computes a derivative along an axis, with a precision.
pub fn derivative_function(axis: DerivativeAxis, control: DerivativeControl) -> &'static str
    ensures { result.now ≡ derivative_text axis control }
{
    match (axis, control) {
        (DerivativeAxis::X, DerivativeControl::Coarse) => "dpdxCoarse",
        (DerivativeAxis::X, DerivativeControl::Fine) => "dpdxFine",
        (DerivativeAxis::X, DerivativeControl::None) => "dpdx",
        (DerivativeAxis::Y, DerivativeControl::Coarse) => "dpdyCoarse",
        (DerivativeAxis::Y, DerivativeControl::Fine) => "dpdyFine",
        (DerivativeAxis::Y, DerivativeControl::None) => "dpdy",
        (DerivativeAxis::Width, DerivativeControl::Coarse) => "fwidthCoarse",
        (DerivativeAxis::Width, DerivativeControl::Fine) => "fwidthFine",
        (DerivativeAxis::Width, DerivativeControl::None) => "fwidth",
    }
}

/// Returns the name of a function that tests a value, or `None` if WGSL has no such function.
pub fn relational_function(function: RelationalFunction) -> Option<&'static str>
    ensures { option_copied result ≡ relational_text function }
{
    match function {
        RelationalFunction::All => Some("all"),
        RelationalFunction::Any => Some("any"),
        RelationalFunction::IsNan => None,
        RelationalFunction::IsInf => None,
    }
}

/// Returns the name of a mathematical function, or `None` if WGSL has no such function.
pub fn math_function(function: MathFunction) -> Option<&'static str>
    ensures { option_copied result ≡ math_text function }
{
    match function {
        MathFunction::Abs => Some("abs"),
        MathFunction::Min => Some("min"),
        MathFunction::Max => Some("max"),
        MathFunction::Clamp => Some("clamp"),
        MathFunction::Saturate => Some("saturate"),
        MathFunction::Cos => Some("cos"),
        MathFunction::Cosh => Some("cosh"),
        MathFunction::Sin => Some("sin"),
        MathFunction::Sinh => Some("sinh"),
        MathFunction::Tan => Some("tan"),
        MathFunction::Tanh => Some("tanh"),
        MathFunction::Acos => Some("acos"),
        MathFunction::Asin => Some("asin"),
        MathFunction::Atan => Some("atan"),
        MathFunction::Atan2 => Some("atan2"),
        MathFunction::Asinh => Some("asinh"),
        MathFunction::Acosh => Some("acosh"),
        MathFunction::Atanh => Some("atanh"),
        MathFunction::Radians => Some("radians"),
        MathFunction::Degrees => Some("degrees"),
        MathFunction::Ceil => Some("ceil"),
        MathFunction::Floor => Some("floor"),
        MathFunction::Round => Some("round"),
        MathFunction::Fract => Some("fract"),
        MathFunction::Trunc => Some("trunc"),
        MathFunction::Modf => Some("modf"),
        MathFunction::Frexp => Some("frexp"),
        MathFunction::Ldexp => Some("ldexp"),
        MathFunction::Exp => Some("exp"),
        MathFunction::Exp2 => Some("exp2"),
        MathFunction::Log => Some("log"),
        MathFunction::Log2 => Some("log2"),
        MathFunction::Pow => Some("pow"),
        MathFunction::Dot => Some("dot"),
        MathFunction::Dot4I8Packed => Some("dot4I8Packed"),
        MathFunction::Dot4U8Packed => Some("dot4U8Packed"),
        MathFunction::Outer => None,
        MathFunction::Cross => Some("cross"),
        MathFunction::Distance => Some("distance"),
        MathFunction::Length => Some("length"),
        MathFunction::Normalize => Some("normalize"),
        MathFunction::FaceForward => Some("faceForward"),
        MathFunction::Reflect => Some("reflect"),
        MathFunction::Refract => Some("refract"),
        MathFunction::Sign => Some("sign"),
        MathFunction::Fma => Some("fma"),
        MathFunction::Mix => Some("mix"),
        MathFunction::Step => Some("step"),
        MathFunction::SmoothStep => Some("smoothstep"),
        MathFunction::Sqrt => Some("sqrt"),
        MathFunction::InverseSqrt => Some("inverseSqrt"),
        MathFunction::Inverse => None,
        MathFunction::Transpose => Some("transpose"),
        MathFunction::Determinant => Some("determinant"),
        MathFunction::QuantizeToF16 => Some("quantizeToF16"),
        MathFunction::CountTrailingZeros => Some("countTrailingZeros"),
        MathFunction::CountLeadingZeros => Some("countLeadingZeros"),
        MathFunction::CountOneBits => Some("countOneBits"),
        MathFunction::ReverseBits => Some("reverseBits"),
        MathFunction::ExtractBits => Some("extractBits"),
        MathFunction::InsertBits => Some("insertBits"),
        MathFunction::FirstTrailingBit => Some("firstTrailingBit"),
        MathFunction::FirstLeadingBit => Some("firstLeadingBit"),
        MathFunction::Pack4x8snorm => Some("pack4x8snorm"),
        MathFunction::Pack4x8unorm => Some("pack4x8unorm"),
        MathFunction::Pack2x16snorm => Some("pack2x16snorm"),
        MathFunction::Pack2x16unorm => Some("pack2x16unorm"),
        MathFunction::Pack2x16float => Some("pack2x16float"),
        MathFunction::Pack4xI8 => Some("pack4xI8"),
        MathFunction::Pack4xU8 => Some("pack4xU8"),
        MathFunction::Pack4xI8Clamp => Some("pack4xI8Clamp"),
        MathFunction::Pack4xU8Clamp => Some("pack4xU8Clamp"),
        MathFunction::Unpack4x8snorm => Some("unpack4x8snorm"),
        MathFunction::Unpack4x8unorm => Some("unpack4x8unorm"),
        MathFunction::Unpack2x16snorm => Some("unpack2x16snorm"),
        MathFunction::Unpack2x16unorm => Some("unpack2x16unorm"),
        MathFunction::Unpack2x16float => Some("unpack2x16float"),
        MathFunction::Unpack4xI8 => Some("unpack4xI8"),
        MathFunction::Unpack4xU8 => Some("unpack4xU8"),
    }
}
