// Made by tests/derive from the declarations of naga_kinds and naga_ir.
//! Names and order of variants.
ghost use Rattle.naga_kinds.specs.derived.Names.{binary_operator_name, binary_operators, derivative_axes, derivative_axis_name, derivative_control_name, derivative_controls, relational_function_name, relational_functions, swizzle_component_name, swizzle_components, unary_operator_name, unary_operators};

use crate::operator::{
    BinaryOperator, DerivativeAxis, DerivativeControl, RelationalFunction, SwizzleComponent,
    UnaryOperator,
};
use crate::plain_kind::PlainKind;

/// The variants of `UnaryOperator`, in the order of their declaration.
const UNARY_OPERATORS: &[UnaryOperator] = &[
    UnaryOperator::Negate,
    UnaryOperator::LogicalNot,
    UnaryOperator::BitwiseNot,
];

impl PlainKind for UnaryOperator {
    ghost name_of = { unary_operator_name };

    ghost in_order = { unary_operators };

    fn variants<'a>() -> &'a [UnaryOperator] {
        UNARY_OPERATORS
    }

    fn name(self) -> &'static str {
        match self {
            UnaryOperator::Negate => "Negate",
            UnaryOperator::LogicalNot => "LogicalNot",
            UnaryOperator::BitwiseNot => "BitwiseNot",
        }
    }
}

/// The variants of `BinaryOperator`, in the order of their declaration.
const BINARY_OPERATORS: &[BinaryOperator] = &[
    BinaryOperator::Add,
    BinaryOperator::Subtract,
    BinaryOperator::Multiply,
    BinaryOperator::Divide,
    BinaryOperator::Modulo,
    BinaryOperator::Equal,
    BinaryOperator::NotEqual,
    BinaryOperator::Less,
    BinaryOperator::LessEqual,
    BinaryOperator::Greater,
    BinaryOperator::GreaterEqual,
    BinaryOperator::And,
    BinaryOperator::ExclusiveOr,
    BinaryOperator::InclusiveOr,
    BinaryOperator::LogicalAnd,
    BinaryOperator::LogicalOr,
    BinaryOperator::ShiftLeft,
    BinaryOperator::ShiftRight,
];

impl PlainKind for BinaryOperator {
    ghost name_of = { binary_operator_name };

    ghost in_order = { binary_operators };

    fn variants<'a>() -> &'a [BinaryOperator] {
        BINARY_OPERATORS
    }

    fn name(self) -> &'static str {
        match self {
            BinaryOperator::Add => "Add",
            BinaryOperator::Subtract => "Subtract",
            BinaryOperator::Multiply => "Multiply",
            BinaryOperator::Divide => "Divide",
            BinaryOperator::Modulo => "Modulo",
            BinaryOperator::Equal => "Equal",
            BinaryOperator::NotEqual => "NotEqual",
            BinaryOperator::Less => "Less",
            BinaryOperator::LessEqual => "LessEqual",
            BinaryOperator::Greater => "Greater",
            BinaryOperator::GreaterEqual => "GreaterEqual",
            BinaryOperator::And => "And",
            BinaryOperator::ExclusiveOr => "ExclusiveOr",
            BinaryOperator::InclusiveOr => "InclusiveOr",
            BinaryOperator::LogicalAnd => "LogicalAnd",
            BinaryOperator::LogicalOr => "LogicalOr",
            BinaryOperator::ShiftLeft => "ShiftLeft",
            BinaryOperator::ShiftRight => "ShiftRight",
        }
    }
}

/// The variants of `DerivativeControl`, in the order of their declaration.
const DERIVATIVE_CONTROLS: &[DerivativeControl] = &[
    DerivativeControl::Coarse,
    DerivativeControl::Fine,
    DerivativeControl::None,
];

impl PlainKind for DerivativeControl {
    ghost name_of = { derivative_control_name };

    ghost in_order = { derivative_controls };

    fn variants<'a>() -> &'a [DerivativeControl] {
        DERIVATIVE_CONTROLS
    }

    fn name(self) -> &'static str {
        match self {
            DerivativeControl::Coarse => "Coarse",
            DerivativeControl::Fine => "Fine",
            DerivativeControl::None => "None",
        }
    }
}

/// The variants of `DerivativeAxis`, in the order of their declaration.
const DERIVATIVE_AXES: &[DerivativeAxis] = &[
    DerivativeAxis::X,
    DerivativeAxis::Y,
    DerivativeAxis::Width,
];

impl PlainKind for DerivativeAxis {
    ghost name_of = { derivative_axis_name };

    ghost in_order = { derivative_axes };

    fn variants<'a>() -> &'a [DerivativeAxis] {
        DERIVATIVE_AXES
    }

    fn name(self) -> &'static str {
        match self {
            DerivativeAxis::X => "X",
            DerivativeAxis::Y => "Y",
            DerivativeAxis::Width => "Width",
        }
    }
}

/// The variants of `RelationalFunction`, in the order of their declaration.
const RELATIONAL_FUNCTIONS: &[RelationalFunction] = &[
    RelationalFunction::All,
    RelationalFunction::Any,
    RelationalFunction::IsNan,
    RelationalFunction::IsInf,
];

impl PlainKind for RelationalFunction {
    ghost name_of = { relational_function_name };

    ghost in_order = { relational_functions };

    fn variants<'a>() -> &'a [RelationalFunction] {
        RELATIONAL_FUNCTIONS
    }

    fn name(self) -> &'static str {
        match self {
            RelationalFunction::All => "All",
            RelationalFunction::Any => "Any",
            RelationalFunction::IsNan => "IsNan",
            RelationalFunction::IsInf => "IsInf",
        }
    }
}

/// The variants of `SwizzleComponent`, in the order of their declaration.
const SWIZZLE_COMPONENTS: &[SwizzleComponent] = &[
    SwizzleComponent::X,
    SwizzleComponent::Y,
    SwizzleComponent::Z,
    SwizzleComponent::W,
];

impl PlainKind for SwizzleComponent {
    ghost name_of = { swizzle_component_name };

    ghost in_order = { swizzle_components };

    fn variants<'a>() -> &'a [SwizzleComponent] {
        SWIZZLE_COMPONENTS
    }

    fn name(self) -> &'static str {
        match self {
            SwizzleComponent::X => "X",
            SwizzleComponent::Y => "Y",
            SwizzleComponent::Z => "Z",
            SwizzleComponent::W => "W",
        }
    }
}
