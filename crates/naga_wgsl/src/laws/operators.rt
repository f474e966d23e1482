//! Operators and their texts: each one is found by its text, so the texts are distinct.
ghost use Rattle.std.specs.Prelude.{◌≡◌, IfSome, Some};
ghost use Rattle.naga_kinds.specs.Names.{IsFirstOfItsName, named};
ghost use Rattle.naga_kinds.specs.derived.Names.{binary_operators, math_functions, relational_functions, unary_operators};
ghost use Rattle.naga_wgsl.specs.Operators.{binary_operator_text, derivative_pair_text, derivatives, math_text, relational_text, text_or_none, unary_operator_text};

use naga_kinds::{
    BinaryOperator, DerivativeAxis, DerivativeControl, MathFunction, RelationalFunction,
    UnaryOperator,
};

/// Each unary operator, and each binary operator, is found by its text.
pub fn operators_are_found_by_text(unary: UnaryOperator, binary: BinaryOperator)
    ensures unary { IsFirstOfItsName unary_operator_text unary_operators unary }
    ensures binary { IsFirstOfItsName binary_operator_text binary_operators binary }
{}

/// Each derivative is found by the name of its function.
pub fn derivatives_are_found_by_text(axis: DerivativeAxis, control: DerivativeControl)
    ensures { IsFirstOfItsName derivative_pair_text derivatives (axis, control) }
{}

/// Each mathematical or relational function that WGSL has is found by its name.
pub fn functions_are_found_by_text(mathematical: MathFunction, relational: RelationalFunction)
    ensures mathematical { IfSome (math_text mathematical) (λ name. named (text_or_none math_text) math_functions name ≡ Some mathematical) }
    ensures relational { IfSome (relational_text relational) (λ name. named (text_or_none relational_text) relational_functions name ≡ Some relational) }
{}
