//! The texts of expressions.
ghost use Rattle.std.specs.Prelude.{◌≡◌, ◌++◌, OnOk};
ghost use Rattle.naga_text.specs.Expressions.{expression_text};

use crate::derived::expression::push_kind;
use crate::operands::push_references;
use crate::text::Text;
use naga_ir::Expression;
use std::alloc::AllocError;

/// Appends an expression to a text: its kind, and what it refers to.
///
/// Returns `Err` if allocation fails. The text may then end with a part of the expression.
pub fn push_expression(text: &mut Text, expression: &Expression) -> Result<(), AllocError>
    ensures { OnOk result (text.new ≡ text.old ++ expression_text expression.now) }
{
    push_kind(text, expression)?;
    push_references(text, expression)
}
