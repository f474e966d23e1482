//! The texts of statements that contain no block and do not jump.
ghost use Rattle.std.specs.Prelude.{◌≡◌, ◌++◌, OnOk};
ghost use Rattle.naga_text.specs.Statements.{statement_text};

use crate::derived::statement::push_action;
use crate::operands::push_references;
use crate::text::Text;
use naga_ir::Statement;
use std::alloc::AllocError;

/// Appends a statement to a text: its action, and what it refers to.
pub fn push_statement(text: &mut Text, statement: &Statement) -> Result<(), AllocError>
    ensures { OnOk result (text.new ≡ text.old ++ statement_text statement.now) }
{
    push_action(text, statement)?;
    push_references(text, statement)
}
