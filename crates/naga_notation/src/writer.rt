//! Writes the notation of a block.
ghost use Rattle.std.specs.Prelude.{◌≡◌, ◌++◌, OnOk, codes, is_some, string_bytes};
ghost use Rattle.naga_ir.specs.View.{cases_of, node_of, tree_of};
ghost use Rattle.naga_kinds.specs.Switch.{is_default_value};
ghost use Rattle.naga_notation.specs.Outline.{case_text, cases_after, cases_text, default_text, fall_through_text, item_of, item_text, loop_text, no_cases, outline_of, outline_text};

use naga_arena::Handle;
use naga_ir::{Block, Control, Expression, Statement, SwitchCase, SwitchValue};
use std::alloc::AllocError;

/// Appends the notation of a block to a text. Every plain statement is written as the same letter.
///
/// Handles, the values of cases, spans and returned values are left out. So every block can be written, and a block
/// that was read from a notation is written as that notation. If allocation fails, the text may end with a part of the
/// notation.
#[cycle(writer)]
pub fn write_block(text: &mut String, block: &Block) -> Result<(), AllocError>
    ensures { OnOk result (string_bytes text.new ≡
        string_bytes text.old ++ outline_text (outline_of (tree_of block.now))) }
{
    if block.is_empty() {
        return Ok(());
    }
    write_statements(text, block)
}

/// Writes a block's statements. This is not inlined, so that no call is made for an empty block.
#[cycle(writer)]
#[inline(never)]
fn write_statements(text: &mut String, block: &Block) -> Result<(), AllocError>
    ensures { OnOk result (string_bytes text.new ≡
        string_bytes text.old ++ outline_text (outline_of (tree_of block.now))) }
{
    for statement in block {
        write_statement(text, statement)?;
    }
    Ok(())
}

#[cycle(writer)]
fn write_statement(text: &mut String, statement: &Statement) -> Result<(), AllocError>
    ensures { OnOk result (string_bytes text.new ≡
        string_bytes text.old ++ item_text (item_of (node_of statement.now))) }
{
    match statement.control() {
        Control::Plain => text.push_str("p"),
        Control::Block(inner) => {
            text.push_str("{")?;
            write_block(text, inner)?;
            text.push_str("}")
        }
        Control::If { accept, reject, .. } => {
            text.push_str("i{")?;
            write_block(text, accept)?;
            text.push_str("}{")?;
            write_block(text, reject)?;
            text.push_str("}")
        }
        Control::Switch { cases, .. } => {
            text.push_str("s(")?;
            write_cases(text, cases)?;
            text.push_str(")")
        }
        Control::Loop {
            body,
            continuing,
            break_if,
        } => {
            text.push_str(loop_opening(break_if))?;
            write_block(text, body)?;
            text.push_str("}{")?;
            write_block(text, continuing)?;
            text.push_str("}")
        }
        Control::Break => text.push_str("b"),
        Control::Continue => text.push_str("c"),
        Control::Return { .. } => text.push_str("r"),
        Control::Kill => text.push_str("k"),
    }
}

#[cycle(writer)]
fn write_cases(text: &mut String, cases: &[SwitchCase]) -> Result<(), AllocError>
    ensures { OnOk result (string_bytes text.new ≡
        string_bytes text.old ++ cases_text (cases_after (cases_of cases.now) no_cases)) }
{
    for case in cases {
        write_case(text, case)?;
    }
    Ok(())
}

#[cycle(writer)]
fn write_case(text: &mut String, case: &SwitchCase) -> Result<(), AllocError>
    ensures { OnOk result (string_bytes text.new ≡
        string_bytes text.old ++ case_text (is_default_value case.now.value)
        (outline_text (outline_of (tree_of case.now.body))) case.now.fall_through) }
{
    open_case(text, case.value)?;
    write_block(text, &case.body)?;
    close_case(text, case.fall_through)
}

/// Returns the text with which a loop begins.
fn loop_opening(break_if: Option<Handle<Expression>>) -> &'static str
    ensures { result.now ≡ loop_text (is_some break_if) ++ codes "{" }
{
    match break_if {
        Some(_) => "w{",
        None => "l{",
    }
}

/// Appends the text with which a case begins.
fn open_case(text: &mut String, value: SwitchValue) -> Result<(), AllocError>
    ensures { OnOk result (string_bytes text.new ≡
        string_bytes text.old ++ (default_text (is_default_value value) ++ codes "[")) }
{
    match value {
        SwitchValue::Default => text.push_str("d["),
        SwitchValue::I32(_) | SwitchValue::U32(_) => text.push_str("["),
    }
}

/// Appends the text with which a case ends.
fn close_case(text: &mut String, fall_through: bool) -> Result<(), AllocError>
    ensures { OnOk result (string_bytes text.new ≡
        string_bytes text.old ++ (fall_through_text fall_through ++ codes "]")) }
{
    if fall_through {
        text.push_str(">]")
    } else {
        text.push_str("]")
    }
}
