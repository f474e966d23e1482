//! The texts of blocks.
ghost use Rattle.std.specs.Prelude.{◌≡◌, ◌++◌, OnOk, codes, option_copied};
ghost use Rattle.std.specs.Fmt.{signed_decimal};
ghost use Rattle.naga_ir.specs.View.{cases_of, node_of, tree_of};
ghost use Rattle.naga_text.specs.Blocks.{case_end_text, case_head_text, case_name, cases_text, deeper, head_text, line, loop_end_text, mark_text, node_text, operand_line, operand_text, optional_operand, part_text, return_text, tree_text, unless_empty};
ghost use Rattle.naga_text.specs.Counterparts.{inner_at, optional_tree};
ghost use Rattle.naga_text.specs.Statements.{statement_text};

use crate::counterpart::{inner_at, is_inserted};
use crate::operands::push_element;
use crate::statement::push_statement;
use crate::text::Text;
use naga_arena::Handle;
use naga_ir::{Block, Control, Expression, Statement, SwitchCase, SwitchValue};
use std::alloc::AllocError;

/// Appends the statements of a block to a text, with a margin before each line. If `old` is the counterpart of the block,
/// returns that it lacks are marked.
///
/// Returns `Err` if allocation fails. The text may then end with a part of the block.
#[cycle(body)]
pub(crate) fn push_block(
    text: &mut Text,
    margin: &Text,
    old: Option<&Block>,
    block: &Block,
) -> Result<(), AllocError>
    ensures { OnOk result (text.new ≡ text.old
        ++ tree_text margin.now (optional_tree (option_copied old.entry)) (tree_of block.now)) }
{
    for (position, statement) in block.into_iter().enumerate() {
        push_node(text, margin, old, position, statement)?;
    }
    Ok(())
}

/// Appends the statements of a block that is inside something with this margin.
#[cycle(body)]
fn push_inner(
    text: &mut Text,
    margin: &Text,
    old: Option<&Block>,
    block: &Block,
) -> Result<(), AllocError>
    ensures { OnOk result (text.new ≡ text.old
        ++ tree_text (deeper margin.now) (optional_tree (option_copied old.entry)) (tree_of block.now)) }
{
    let inner = margin.deeper()?;
    push_block(text, &inner, old, block)
}

/// Appends the line that opens a block, and the lines of this block.
#[cycle(body)]
fn push_part(
    text: &mut Text,
    margin: &Text,
    opening: &str,
    old: Option<&Block>,
    block: &Block,
) -> Result<(), AllocError>
    ensures { OnOk result (text.new ≡ text.old ++ part_text margin.now opening.now
        (tree_text (deeper margin.now) (optional_tree (option_copied old.entry)) (tree_of block.now))) }
{
    text.push_text(margin)?;
    text.push(opening)?;
    push_inner(text, margin, old, block)
}

/// Appends the line that opens a block, and the lines of this block, unless it is empty.
#[cycle(body)]
fn push_part_unless_empty(
    text: &mut Text,
    margin: &Text,
    opening: &str,
    old: Option<&Block>,
    block: &Block,
) -> Result<(), AllocError>
    ensures { OnOk result (text.new ≡ text.old ++ unless_empty (tree_of block.now) (part_text margin.now opening.now
        (tree_text (deeper margin.now) (optional_tree (option_copied old.entry)) (tree_of block.now)))) }
{
    if block.is_empty() {
        return Ok(());
    }
    push_part(text, margin, opening, old, block)
}

/// Appends the statement at a position of a block, with the blocks in it. If `old` is the counterpart of the block, returns
/// that it lacks are marked.
#[cycle(body)]
fn push_node(
    text: &mut Text,
    margin: &Text,
    old: Option<&Block>,
    position: usize,
    statement: &Statement,
) -> Result<(), AllocError>
    ensures { OnOk result (text.new ≡ text.old
        ++ node_text margin.now (optional_tree (option_copied old.entry)) position (node_of statement.now)) }
{
    match statement.control() {
        Control::Plain => push_plain(text, margin, statement),
        Control::Block(inner) => {
            push_part(text, margin, "{\n", inner_at(old, position, 0), inner)?;
            push_line(text, margin, "}")
        }
        Control::If {
            condition,
            accept,
            reject,
        } => {
            push_head(text, margin, "if", condition)?;
            push_inner(text, margin, inner_at(old, position, 0), accept)?;
            push_part_unless_empty(
                text,
                margin,
                "} else {\n",
                inner_at(old, position, 1),
                reject,
            )?;
            push_line(text, margin, "}")
        }
        Control::Switch { selector, cases } => {
            push_head(text, margin, "switch", selector)?;
            push_inner_cases(text, margin, old, position, cases)?;
            push_line(text, margin, "}")
        }
        Control::Loop {
            body,
            continuing,
            break_if,
        } => {
            push_part(text, margin, "loop {\n", inner_at(old, position, 0), body)?;
            push_part_unless_empty(
                text,
                margin,
                "} continuing {\n",
                inner_at(old, position, 1),
                continuing,
            )?;
            push_loop_end(text, margin, break_if)
        }
        Control::Break => push_line(text, margin, "break"),
        Control::Continue => push_line(text, margin, "continue"),
        Control::Return { value } => {
            push_return(text, margin, is_inserted(old, position), value)
        }
        Control::Kill => push_line(text, margin, "kill"),
    }
}

/// Appends the cases of the switch at a position of a block that is inside something with this margin.
#[cycle(body)]
fn push_inner_cases(
    text: &mut Text,
    margin: &Text,
    old: Option<&Block>,
    position: usize,
    cases: &[SwitchCase],
) -> Result<(), AllocError>
    ensures { OnOk result (text.new ≡ text.old
        ++ cases_text (deeper margin.now) (optional_tree (option_copied old.entry)) position 0 (cases_of cases.now)) }
{
    let inner = margin.deeper()?;
    push_cases(text, &inner, old, position, cases)
}

/// Appends the cases of the switch at a position of a block, with a margin before each line.
#[cycle(body)]
fn push_cases(
    text: &mut Text,
    margin: &Text,
    old: Option<&Block>,
    position: usize,
    cases: &[SwitchCase],
) -> Result<(), AllocError>
    ensures { OnOk result (text.new ≡ text.old
        ++ cases_text margin.now (optional_tree (option_copied old.entry)) position 0 (cases_of cases.now)) }
{
    for (index, case) in cases.iter().enumerate() {
        push_case(text, margin, inner_at(old, position, index), case)?;
    }
    Ok(())
}

/// Appends a case of a switch.
#[cycle(body)]
fn push_case(
    text: &mut Text,
    margin: &Text,
    old: Option<&Block>,
    case: &SwitchCase,
) -> Result<(), AllocError>
    ensures { OnOk result (text.new ≡ text.old ++ (case_head_text margin.now case.now.value
        ++ (tree_text (deeper margin.now) (optional_tree (option_copied old.entry)) (tree_of case.now.body)
        ++ case_end_text margin.now case.now.fall_through))) }
{
    push_case_head(text, margin, case.value)?;
    push_inner(text, margin, old, &case.body)?;
    push_case_end(text, margin, case.fall_through)
}

/// Appends a line.
fn push_line(text: &mut Text, margin: &Text, content: &str) -> Result<(), AllocError>
    ensures { OnOk result (text.new ≡ text.old ++ line margin.now content.now) }
{
    text.push_text(margin)?;
    text.push(content)?;
    text.push("\n")
}

/// Appends the line of a statement that contains no block and does not jump.
fn push_plain(text: &mut Text, margin: &Text, statement: &Statement) -> Result<(), AllocError>
    ensures { OnOk result (text.new ≡ text.old ++ line margin.now (statement_text statement.now)) }
{
    text.push_text(margin)?;
    push_statement(text, statement)?;
    text.push("\n")
}

/// Appends the handle of an expression, and after it the rest of a line.
fn push_operand(text: &mut Text, handle: Handle<Expression>, rest: &str) -> Result<(), AllocError>
    ensures { OnOk result (text.new ≡ text.old ++ (operand_text handle ++ rest.now)) }
{
    push_element(text, " [", handle.index(), "]")?;
    text.push(rest)
}

/// Appends the first line of a statement that contains blocks.
fn push_head(
    text: &mut Text,
    margin: &Text,
    name: &str,
    handle: Handle<Expression>,
) -> Result<(), AllocError>
    ensures { OnOk result (text.new ≡ text.old ++ head_text margin.now name.now handle) }
{
    text.push_text(margin)?;
    text.push(name)?;
    push_operand(text, handle, " {\n")
}

/// Appends the last line of a loop.
fn push_loop_end(
    text: &mut Text,
    margin: &Text,
    break_if: Option<Handle<Expression>>,
) -> Result<(), AllocError>
    ensures { OnOk result (text.new ≡ text.old ++ loop_end_text margin.now break_if) }
{
    match break_if {
        None => push_line(text, margin, "}"),
        Some(handle) => push_operand_line(text, margin, "} break if", handle),
    }
}

/// Appends the line of a return.
fn push_return(
    text: &mut Text,
    margin: &Text,
    marked: bool,
    value: Option<Handle<Expression>>,
) -> Result<(), AllocError>
    ensures { OnOk result (text.new ≡ text.old ++ return_text margin.now marked value) }
{
    text.push_text(margin)?;
    text.push("return")?;
    push_value(text, value)?;
    push_mark(text, marked)
}

/// Appends the handle of the expression that is returned, if there is one.
fn push_value(text: &mut Text, value: Option<Handle<Expression>>) -> Result<(), AllocError>
    ensures { OnOk result (text.new ≡ text.old ++ optional_operand value) }
{
    match value {
        Some(handle) => push_element(text, " [", handle.index(), "]"),
        None => Ok(()),
    }
}

/// Appends the rest of the line of a return.
fn push_mark(text: &mut Text, marked: bool) -> Result<(), AllocError>
    ensures { OnOk result (text.new ≡ text.old ++ mark_text marked) }
{
    if marked {
        text.push(" // inserted\n")
    } else {
        text.push("\n")
    }
}

/// Appends a line that ends with the handle of an expression.
fn push_operand_line(
    text: &mut Text,
    margin: &Text,
    name: &str,
    handle: Handle<Expression>,
) -> Result<(), AllocError>
    ensures { OnOk result (text.new ≡ text.old ++ operand_line margin.now name.now handle) }
{
    text.push_text(margin)?;
    text.push(name)?;
    push_operand(text, handle, "\n")
}

/// Appends the first line of a case.
fn push_case_head(text: &mut Text, margin: &Text, value: SwitchValue) -> Result<(), AllocError>
    ensures { OnOk result (text.new ≡ text.old ++ case_head_text margin.now value) }
{
    text.push_text(margin)?;
    push_case_name(text, value)?;
    text.push(" {\n")
}

/// Appends the value for which a case is entered, as in `case 3u` or `default`.
///
/// Returns `Err` if allocation fails. The text may then end with a part of this.
pub fn push_case_name(text: &mut Text, value: SwitchValue) -> Result<(), AllocError>
    ensures { OnOk result (text.new ≡ text.old ++ case_name value) }
{
    match value {
        SwitchValue::I32(number) => push_signed_case(text, number),
        SwitchValue::U32(number) => push_element(text, "case ", number as usize, "u"),
        SwitchValue::Default => text.push("default"),
    }
}

/// Appends the value of a case that is a signed number.
fn push_signed_case(text: &mut Text, number: i32) -> Result<(), AllocError>
    ensures { OnOk result (text.new ≡ text.old ++ (codes "case " ++ signed_decimal number)) }
{
    text.push("case ")?;
    text.push_integer(i64::from(number))
}

/// Appends the last line of a case.
fn push_case_end(text: &mut Text, margin: &Text, falls_through: bool) -> Result<(), AllocError>
    ensures { OnOk result (text.new ≡ text.old ++ case_end_text margin.now falls_through) }
{
    if falls_through {
        push_line(text, margin, "} fall through")
    } else {
        push_line(text, margin, "}")
    }
}
