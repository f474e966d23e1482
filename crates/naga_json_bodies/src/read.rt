//! Blocks, and statements that contain them.
ghost use Rattle.std.specs.Prelude.{map};
ghost use Rattle.json.specs.Value.{value_view, items_view};
ghost use Rattle.naga_json.specs.Block.{block_after, block_codec, block_with, block_within, branch_variant, case_codec, loop_variant, statement_codec, statement_rows, switch_variant};
ghost use Rattle.naga_json.specs.Lists.{each_of};
ghost use Rattle.naga_json.specs.Variants.{held_in};
ghost use Rattle.naga_json.specs.Objects.{choose};
ghost use Rattle.naga_json_values.specs.Reads.{Reads};
ghost use Rattle.naga_json.specs.StatementValue.{empty, value_of_block, value_of_case, value_of_statement};

use crate::derived::read::{read_named_statement, read_simple_statement};
use json::Value;
use naga_arena::Span;
use naga_ir::{Block, Statement, SwitchCase};
use naga_json::MAX_NESTING;
use naga_json_values::Cause;
use naga_json_values::handles::items;
use naga_json_values::objects::{field, fields, variant};
use naga_json_values::parts::Field;
use std::alloc::Global;

/// Reads a block. The spans of its statements are undefined.
///
/// Fails with [`Cause::Nesting`] if blocks are nested more than 127 deep. No value that [`Value::parse`] returns is
/// nested so deeply.
pub fn read_block(alloc: Global, value: &Value<'_>) -> Result<Block, Cause>
    ensures { Reads value_of_block result (block_codec.decode (value_view value.now)) }
{
    read_inner_block(alloc, value, MAX_NESTING)
}

/// Reads a statement. The spans of the statements in its blocks are undefined.
///
/// Fails with [`Cause::Nesting`] if blocks are nested more than 127 deep. No value that [`Value::parse`] returns is
/// nested so deeply.
pub fn read_statement(alloc: Global, value: &Value<'_>) -> Result<Statement, Cause>
    ensures { Reads value_of_statement result ((statement_codec block_codec).decode (value_view value.now)) }
{
    read_inner_statement(alloc, value, MAX_NESTING)
}

/// Reads a block in which blocks are nested no deeper than `depth`.
#[cycle(block)]
fn read_inner_block(alloc: Global, value: &Value<'_>, depth: usize) -> Result<Block, Cause>
    ensures { Reads value_of_block result ((block_within depth).decode (value_view value.now)) }
{
    if depth == 0 {
        return Err(Cause::Nesting);
    }
    read_statements(alloc, value, depth - 1)
}

/// Reads a list of statements.
#[cycle(block)]
fn read_statements(alloc: Global, value: &Value<'_>, depth: usize) -> Result<Block, Cause>
    ensures { Reads value_of_block result (block_with (statement_codec (block_within depth)).decode (value_view value.now)) }
{
    let items = items(value).ok_or(Cause::List)?;
    read_each_statement(alloc, items, depth)
}

/// Reads the statements in a list.
#[cycle(block)]
fn read_each_statement(alloc: Global, items: &Vec<Value<'_>>, depth: usize) -> Result<Block, Cause>
    ensures { Reads value_of_block result
        (block_after (statement_codec (block_within depth)).decode (items_view items.now.items) empty) }
{
    let mut block = Block::new(alloc);
    'statements: for item in items {
        let statement = read_inner_statement(alloc, item, depth)?;
        block.push(statement, Span::UNDEFINED)?;
    }
    Ok(block)
}

/// Reads a statement in which blocks are nested no deeper than `depth`.
#[cycle(block)]
fn read_inner_statement(alloc: Global, value: &Value<'_>, depth: usize) -> Result<Statement, Cause>
    ensures { Reads value_of_statement result ((statement_codec (block_within depth)).decode (value_view value.now)) }
{
    let (name, held) = variant(value)?;
    match held {
        None => read_named_statement(name),
        Some(held) => read_held_statement(alloc, name, held, depth),
    }
}

/// Reads a statement that contains data.
#[cycle(block)]
fn read_held_statement(
    alloc: Global,
    name: &str,
    held: &Value<'_>,
    depth: usize,
) -> Result<Statement, Cause>
    ensures { Reads value_of_statement result
        (choose (statement_rows (block_within depth) (value_view held.now)) name.now) }
{
    match name {
        "Block" => Ok(Statement::Block(read_inner_block(alloc, held, depth)?)),
        "If" => read_if(alloc, held, depth),
        "Switch" => read_switch(alloc, held, depth),
        "Loop" => read_loop(alloc, held, depth),
        _ => read_simple_statement(alloc, name, held),
    }
}

/// Reads an `If`.
#[cycle(block)]
#[tactic(auto, unfolding(naga_json::specs::Fields::struct_in))]
fn read_if(alloc: Global, held: &Value<'_>, depth: usize) -> Result<Statement, Cause>
    ensures { Reads value_of_statement result (held_in (branch_variant (block_within depth)) (value_view held.now)) }
{
    let value = fields(held, &["condition", "accept", "reject"])?;
    let condition = Field::read_field(value, "condition")?;
    let accept = read_inner_block(alloc, field(value, "accept")?, depth)?;
    let reject = read_inner_block(alloc, field(value, "reject")?, depth)?;
    Ok(Statement::If {
        condition,
        accept,
        reject,
    })
}

/// Reads a `Switch`.
#[cycle(block)]
#[tactic(auto, unfolding(naga_json::specs::Fields::struct_in))]
fn read_switch(alloc: Global, held: &Value<'_>, depth: usize) -> Result<Statement, Cause>
    ensures { Reads value_of_statement result (held_in (switch_variant (block_within depth)) (value_view held.now)) }
{
    let value = fields(held, &["selector", "cases"])?;
    let selector = Field::read_field(value, "selector")?;
    let items = items(field(value, "cases")?).ok_or(Cause::List)?;
    let cases = read_cases(alloc, items, depth)?;
    Ok(Statement::Switch { selector, cases })
}

/// Reads the cases in a list.
#[cycle(block)]
fn read_cases(alloc: Global, items: &Vec<Value<'_>>, depth: usize) -> Result<Vec<SwitchCase>, Cause>
    ensures { Reads (λ cases. map value_of_case cases.items) result
        (each_of (case_codec (block_within depth)).decode (items_view items.now.items)) }
{
    let mut cases = Vec::new(alloc);
    'cases: for item in items {
        let case = read_case(alloc, item, depth)?;
        cases.push(case)?;
    }
    Ok(cases)
}

/// Reads a case of a switch.
#[cycle(block)]
#[tactic(auto, unfolding(naga_json::specs::Fields::struct_in))]
fn read_case(alloc: Global, value: &Value<'_>, depth: usize) -> Result<SwitchCase, Cause>
    ensures { Reads value_of_case result ((case_codec (block_within depth)).decode (value_view value.now)) }
{
    let fields = fields(value, &["value", "body", "fall_through"])?;
    let value = Field::read_field(fields, "value")?;
    let body = read_inner_block(alloc, field(fields, "body")?, depth)?;
    let fall_through = Field::read_field(fields, "fall_through")?;
    Ok(SwitchCase {
        value,
        body,
        fall_through,
    })
}

/// Reads a `Loop`.
#[cycle(block)]
#[tactic(auto, unfolding(naga_json::specs::Fields::struct_in))]
fn read_loop(alloc: Global, held: &Value<'_>, depth: usize) -> Result<Statement, Cause>
    ensures { Reads value_of_statement result (held_in (loop_variant (block_within depth)) (value_view held.now)) }
{
    let value = fields(held, &["body", "continuing", "break_if"])?;
    let body = read_inner_block(alloc, field(value, "body")?, depth)?;
    let continuing = read_inner_block(alloc, field(value, "continuing")?, depth)?;
    let break_if = Field::read_field(value, "break_if")?;
    Ok(Statement::Loop {
        body,
        continuing,
        break_if,
    })
}
