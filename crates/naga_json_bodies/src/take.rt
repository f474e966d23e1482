//! Blocks, and statements that contain them.
ghost use Rattle.std.specs.Prelude.{◌≡◌, IfSome, Some, map};
ghost use Rattle.naga_json.specs.Block.{block_codec, block_with, block_within, branch_variant, case_codec};
ghost use Rattle.naga_json.specs.Block.{loop_variant, statement_codec, statement_rows, switch_variant};
ghost use Rattle.naga_json.specs.Lists.{each_in};
ghost use Rattle.naga_json.specs.Objects.{choose};
ghost use Rattle.naga_json.specs.StatementValue.{value_of_block, value_of_case, value_of_statement};
ghost use Rattle.naga_json.specs.Variants.{held_in};
ghost use Rattle.naga_json_tokens.specs.Takes.{Takes, TakesField};

use crate::derived::take::{named_statement, take_simple_statement};
use json::Token;
use naga_arena::Span;
use naga_ir::{Block, Statement, SwitchCase};
use naga_json::MAX_NESTING;
use naga_json_tokens::tokens::{take_begin, take_begin_list, take_end, take_key, take_name};
use naga_json_tokens::{Reader, take_field};
use std::alloc::Global;

/// Takes a block, with undefined spans.
pub fn take_block(alloc: Global, reader: &mut Reader<'_>) -> Option<Block>
    ensures { IfSome result (λ found. Takes block_codec.decode (value_of_block found) reader.old reader.new) }
{
    take_inner_block(alloc, reader, MAX_NESTING)
}

/// Takes a block in which blocks are nested no deeper than `depth`.
#[cycle(block)]
fn take_inner_block(alloc: Global, reader: &mut Reader<'_>, depth: usize) -> Option<Block>
    ensures { IfSome result
        (λ found. Takes (block_within depth).decode (value_of_block found) reader.old reader.new) }
{
    if depth == 0 {
        return None;
    }
    take_statements(alloc, reader, depth - 1)
}

/// Takes a list of statements.
#[cycle(block)]
fn take_statements(alloc: Global, reader: &mut Reader<'_>, depth: usize) -> Option<Block>
    ensures { IfSome result (λ found. Takes (block_with (statement_codec (block_within depth)).decode)
        (value_of_block found) reader.old reader.new) }
{
    take_begin_list(reader)?;
    let mut block = Block::new(alloc);
    'statements: while !reader.take_end_array() {
        let statement = take_inner_statement(alloc, reader, depth)?;
        let Ok(()) = block.push(statement, Span::UNDEFINED) else {
            return None;
        };
    }
    Some(block)
}

/// Takes a statement in which blocks are nested no deeper than `depth`.
#[cycle(block)]
fn take_inner_statement(alloc: Global, reader: &mut Reader<'_>, depth: usize) -> Option<Statement>
    ensures { IfSome result (λ found. Takes (statement_codec (block_within depth)).decode
        (value_of_statement found) reader.old reader.new) }
{
    match reader.next()? {
        Token::String(name) => named_statement(name),
        Token::BeginObject => {
            let name = take_name(reader)?;
            let found = take_held_statement(alloc, reader, name, depth)?;
            take_end(reader)?;
            Some(found)
        }
        _ => None,
    }
}

/// Takes what a statement that contains data holds.
#[cycle(block)]
fn take_held_statement(
    alloc: Global,
    reader: &mut Reader<'_>,
    name: &str,
    depth: usize,
) -> Option<Statement>
    ensures { IfSome result (λ found. Takes (λ held. choose (statement_rows (block_within depth) held) name.now)
        (value_of_statement found) reader.old reader.new) }
{
    match name {
        "Block" => Some(Statement::Block(take_inner_block(alloc, reader, depth)?)),
        "If" => take_if(alloc, reader, depth),
        "Switch" => take_switch(alloc, reader, depth),
        "Loop" => take_loop(alloc, reader, depth),
        _ => take_simple_statement(alloc, reader, name),
    }
}

/// Takes the block in a field.
#[cycle(block)]
fn take_block_field(
    alloc: Global,
    reader: &mut Reader<'_>,
    name: &str,
    depth: usize,
) -> Option<Block>
    ensures { IfSome result (λ found. TakesField name.now (block_within depth).decode (value_of_block found)
        reader.old reader.new) }
{
    take_key(reader, name)?;
    take_inner_block(alloc, reader, depth)
}

/// Takes what an `If` holds.
#[cycle(block)]
fn take_if(alloc: Global, reader: &mut Reader<'_>, depth: usize) -> Option<Statement>
    ensures { IfSome result (λ found. Takes (held_in (branch_variant (block_within depth)))
        (value_of_statement found) reader.old reader.new) }
{
    take_begin(reader)?;
    let condition = take_field(alloc, reader, "condition")?;
    let accept = take_block_field(alloc, reader, "accept", depth)?;
    let reject = take_block_field(alloc, reader, "reject", depth)?;
    take_end(reader)?;
    Some(Statement::If {
        condition,
        accept,
        reject,
    })
}

/// Takes what a `Loop` holds.
#[cycle(block)]
fn take_loop(alloc: Global, reader: &mut Reader<'_>, depth: usize) -> Option<Statement>
    ensures { IfSome result (λ found. Takes (held_in (loop_variant (block_within depth)))
        (value_of_statement found) reader.old reader.new) }
{
    take_begin(reader)?;
    let body = take_block_field(alloc, reader, "body", depth)?;
    let continuing = take_block_field(alloc, reader, "continuing", depth)?;
    let break_if = take_field(alloc, reader, "break_if")?;
    take_end(reader)?;
    Some(Statement::Loop {
        body,
        continuing,
        break_if,
    })
}

/// Takes what a `Switch` holds.
#[cycle(block)]
fn take_switch(alloc: Global, reader: &mut Reader<'_>, depth: usize) -> Option<Statement>
    ensures { IfSome result (λ found. Takes (held_in (switch_variant (block_within depth)))
        (value_of_statement found) reader.old reader.new) }
{
    take_begin(reader)?;
    let selector = take_field(alloc, reader, "selector")?;
    let cases = take_cases(alloc, reader, "cases", depth)?;
    take_end(reader)?;
    Some(Statement::Switch { selector, cases })
}

/// Takes the list of cases in a field.
#[cycle(block)]
fn take_cases(
    alloc: Global,
    reader: &mut Reader<'_>,
    name: &str,
    depth: usize,
) -> Option<Vec<SwitchCase>>
    ensures { IfSome result (λ found. TakesField name.now (each_in (case_codec (block_within depth)).decode)
        (map value_of_case found.items) reader.old reader.new) }
{
    take_key(reader, name)?;
    take_begin_list(reader)?;
    let mut cases = Vec::new(alloc);
    'cases: while !reader.take_end_array() {
        let case = take_case(alloc, reader, depth)?;
        let Ok(()) = cases.push(case) else {
            return None;
        };
    }
    Some(cases)
}

/// Takes a case of a switch.
#[cycle(block)]
fn take_case(alloc: Global, reader: &mut Reader<'_>, depth: usize) -> Option<SwitchCase>
    ensures { IfSome result (λ found. Takes (case_codec (block_within depth)).decode (value_of_case found)
        reader.old reader.new) }
{
    take_begin(reader)?;
    let value = take_field(alloc, reader, "value")?;
    let body = take_block_field(alloc, reader, "body", depth)?;
    let fall_through = take_field(alloc, reader, "fall_through")?;
    take_end(reader)?;
    Some(SwitchCase {
        value,
        body,
        fall_through,
    })
}
