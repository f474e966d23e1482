//! Blocks, and statements that contain them.
ghost use Rattle.std.specs.Prelude.{◌≡◌, ◌∷◌, [], ◌++◌, OnOk, codes};
ghost use Rattle.json.specs.Token.{key};
ghost use Rattle.naga_ir.specs.View.{cases_of};
ghost use Rattle.naga_json.specs.Block.{block_json, case_json, cases_json, statement_json, statements_json};
ghost use Rattle.naga_json.specs.Codec.{handle_codec};
ghost use Rattle.naga_json.specs.Lists.{items_of};
ghost use Rattle.naga_json.specs.Objects.{optional_json};
ghost use Rattle.naga_json.specs.StatementValue.{cases_value, nested, switch, value_of_block, value_of_statement};
ghost use Rattle.naga_json_write.specs.Appends.{Appends, append_fields, append_items, append_json, begun, ended};
ghost use Rattle.naga_json_write.specs.Encoding.{by_view};

use super::objects::{begin_variant, end_variant, write_field};
use crate::derived::statement::write_plain_statement;
use crate::to_json::ToJson;
use crate::writer::Writer;
use naga_arena::Handle;
use naga_ir::{Block, Expression, Statement, SwitchCase};
use std::alloc::AllocError;

impl ToJson for Block {
    ghost encoding = { by_view value_of_block block_json };

    fn write(&self, out: &mut Writer) -> Result<(), AllocError> {
        write_block(out, self)
    }
}

/// Appends a block.
#[cycle(block)]
fn write_block(out: &mut Writer, block: &Block) -> Result<(), AllocError>
    ensures before { out.new.before ≡ out.old.before }
    ensures tokens { Appends result out.old out.new (block_json (value_of_block block.now)) }
{
    out.begin_array()?;
    write_statements(out, block)
}

/// Appends the statements of a block, and after them the end of a list.
#[cycle(block)]
fn write_statements(out: &mut Writer, block: &Block) -> Result<(), AllocError>
    ensures before { out.new.before ≡ out.old.before }
    ensures tokens { OnOk result (out.new.tokens
        ≡ append_items out.old.tokens (items_of (statements_json (value_of_block block.now)))) }
{
    for statement in block {
        write_statement(out, statement)?;
    }
    out.end_array()
}

/// Appends a field that holds a block.
#[cycle(block)]
fn write_block_field(out: &mut Writer, name: &str, block: &Block) -> Result<(), AllocError>
    ensures before { out.new.before ≡ out.old.before }
    ensures tokens { OnOk result (out.new.tokens
        ≡ append_json (out.old.tokens ++ key name.now ∷ []) (block_json (value_of_block block.now))) }
{
    out.key(name)?;
    write_block(out, block)
}

/// Appends a statement, with the blocks in it.
#[cycle(block)]
fn write_statement(out: &mut Writer, statement: &Statement) -> Result<(), AllocError>
    ensures before { out.new.before ≡ out.old.before }
    ensures tokens { Appends result out.old out.new (statement_json (value_of_statement statement.now)) }
{
    if statement.is_plain() {
        return write_plain_statement(out, statement);
    }
    write_variants! { Statement, statement, out;
        Break,
        Continue,
        Return { value },
        Kill;
        Statement::Block(inner) => write_inner_block(out, inner),
        Statement::If { condition, accept, reject } => {
            write_accept(out, condition, accept)?;
            write_reject(out, reject)
        },
        Statement::Switch { selector, cases } => write_switch(out, selector, cases),
        Statement::Loop { body, continuing, break_if } => {
            write_body(out, body)?;
            write_continuing(out, continuing, break_if)
        },
        _ => unreachable!(),
    }
}

/// Appends a `Block`.
#[cycle(block)]
fn write_inner_block(out: &mut Writer, inner: &Block) -> Result<(), AllocError>
    ensures before { out.new.before ≡ out.old.before }
    ensures tokens { Appends result out.old out.new (statement_json (nested (value_of_block inner.now))) }
{
    out.begin_object()?;
    write_block_field(out, "Block", inner)?;
    out.end_object()
}

/// Appends an `If` up to its field `accept`.
#[cycle(block)]
fn write_accept(
    out: &mut Writer,
    condition: &Handle<Expression>,
    accept: &Block,
) -> Result<(), AllocError>
    ensures before { out.new.before ≡ out.old.before }
    ensures tokens { OnOk result (out.new.tokens ≡ append_fields (begun out.old.tokens (codes "If"))
        ((codes "condition", handle_codec.encode condition.now)
        ∷ (codes "accept", block_json (value_of_block accept.now)) ∷ [])) }
{
    begin_variant(out, "If")?;
    write_field(out, "condition", condition)?;
    write_block_field(out, "accept", accept)
}

/// Appends the field `reject` of an `If`, and the end of the statement.
#[cycle(block)]
fn write_reject(out: &mut Writer, reject: &Block) -> Result<(), AllocError>
    ensures before { out.new.before ≡ out.old.before }
    ensures tokens { OnOk result (out.new.tokens ≡ ended (append_fields out.old.tokens
        ((codes "reject", block_json (value_of_block reject.now)) ∷ []))) }
{
    write_block_field(out, "reject", reject)?;
    end_variant(out)
}

/// Appends a `Switch`.
#[cycle(block)]
fn write_switch(
    out: &mut Writer,
    selector: &Handle<Expression>,
    cases: &[SwitchCase],
) -> Result<(), AllocError>
    ensures before { out.new.before ≡ out.old.before }
    ensures tokens { Appends result out.old out.new
        (statement_json (switch selector.now (cases_value (cases_of cases.now)))) }
{
    begin_variant(out, "Switch")?;
    write_field(out, "selector", selector)?;
    out.key("cases")?;
    out.begin_array()?;
    write_cases(out, cases)?;
    end_variant(out)
}

/// Appends cases, and after them the end of a list.
#[cycle(block)]
fn write_cases(out: &mut Writer, cases: &[SwitchCase]) -> Result<(), AllocError>
    ensures before { out.new.before ≡ out.old.before }
    ensures tokens { OnOk result (out.new.tokens
        ≡ append_items out.old.tokens (items_of (cases_json (cases_value (cases_of cases.now))))) }
{
    for case in cases {
        write_case(out, case)?;
    }
    out.end_array()
}

/// Appends a case of a switch.
#[cycle(block)]
fn write_case(out: &mut Writer, case: &SwitchCase) -> Result<(), AllocError>
    ensures before { out.new.before ≡ out.old.before }
    ensures tokens { Appends result out.old out.new
        (case_json case.now.value (block_json (value_of_block case.now.body)) case.now.fall_through) }
{
    out.begin_object()?;
    write_field(out, "value", &case.value)?;
    write_block_field(out, "body", &case.body)?;
    write_field(out, "fall_through", &case.fall_through)?;
    out.end_object()
}

/// Appends a `Loop` up to its field `body`.
#[cycle(block)]
fn write_body(out: &mut Writer, body: &Block) -> Result<(), AllocError>
    ensures before { out.new.before ≡ out.old.before }
    ensures tokens { OnOk result (out.new.tokens ≡ append_fields (begun out.old.tokens (codes "Loop"))
        ((codes "body", block_json (value_of_block body.now)) ∷ [])) }
{
    begin_variant(out, "Loop")?;
    write_block_field(out, "body", body)
}

/// Appends the fields `continuing` and `break_if` of a `Loop`, and the end of the statement.
#[cycle(block)]
fn write_continuing(
    out: &mut Writer,
    continuing: &Block,
    break_if: &Option<Handle<Expression>>,
) -> Result<(), AllocError>
    ensures before { out.new.before ≡ out.old.before }
    ensures tokens { OnOk result (out.new.tokens ≡ ended (append_fields out.old.tokens
        ((codes "continuing", block_json (value_of_block continuing.now))
        ∷ (codes "break_if", optional_json handle_codec.encode break_if.now) ∷ []))) }
{
    write_block_field(out, "continuing", continuing)?;
    write_field(out, "break_if", break_if)?;
    end_variant(out)
}
