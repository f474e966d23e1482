//! The control flow of a body.
ghost use Rattle.std.specs.Prelude.{◌≡◌, ◌++◌, IfOk, OnOk, option_copied};
ghost use Rattle.naga_ir.specs.View.{cases_of, node_of, tree_of};
ghost use Rattle.naga_text.specs.Counterparts.{inner_at, optional_tree};
ghost use Rattle.naga_look.specs.Graph.Flow.{blocks_flow, cases_flow, edge_into, edge_to, edge_to_case, is_inserted_return, numbered, statement_node, tree_flow};
ghost use Rattle.naga_look.specs.Graph.{body_name};

use crate::graph::cluster::{Cluster, push_cluster_name};
use crate::graph::statement::{
    is_inserted_return, numbered, push_edge_into, push_edge_to, push_edge_to_case, push_node,
};
use naga_ir::{Block, Control, Module, Statement, SwitchCase};
use naga_text::{Text, inner_at};
use std::alloc::AllocError;

/// Appends the nodes of the statements of a body to a text, and the edges between them. If `old` is the counterpart of the
/// body, returns that it lacks are marked.
pub(crate) fn push_flow(
    text: &mut Text,
    module: &Module,
    place: Cluster,
    old: Option<&Block>,
    body: &Block,
) -> Result<(), AllocError>
    ensures { OnOk result (text.new ≡ text.old
        ++ tree_flow «module».now (body_name place) (optional_tree (option_copied old.entry)) (tree_of body.now)) }
{
    let name = body_name(text, place)?;
    push_block(text, module, &name, old, body)
}

/// Returns the identifier of the body of a function.
fn body_name(text: &Text, place: Cluster) -> Result<Text, AllocError>
    ensures { IfOk result (λ name. name ≡ body_name place) }
{
    let mut name = text.fresh();
    push_cluster_name(&mut name, place)?;
    name.push("_body")?;
    Ok(name)
}

/// Appends the statements of a block with this identifier, of which `old` is the counterpart.
#[cycle(flow)]
fn push_block(
    text: &mut Text,
    module: &Module,
    name: &Text,
    old: Option<&Block>,
    block: &Block,
) -> Result<(), AllocError>
    ensures { OnOk result (text.new ≡ text.old
        ++ tree_flow «module».now name.now (optional_tree (option_copied old.entry)) (tree_of block.now)) }
{
    for (position, statement) in block.into_iter().enumerate() {
        push_step(text, module, name, old, position, statement)?;
    }
    Ok(())
}

/// Appends the statement at a position of a block with this identifier, the edge from the statement before it, and the
/// blocks in it. `old` is the counterpart of the block.
#[cycle(flow)]
fn push_step(
    text: &mut Text,
    module: &Module,
    block: &Text,
    old: Option<&Block>,
    position: usize,
    statement: &Statement,
) -> Result<(), AllocError>
    ensures { OnOk result (text.new ≡ text.old ++ (edge_to block.now position
        ++ (statement_node «module».now (numbered block.now position)
        (is_inserted_return (optional_tree (option_copied old.entry)) position (node_of statement.now))
        (node_of statement.now)
        ++ blocks_flow «module».now (numbered block.now position) (optional_tree (option_copied old.entry)) position
        (node_of statement.now)))) }
{
    push_edge_to(text, block, position)?;
    let name = numbered(block, position)?;
    let marked = is_inserted_return(old, position, statement);
    push_node(text, module, &name, marked, statement)?;
    push_blocks(text, module, &name, old, position, statement)
}

/// Appends the blocks in a statement with this identifier, which is at a position of a block, of which `old` is the
/// counterpart.
#[cycle(flow)]
fn push_blocks(
    text: &mut Text,
    module: &Module,
    name: &Text,
    old: Option<&Block>,
    position: usize,
    statement: &Statement,
) -> Result<(), AllocError>
    ensures { OnOk result (text.new ≡ text.old
        ++ blocks_flow «module».now name.now (optional_tree (option_copied old.entry)) position (node_of statement.now)) }
{
    match statement.control() {
        Control::Block(inner) => {
            push_part(text, module, name, (0, "block"), old, position, inner)
        }
        Control::If { accept, reject, .. } => {
            push_part(text, module, name, (0, "accept"), old, position, accept)?;
            push_part(text, module, name, (1, "reject"), old, position, reject)
        }
        Control::Switch { cases, .. } => push_cases(text, module, name, old, position, cases),
        Control::Loop {
            body,
            continuing,
            ..
        } => {
            push_part(text, module, name, (0, "body"), old, position, body)?;
            let part = (1, "continuing");
            push_part(text, module, name, part, old, position, continuing)
        }
        Control::Plain => Ok(()),
        Control::Break => Ok(()),
        Control::Continue => Ok(()),
        Control::Return { .. } => Ok(()),
        Control::Kill => Ok(()),
    }
}

/// Appends the cases of a switch with this identifier, which is at a position of a block, of which `old` is the
/// counterpart.
#[cycle(flow)]
fn push_cases(
    text: &mut Text,
    module: &Module,
    name: &Text,
    old: Option<&Block>,
    position: usize,
    cases: &[SwitchCase],
) -> Result<(), AllocError>
    ensures { OnOk result (text.new ≡ text.old ++ cases_flow «module».now name.now
        (optional_tree (option_copied old.entry)) position 0 (cases_of cases.now)) }
{
    for (index, case) in cases.iter().enumerate() {
        let old_body = inner_at(old, position, index);
        push_case(text, module, name, index, old_body, case)?;
    }
    Ok(())
}

/// Appends the case with an index of a switch with this identifier, and the edge to it. `old` is the counterpart of its
/// body.
#[cycle(flow)]
fn push_case(
    text: &mut Text,
    module: &Module,
    name: &Text,
    index: usize,
    old: Option<&Block>,
    case: &SwitchCase,
) -> Result<(), AllocError>
    ensures { OnOk result (text.new ≡ text.old
        ++ (edge_to_case name.now (numbered name.now index) case.now.value (tree_of case.now.body) case.now.fall_through
        ++ tree_flow «module».now (numbered name.now index) (optional_tree (option_copied old.entry))
        (tree_of case.now.body))) }
{
    let inner = numbered(name, index)?;
    push_edge_to_case(text, name, &inner, case)?;
    push_block(text, module, &inner, old, &case.body)
}

/// Appends a block in a statement with this identifier, and the edge to it. `part` is the index of the block and its
/// label. The statement is at a position of a block, of which `old` is the counterpart.
#[cycle(flow)]
fn push_part(
    text: &mut Text,
    module: &Module,
    name: &Text,
    part: (usize, &str),
    old: Option<&Block>,
    position: usize,
    block: &Block,
) -> Result<(), AllocError>
    ensures { OnOk result (text.new ≡ text.old ++ (edge_into name.now part.entry.0 part.entry.1.now (tree_of block.now)
        ++ tree_flow «module».now (numbered name.now part.entry.0)
        (inner_at (optional_tree (option_copied old.entry)) position part.entry.0) (tree_of block.now))) }
{
    let (index, label) = part;
    let inner = numbered(name, index)?;
    push_edge_into(text, name, &inner, label, block)?;
    push_block(text, module, &inner, inner_at(old, position, index), block)
}
