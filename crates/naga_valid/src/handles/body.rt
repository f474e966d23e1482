//! Searches for handles outside their limits, in the statements of blocks.
ghost use Rattle.naga_ir.specs.View.{cases_of, node_of, tree_of};
ghost use Rattle.naga_valid.specs.Limits.{FindsOutside};
ghost use Rattle.naga_valid.specs.Statements.{references_of_cases, references_of_node, references_of_tree};

use super::lists::first_outside;
use crate::limits::Limits;
use crate::reference::Reference;
use naga_ir::{Block, Control, Statement, SwitchCase};

/// Returns a handle of the statements of a block, or of the blocks inside them, that is not within the limits.
///
/// The last statement is visited by the last call, so that a nest of last blocks uses no stack.
#[cycle(body)]
pub(super) fn first_outside_in_block(block: &Block, limits: &Limits) -> Option<Reference>
    ensures { FindsOutside limits.now (references_of_tree (tree_of block.now)) result }
{
    if block.is_empty() {
        return None;
    }
    let last = block.len() - 1;
    'front: for position in 0..last {
        let Some(statement) = block.get(position) else {
            unreachable!()
        };
        let found = first_outside_in_statement(statement, limits);
        if found.is_some() {
            return found;
        }
    }
    let Some(statement) = block.get(last) else {
        unreachable!()
    };
    first_outside_in_statement(statement, limits)
}

/// Returns a handle of a statement, or of the blocks inside it, that is not within the limits.
#[cycle(body)]
fn first_outside_in_statement(statement: &Statement, limits: &Limits) -> Option<Reference>
    ensures { FindsOutside limits.now (references_of_node (node_of statement.now)) result }
{
    let found = first_outside(statement, limits);
    if found.is_some() {
        return found;
    }
    match statement.control() {
        Control::Block(inner) => first_outside_in_block(inner, limits),
        Control::If { accept, reject, .. } => {
            let accepted = first_outside_in_block(accept, limits);
            if accepted.is_some() {
                return accepted;
            }
            first_outside_in_block(reject, limits)
        }
        Control::Switch { cases, .. } => first_outside_in_cases(cases, limits),
        Control::Loop {
            body,
            continuing,
            ..
        } => {
            let repeated = first_outside_in_block(body, limits);
            if repeated.is_some() {
                return repeated;
            }
            first_outside_in_block(continuing, limits)
        }
        Control::Plain
        | Control::Break
        | Control::Continue
        | Control::Return { .. }
        | Control::Kill => None,
    }
}

/// Returns a handle of the bodies of the cases of a switch that is not within the limits.
#[cycle(body)]
fn first_outside_in_cases(cases: &[SwitchCase], limits: &Limits) -> Option<Reference>
    ensures { FindsOutside limits.now (references_of_cases (cases_of cases.now)) result }
{
    for case in cases {
        let found = first_outside_in_block(&case.body, limits);
        if found.is_some() {
            return found;
        }
    }
    None
}
