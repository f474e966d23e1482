//! Replacing the handles that blocks contain.
ghost use Rattle.std.specs.Prelude.{◌≡◌};
ghost use Rattle.naga_ir.specs.View.{cases_of, node_of, tree_of};
ghost use Rattle.naga_compact.specs.Renaming.Blocks.{rename_cases, rename_node, rename_tree};

use super::{NewHandles, Rename};
use crate::derived::renaming::rename_plain;
use naga_ir::{Block, Statement, SwitchCase};

/// Replaces the handles that a block contains, in the blocks inside it, too, in place. Nothing is allocated.
///
/// The last statement is visited by the last call, so that a nest of last blocks uses no stack.
#[cycle(body)]
pub fn rename_block<N: NewHandles>(block: &mut Block, new: &N)
    ensures { tree_of block.new ≡ rename_tree (N.renaming new.now) (tree_of block.old) }
{
    if block.is_empty() {
        return;
    }
    let last = block.len() - 1;
    'front: for position in 0..last {
        let Some(statement) = block.get_mut(position) else {
            unreachable!()
        };
        rename_statement(statement, new);
    }
    let Some(statement) = block.get_mut(last) else {
        unreachable!()
    };
    rename_statement(statement, new)
}

/// Replaces the handles that a statement contains, in the blocks inside it, too.
#[cycle(body)]
fn rename_statement<N: NewHandles>(statement: &mut Statement, new: &N)
    ensures { node_of statement.new ≡ rename_node (N.renaming new.now) (node_of statement.old) }
{
    if statement.is_plain() {
        return rename_plain(statement, new);
    }
    match statement {
        Statement::Block(inner) => rename_block(inner, new),
        Statement::If {
            condition,
            accept,
            reject,
        } => {
            condition.rename(new);
            rename_block(accept, new);
            rename_block(reject, new)
        }
        Statement::Switch { selector, cases } => {
            selector.rename(new);
            rename_cases(cases, new)
        }
        Statement::Loop {
            body,
            continuing,
            break_if,
        } => {
            break_if.rename(new);
            rename_block(body, new);
            rename_block(continuing, new)
        }
        Statement::Return { value } => value.rename(new),
        Statement::Break => {}
        Statement::Continue => {}
        Statement::Kill => {}
        _ => unreachable!(),
    }
}

/// Replaces the handles that the bodies of cases contain.
#[cycle(body)]
fn rename_cases<N: NewHandles>(cases: &mut Vec<SwitchCase>, new: &N)
    ensures { cases_of cases.new.items ≡ rename_cases (N.renaming new.now) (cases_of cases.old.items) }
{
    'cases: for i in 0..cases.len() {
        let case = &mut cases[i];
        rename_block(&mut case.body, new);
    }
}
