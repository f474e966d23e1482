//! Removing statements that follow one that diverges by its form.
ghost use Rattle.std.specs.Prelude.{◌≡◌};
ghost use Rattle.naga_ir.specs.View.{cases_of, node_of, tree_of};
ghost use Rattle.naga_runs.specs.Diverges.{cases_diverge, diverges, node_diverges};
ghost use Rattle.naga_runs.specs.RunsFit.{RunsFit};
ghost use Rattle.naga_compact.specs.Culling.{culled, culled_cases, culled_node};

use naga_ir::{Block, Statement, SwitchCase};
use naga_runs::has_exit;

/// Removes the statements that follow one that diverges, in the block and in all blocks inside it.
///
/// A statement diverges if, by its form alone, control never continues after it: a jump, a block in which a statement
/// diverges, an `If` of which both branches do, or a `Switch` without an exit of which each case does or falls through.
/// A `Loop` never counts as such a statement. A switch has an exit if it has no `Default` among its cases, if its last
/// case falls through, or if a `Break` leaves it. What counts are the breaks that are left after the cases themselves
/// have been culled.
///
/// Everything before is kept, with its spans. Each run of the block is the same as before. Nothing is allocated, and the
/// call cannot fail. By the laws [`culling_leaves_a_prefix`](crate::laws::culling_leaves_a_prefix) and
/// [`culling_again_changes_nothing`](crate::laws::culling_again_changes_nothing), each block keeps what is at its front,
/// and a second call removes nothing.
///
/// Differs from naga: naga has no such function, and its validator rejects a statement that follows a jump.
#[tactic(auto, using(crate::proofs::CulledLemmas::culled_blocks))]
pub fn cull_unreachable(block: &mut Block)
    ensures culled { tree_of block.new ≡ culled (tree_of block.old) }
    ensures runs_kept { RunsFit (tree_of block.old) (tree_of block.new) }
    ensures no_other_runs { RunsFit (tree_of block.new) (tree_of block.old) }
{
    cull_block(block);
}

/// Culls a block. Returns whether it diverges.
///
/// The last statement is culled by the last call, so that a nest of last blocks uses no stack.
#[cycle(cull)]
fn cull_block(block: &mut Block) -> bool
    ensures culled { tree_of block.new ≡ culled (tree_of block.old) }
    ensures diverges { result ≡ diverges (tree_of block.new) }
{
    if block.is_empty() {
        return false;
    }
    let last = block.len() - 1;
    'front: for position in 0..last {
        let Some(statement) = block.get_mut(position) else {
            unreachable!()
        };
        if cull_statement(statement) {
            block.truncate(position + 1);
            return true;
        }
    }
    let Some(statement) = block.get_mut(last) else {
        unreachable!()
    };
    cull_statement(statement)
}

/// Culls the blocks inside a statement. Returns whether the statement diverges.
#[cycle(cull)]
fn cull_statement(statement: &mut Statement) -> bool
    ensures culled { node_of statement.new ≡ culled_node (node_of statement.old) }
    ensures diverges { result ≡ node_diverges (node_of statement.new) }
{
    if statement.is_plain() {
        return false;
    }
    match statement {
        Statement::Block(inner) => cull_block(inner),
        Statement::If { accept, reject, .. } => {
            let accept_diverges = cull_block(accept);
            let reject_diverges = cull_block(reject);
            accept_diverges & reject_diverges
        }
        Statement::Switch { cases, .. } => {
            let diverge = cull_cases(cases);
            let exit = has_exit(cases);
            !exit & diverge
        }
        Statement::Loop {
            body,
            continuing,
            ..
        } => {
            cull_block(body);
            cull_block(continuing);
            false
        }
        Statement::Break => true,
        Statement::Continue => true,
        Statement::Return { .. } => true,
        Statement::Kill => true,
        _ => unreachable!(),
    }
}

/// Culls the bodies of the cases of a switch. Returns whether each case falls through or has a body that diverges.
#[cycle(cull)]
fn cull_cases(cases: &mut Vec<SwitchCase>) -> bool
    ensures culled { cases_of cases.new.items ≡ culled_cases (cases_of cases.old.items) }
    ensures diverge { result ≡ cases_diverge (cases_of cases.new.items) }
{
    let mut diverge = true;
    'cases: for i in 0..cases.len() {
        let case = &mut cases[i];
        let body_diverges = cull_block(&mut case.body);
        diverge = diverge & (case.fall_through | body_diverges);
    }
    diverge
}
