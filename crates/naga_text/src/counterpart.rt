//! The blocks of an old body with which those of a new body are compared.
ghost use Rattle.std.specs.Prelude.{◌≡◌, ◌∷◌, [], Some, not, option_copied, slice_get};
ghost use Rattle.naga_ir.specs.Block.{statements};
ghost use Rattle.naga_ir.specs.View.{cases_of, node_of, tree_of};
ghost use Rattle.naga_text.specs.Counterparts.{block_at, blocks_of, bodies_of, inner_at, is_inserted, is_return, nodes, optional_tree};

use naga_ir::{Block, Control, Statement, SwitchCase};

/// Returns the counterpart of the block at an index among those of the statement at a position of a block, of which `old`
/// is the counterpart, or `None` if there is none.
pub fn inner_at(old: Option<&Block>, position: usize, index: usize) -> Option<&Block>
    ensures { optional_tree (option_copied result) ≡ inner_at (optional_tree (option_copied old.entry)) position index }
{
    match old {
        Some(block) => block_at(block, position, index),
        None => None,
    }
}

/// Returns the block at an index among those of the statement at a position of a block, or `None` if there is none.
fn block_at(block: &Block, position: usize, index: usize) -> Option<&Block>
    ensures { optional_tree (option_copied result) ≡ block_at (slice_get (nodes (tree_of block.now)) position) index }
{
    match block.get(position) {
        Some(statement) => block_of(statement, index),
        None => None,
    }
}

/// Returns the block at an index among those of a statement, or `None` if there is none.
fn block_of(statement: &Statement, index: usize) -> Option<&Block>
    ensures { optional_tree (option_copied result) ≡ slice_get (blocks_of (node_of statement.now)) index }
{
    match statement.control() {
        Control::Block(inner) => one_at(inner, index),
        Control::If { accept, reject, .. } => either_at(accept, reject, index),
        Control::Switch { cases, .. } => body_at(cases, index),
        Control::Loop {
            body,
            continuing,
            ..
        } => either_at(body, continuing, index),
        Control::Plain => None,
        Control::Break => None,
        Control::Continue => None,
        Control::Return { .. } => None,
        Control::Kill => None,
    }
}

/// Returns the only block of a statement at index 0, and `None` at other ones.
fn one_at(inner: &Block, index: usize) -> Option<&Block>
    ensures { optional_tree (option_copied result) ≡ slice_get (tree_of inner.now ∷ []) index }
{
    if index == 0 { Some(inner) } else { None }
}

/// Returns one of two blocks at the indices 0 and 1, and `None` at other ones.
fn either_at<'a>(first: &'a Block, second: &'a Block, index: usize) -> Option<&'a Block>
    ensures { optional_tree (option_copied result) ≡ slice_get (tree_of first.now ∷ tree_of second.now ∷ []) index }
{
    match index {
        0 => Some(first),
        1 => Some(second),
        _ => None,
    }
}

/// Returns the body of the case at an index, or `None` if there is none.
fn body_at(cases: &[SwitchCase], index: usize) -> Option<&Block>
    ensures { optional_tree (option_copied result) ≡ slice_get (bodies_of (cases_of cases.now)) index }
{
    match cases.get(index) {
        Some(case) => Some(&case.body),
        None => None,
    }
}

/// Returns whether a return at a position of a block is marked, of which `old` is the counterpart.
pub fn is_inserted(old: Option<&Block>, position: usize) -> bool
    ensures { result ≡ is_inserted (optional_tree (option_copied old.entry)) position }
{
    match old {
        Some(block) => !is_return_at(block, position),
        None => false,
    }
}

/// Returns whether the statement at a position of a block is a return.
fn is_return_at(block: &Block, position: usize) -> bool
    ensures { result ≡ is_return (slice_get (nodes (tree_of block.now)) position) }
{
    match block.get(position) {
        Some(statement) => is_return(statement),
        None => false,
    }
}

/// Returns whether a statement is a return.
fn is_return(statement: &Statement) -> bool
    ensures { result ≡ is_return (Some (node_of statement.now)) }
{
    match statement.control() {
        Control::Return { .. } => true,
        Control::Plain => false,
        Control::Block(_) => false,
        Control::If { .. } => false,
        Control::Switch { .. } => false,
        Control::Loop { .. } => false,
        Control::Break => false,
        Control::Continue => false,
        Control::Kill => false,
    }
}
