//! Laws about the trees of blocks, in terms of the blocks and statements of the code.
ghost use Rattle.std.specs.Prelude.{◌≡◌, ◌<◌, ◌++◌, ◌∷◌, [], length};
ghost use Rattle.naga_ir.specs.Block.{pairs, room};
ghost use Rattle.naga_ir.specs.Lends.{with_statement};
ghost use Rattle.naga_ir.specs.Tree.{push, nested, branch, switch, loop};
ghost use Rattle.naga_ir.specs.View.{node_of, cases_of, tree, tree_of, tree_with};

use crate::block::Block;
use crate::expression::Expression;
use crate::statement::{Statement, SwitchCase};
use naga_arena::{Handle, Span};

/// Appending a statement to a block appends it to the tree of the block, which is otherwise unchanged.
pub fn tree_grows_at_its_end(block: &Block, statement: &Statement, span: Span)
    ensures { tree (pairs block.now ++ (statement.now, span) ∷ [])
        ≡ push (tree_of block.now) (node_of statement.now) span }
{}

/// The node of a statement that contains blocks contains the trees of these blocks.
pub fn held_blocks_are_seen_as_trees(
    condition: Handle<Expression>,
    first: &Block,
    second: &Block,
    cases: &Vec<SwitchCase>,
    break_if: Option<Handle<Expression>>,
)
    ensures block { node_of (Statement.Block first.now) ≡ nested (tree_of first.now) }
    ensures branches { node_of (Statement.If condition first.now second.now)
        ≡ branch condition (tree_of first.now) (tree_of second.now) }
    ensures cases { node_of (Statement.Switch condition cases.now) ≡ switch condition (cases_of cases.now.items) }
    ensures turns { node_of (Statement.Loop first.now second.now break_if)
        ≡ loop (tree_of first.now) (tree_of second.now) break_if }
{}

/// Replacing the statement at a position changes the tree only there, and does not change the spare capacity.
///
/// Precondition: the position is below the length of the block.
pub fn writing_changes_one_statement(block: &Block, position: usize, statement: &Statement)
    requires { position < length (pairs block.now) }
    ensures changed { tree_of (with_statement block.now position statement.now)
        ≡ tree_with block.now position statement.now }
    ensures room { room (with_statement block.now position statement.now) ≡ room block.now }
{}
