//! Compacting the expressions of a body.
ghost use Rattle.std.specs.Prelude.{◌≡◌, IfOk, OnErr, length};
ghost use Rattle.naga_ir.specs.View.{tree_of};
ghost use Rattle.naga_compact.specs.Compaction.{Compacts};
ghost use Rattle.naga_compact.specs.Kept.{new_index};
ghost use Rattle.naga_compact.specs.Operands.{OperandsPrecede};
ghost use Rattle.naga_compact.specs.Renaming.{of_expressions};
ghost use Rattle.naga_compact.specs.Renaming.Runs.{RenamedRunsFit};

use crate::collect::collect_block;
use crate::mark::{Marks, mark_reached};
use crate::renaming::rename_block;
use crate::renumbering::Renumbering;
use naga_arena::Arena;
use naga_ir::{Block, Expression};
use naga_sets::HandleSet;
use std::alloc::{AllocError, Global};

/// Removes the expressions that are not needed, and renames the handles of the others in the arena and in the body.
///
/// An expression is needed if it is in `needed`, if the body uses its value, or if it is an operand of one that is
/// needed. The range of an `Emit` uses no value. Expressions that are kept stay in order, with their spans. The
/// returned `Renumbering` has the new handles, so that the caller can rename all other handles of the arena.
///
/// Each run of the body is the same as before, except that it has the new handles. If allocation fails, the arena and
/// the body are unchanged.
///
/// The caller must ensure that each expression refers only to earlier ones, which `operands_precede` tests, and that
/// `needed` was created for this arena.
pub fn compact_body(
    alloc: Global,
    expressions: &mut Arena<Expression>,
    body: &mut Block,
    needed: HandleSet<Expression>,
) -> Result<Renumbering<Expression>, AllocError>
    requires precede { OperandsPrecede expressions.old }
    requires bound { needed.bound ≡ length expressions.old }
    ensures compacted { IfOk result (λ renumbering.
        Compacts needed expressions.old (tree_of body.old) renumbering expressions.new (tree_of body.new)) }
    ensures runs { IfOk result (λ renumbering.
        RenamedRunsFit (of_expressions (new_index renumbering)) (tree_of body.old) (tree_of body.new)) }
    ensures expressions_unchanged { OnErr result (expressions.new ≡ expressions.old) }
    ensures body_unchanged { OnErr result (body.new ≡ body.old) }
{
    let mut marks = Marks::new(needed);
    collect_block(&mut marks, body);
    mark_reached(expressions, &mut marks);
    let renumbering = Renumbering::new(alloc, marks.finish())?;
    renumbering.retain_renamed(expressions, &renumbering)?;
    rename_block(body, &renumbering);
    Ok(renumbering)
}
