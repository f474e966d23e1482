//! Laws of closing.
ghost use Rattle.std.specs.Prelude.{◌≡◌, ◌↔◌, ℕ, Some, slice_get, slice_set};
ghost use Rattle.naga_arena.specs.Arena.{value_at, with_value};
ghost use Rattle.naga_ir.specs.Tree.{Tree};
ghost use Rattle.naga_ir.specs.View.{tree_of};
ghost use Rattle.naga_proc.specs.Closing.{Between, Closed, ClosedBy, FullyClosed, HasNoOpenTail, closed};
ghost use Rattle.naga_proc.specs.declared.terminator.rule.Rule.{Rule};
ghost use Rattle.naga_valid.specs.Statements.{references_of_tree};
ghost use Rattle.naga_valid.specs.Valid.{HandlesAreValid};

use naga_ir::{Block, EntryPoint, Function, Module};

/// Each block has exactly one closing by each rule, and that is `closed` of the block.
pub fn block_has_one_closing()
    ensures one { (rule : Rule) (b : Tree) → (c : Tree) × ClosedBy rule b c × ((d : Tree) → ClosedBy rule b d → d ≡ c) }
    ensures closed { (rule : Rule) (b c : Tree) → ClosedBy rule b c ↔ (c ≡ closed rule b) }
{}

/// Closing a closed block again by the same rule changes nothing.
pub fn closing_again_changes_nothing()
    ensures { (rule : Rule) (b c : Tree) → ClosedBy rule b c → ClosedBy rule c c }
{}

/// Suppose that a block got only some of its returns by the old rule, because an allocation failed. Closing it by the
/// old rule then results in the closing of the original block. This is not true for the new rule and a block that got
/// only some of its returns.
pub fn closing_goes_on_after_a_refusal()
    ensures { (b c d : Tree) → Between b c → Closed c d → Closed b d }
{}

/// Closing a block by the new rule, after it was closed by the old rule entirely or in part, results in the closing of
/// the original block by the new rule.
pub fn old_closing_goes_on_to_the_new_one()
    ensures closed { (b c d : Tree) → Closed b c → FullyClosed c d → FullyClosed b d }
    ensures between { (b c d : Tree) → Between b c → FullyClosed c d → FullyClosed b d }
{}

/// No tail block of a block that is closed by a rule gets a return by that rule.
pub fn closed_block_has_no_open_tail()
    ensures { (rule : Rule) (b c : Tree) → ClosedBy rule b c → HasNoOpenTail rule c }
{}

/// A block is its own closing by a rule if none of its tail blocks gets a return by that rule.
pub fn block_without_open_tail_is_its_closing()
    ensures { (rule : Rule) (b : Tree) → HasNoOpenTail rule b → ClosedBy rule b b }
{}

/// The blocks between a block and its closing by the old rule include the block itself and that closing.
pub fn block_and_its_closing_are_between()
    ensures block { (b : Tree) → Between b b }
    ensures closing { (b c : Tree) → Closed b c → Between b c }
{}

/// A block that is closed, entirely or in part, contains the same handles as the original block.
pub fn closing_adds_no_handles()
    ensures closed { (rule : Rule) (b c : Tree) → ClosedBy rule b c → references_of_tree c ≡ references_of_tree b }
    ensures between { (b c : Tree) → Between b c → references_of_tree c ≡ references_of_tree b }
{}

/// A valid module stays valid if the body of a function or of an entry point is closed by a rule.
pub fn closing_a_body_keeps_validity()
    ensures function { (rule : Rule) (whole : Module) (handle : ℕ) (declared : Function) (body : Block)
        → HandlesAreValid whole
        → value_at whole.functions handle ≡ Some declared
        → ClosedBy rule (tree_of declared.body) (tree_of body)
        → let replaced = record declared { body = body } in
        HandlesAreValid (record whole { functions = with_value whole.functions handle replaced }) }
    ensures entry_point { (rule : Rule) (old new : Module) (position : ℕ) (entry : EntryPoint) (body : Block)
        → HandlesAreValid old
        → slice_get old.entry_points.items position ≡ Some entry
        → ClosedBy rule (tree_of entry.function.body) (tree_of body)
        → (let replaced = record entry { function = record entry.function { body = body } } in
        new.entry_points.items ≡ slice_set old.entry_points.items position replaced)
        → new ≡ record old { entry_points = new.entry_points }
        → HandlesAreValid new }
{}

/// A valid module stays valid if the body of a function or of an entry point changes only in its spare capacity, as by
/// [`reserve_returns`](crate::reserve_returns), so that its statements are the same.
pub fn reserving_space_in_a_body_keeps_validity()
    ensures function { (whole : Module) (handle : ℕ) (declared : Function) (body : Block)
        → HandlesAreValid whole
        → value_at whole.functions handle ≡ Some declared
        → tree_of body ≡ tree_of declared.body
        → let reserved = record declared { body = body } in
        HandlesAreValid (record whole { functions = with_value whole.functions handle reserved }) }
    ensures entry_point { (old new : Module) (position : ℕ) (entry : EntryPoint) (body : Block)
        → HandlesAreValid old
        → slice_get old.entry_points.items position ≡ Some entry
        → tree_of body ≡ tree_of entry.function.body
        → (let reserved = record entry { function = record entry.function { body = body } } in
        new.entry_points.items ≡ slice_set old.entry_points.items position reserved)
        → new ≡ record old { entry_points = new.entry_points }
        → HandlesAreValid new }
{}
