//! Laws of passes that are called one after the other.
ghost use Rattle.std.specs.Prelude.{◌≡◌, ℕ, List, true};
ghost use Rattle.naga_arena.specs.declared.span.Span.{Span};
ghost use Rattle.naga_compact.specs.Compaction.{Compacts};
ghost use Rattle.naga_compact.specs.Culling.{IsCulled, culled};
ghost use Rattle.naga_compact.specs.Mapping.{map_tree};
ghost use Rattle.naga_compact.specs.Renaming.{Renaming};
ghost use Rattle.naga_compact.specs.Renaming.Blocks.{rename_tree};
ghost use Rattle.naga_ir.specs.Tree.{Tree};
ghost use Rattle.naga_ir.specs.declared.expression.Expression.{Expression};
ghost use Rattle.naga_ir.specs.declared.statement.Statement.{Statement};
ghost use Rattle.naga_proc.specs.Closing.{ClosedBy, FullyClosed, closed};
ghost use Rattle.naga_proc.specs.declared.terminator.rule.Rule.{Rule};
ghost use Rattle.naga_runs.specs.Diverges.{diverges};
ghost use Rattle.naga_runs.specs.RunsFit.{NeverFallsOff};
ghost use Rattle.naga_sets.specs.HandleSet.{BoundedSet};

/// Suppose that a block is culled and then closed by the new rule. Then no run falls off its end, and no statement
/// follows one that diverges, in the block and in all blocks inside it.
///
/// The culling is not needed for the first of these: each block that is closed by the new rule diverges, by its form
/// alone. And the second is true of each rule.
pub fn culled_and_closed_block_ends_where_it_diverges()
    ensures falls { (b c : Tree) → FullyClosed (culled b) c → NeverFallsOff c }
    ensures nothing_follows { (b c : Tree) → FullyClosed (culled b) c → IsCulled c }
    ensures diverges { (b c : Tree) → FullyClosed b c → diverges c ≡ true }
    ensures stays_culled { (rule : Rule) (b c : Tree) → IsCulled b → ClosedBy rule b c → IsCulled c }
{}

/// Closing a block and then culling it results in the same block as culling it and then closing it.
pub fn closing_and_culling_commute()
    ensures { (rule : Rule) (b : Tree) → culled (closed rule b) ≡ closed rule (culled b) }
{}

/// Closing a block and then renaming its handles results in the same block as renaming them and then closing it. The
/// same holds if plain statements, and the expressions that control flow depends on, are replaced by any functions.
pub fn closing_and_renaming_commute()
    ensures renaming { (rule : Rule) (r : Renaming) (b : Tree)
        → rename_tree r (closed rule b) ≡ closed rule (rename_tree r b) }
    ensures any { (rule : Rule) (on_plain : Statement → Statement) (on_expression : ℕ → ℕ) (b : Tree)
        → map_tree on_plain on_expression (closed rule b) ≡ closed rule (map_tree on_plain on_expression b) }
{}

/// Suppose that a body is compacted with its expressions. If it is closed first, the same expressions are kept, and the
/// new body is the closing of the new body.
pub fn closing_and_compacting_commute()
    ensures { (rule : Rule) (needed kept : BoundedSet) (old new : List (Expression × Span)) (b c : Tree)
        → Compacts needed old b kept new c → Compacts needed old (closed rule b) kept new (closed rule c) }
{}
