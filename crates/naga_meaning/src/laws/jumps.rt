//! Laws of the check of jumps: what passes keep of it, and what it says of a closed body.
ghost use Rattle.std.specs.Prelude.{◌≡◌, ◌⊎◌, ℕ, List, Option, true};
ghost use Rattle.naga_compact.specs.Culling.{culled};
ghost use Rattle.naga_compact.specs.Mapping.{map_tree};
ghost use Rattle.naga_compact.specs.Renaming.{Renaming};
ghost use Rattle.naga_compact.specs.Renaming.Blocks.{rename_tree};
ghost use Rattle.naga_flow.specs.Structured.{jumps_are_structured};
ghost use Rattle.naga_ir.specs.Tree.{Tree};
ghost use Rattle.naga_ir.specs.declared.statement.Statement.{Statement};
ghost use Rattle.naga_proc.specs.Closing.{FullyClosed, closed};
ghost use Rattle.naga_proc.specs.declared.terminator.rule.Rule.{Rule};
ghost use Rattle.naga_runs.specs.Runs.{BlockRuns, Run};
ghost use Rattle.naga_runs.specs.declared.run.Ending.{Ending};

/// If each jump of a body is allowed where it is, so is each jump that culling leaves.
pub fn culling_keeps_jumps()
    ensures { (body : Tree) → jumps_are_structured body ≡ true → jumps_are_structured (culled body) ≡ true }
{}

/// If each jump of a body is allowed where it is, so is each jump after closing, by either rule.
pub fn closing_keeps_jumps()
    ensures { (rule : Rule) (body : Tree)
        → jumps_are_structured body ≡ true → jumps_are_structured (closed rule body) ≡ true }
{}

/// Whether each jump of a body is allowed where it is does not change if handles are renamed, or if plain statements,
/// and the expressions that control flow depends on, are replaced by any functions.
pub fn renaming_keeps_jumps()
    ensures renaming { (r : Renaming) (body : Tree)
        → jumps_are_structured (rename_tree r body) ≡ jumps_are_structured body }
    ensures any { (on_plain : Statement → Statement) (on_expression : ℕ → ℕ) (body : Tree)
        → jumps_are_structured (map_tree on_plain on_expression body) ≡ jumps_are_structured body }
{}

/// If each jump of a body is allowed where it is, and the body is then closed by the new rule, each run of it returns,
/// ends the invocation or is cut.
pub fn checked_and_closed_body_returns()
    ensures { (body new : Tree) (turns : ℕ) (answers : List ℕ) (run : Run)
        → jumps_are_structured body ≡ true → FullyClosed body new → BlockRuns turns new answers run
        → ((value : Option ℕ) × (run.ending ≡ Ending.Return value)) ⊎ (run.ending ≡ Ending.Kill) ⊎ (run.ending ≡ Ending.Cut) }
{}
