//! Laws of runs.
ghost use Rattle.std.specs.Prelude.{◌≡◌, ℕ, List, IsTrue, take, true};
ghost use Rattle.naga_arena.specs.declared.span.Span.{Span};
ghost use Rattle.naga_ir.specs.Tree.{Node, Tree, push};
ghost use Rattle.naga_ir.specs.View.{pushed};
ghost use Rattle.naga_ir.specs.declared.statement.Statement.{Statement};
ghost use Rattle.naga_runs.specs.Alike.{Alike};
ghost use Rattle.naga_runs.specs.Diverges.{diverges};
ghost use Rattle.naga_runs.specs.Runs.{BlockRuns, Run};
ghost use Rattle.naga_runs.specs.RunsFit.{NeverFallsOff, RunsFit};
ghost use Rattle.naga_runs.specs.declared.run.Ending.{Ending};

/// A block has exactly one run for each list of answers and each number of turns.
pub fn block_has_one_run()
    ensures { (turns : ℕ) (block : Tree) (answers : List ℕ)
        → (run : Run) × BlockRuns turns block answers run
        × ((other : Run) → BlockRuns turns block answers other → other ≡ run) }
{}

/// Only a normal ending is slipped.
pub fn only_normal_endings_are_slipped()
    ensures { (turns : ℕ) (block : Tree) (answers : List ℕ) (run : Run)
        → BlockRuns turns block answers run → IsTrue run.slipped → run.ending ≡ Ending.Normal }
{}

/// Answers that a run did not use make no difference: it is also the run for only the answers that it used.
pub fn unused_answers_make_no_difference()
    ensures { (turns : ℕ) (block : Tree) (answers : List ℕ) (run : Run)
        → BlockRuns turns block answers run → BlockRuns turns block (take run.used answers) run }
{}

/// If blocks inside a block, at any depth, are replaced by others that have their runs, the whole block keeps its runs:
/// each of them is one of the new block, and the new block has no others.
pub fn runs_are_a_congruence()
    ensures { (old new : Tree) → Alike old new → RunsFit old new × RunsFit new old }
{}

/// What follows a block that never falls off its end makes no difference: with it and without it, the block has the
/// same runs. This holds for one statement of a tree and for any number of statements.
pub fn what_is_never_reached_makes_no_difference()
    ensures one { (block : Tree) (last : Node) (span : Span)
        → NeverFallsOff block → RunsFit (push block last span) block × RunsFit block (push block last span) }
    ensures all { (block : Tree) (rest : List (Statement × Span))
        → NeverFallsOff block → RunsFit (pushed block rest) block × RunsFit block (pushed block rest) }
{}

/// No run of a block that diverges falls off its end.
///
/// A block diverges if one of its statements does. A statement diverges if it is a jump, a block that diverges, an `If`
/// of which both branches diverge, or a `Switch` without an exit of which each case diverges or falls through.
pub fn diverging_block_never_falls_off()
    ensures { (block : Tree) → diverges block ≡ true → NeverFallsOff block }
{}
