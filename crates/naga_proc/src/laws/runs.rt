//! Laws of runs, and of the runs of closed blocks.
ghost use Rattle.std.specs.Prelude.{◌≡◌, ◌↔◌, ℕ, List, Option, false};
ghost use Rattle.naga_arena.specs.declared.span.Span.{Span};
ghost use Rattle.naga_kinds.specs.declared.switch.SwitchValue.{SwitchValue};
ghost use Rattle.naga_ir.specs.Tree.{Tree, empty, push, Node, loop, switch, Cases, case, no_cases};
ghost use Rattle.naga_runs.specs.Runs.{Run, StatementRuns};
ghost use Rattle.naga_runs.specs.declared.run.Ending.{Ending};
ghost use Rattle.naga_proc.specs.Closing.{Between, Closed, FullyClosed, IsCaseTail};
ghost use Rattle.naga_runs.specs.Exits.{breaks_out, has_exit};
ghost use Rattle.naga_proc.specs.Closing.FallenRuns.{Fallen};
ghost use Rattle.naga_runs.specs.RunsFit.{NeverFallsOff, RunsFit};
ghost use Rattle.naga_proc.specs.Closing.KeptRuns.{Spared, Turned};

pub use naga_runs::laws::{
    block_has_one_run, diverging_block_never_falls_off, only_normal_endings_are_slipped,
    runs_are_a_congruence, unused_answers_make_no_difference,
    what_is_never_reached_makes_no_difference,
};

/// Each run of a fully closed block is that of the original block, except that it returns where that run fell off the
/// end.
pub fn fully_closed_block_returns_where_it_fell_off()
    ensures { (b c : Tree) → FullyClosed b c → Fallen b c }
{}

/// No run of a fully closed block falls off its end.
pub fn fully_closed_block_never_falls_off()
    ensures { (b c : Tree) → FullyClosed b c → NeverFallsOff c }
{}

/// Each run of a closed block is that of the original block, except that it returns where that run fell off the end,
/// unless that run slipped out of a switch there.
pub fn closed_block_returns_where_it_fell_off()
    ensures { (b c : Tree) → Closed b c → Turned b c }
{}

/// Each run of a partly closed block is that of the original block, or returns where that run fell off the end.
pub fn partly_closed_block_returns_only_where_it_fell_off()
    ensures { (b c : Tree) → Between b c → Spared b c }
{}

/// The empty block falls off its end.
pub fn empty_block_falls_off()
    ensures { ¬ NeverFallsOff empty }
{}

/// A block never falls off its end if and only if nothing that follows it is run: a run of the block with one more
/// statement is a run of the block itself.
pub fn nothing_runs_after_a_block_that_never_falls_off()
    ensures { (block : Tree)
        → NeverFallsOff block ↔ ((last : Node) (span : Span) → RunsFit (push block last span) block) }
{}

/// If each run of a block is that of another block, except that it returns where that run fell off the end, the block
/// never falls off its end.
pub fn fallen_block_never_falls_off()
    ensures { (b c : Tree) → Fallen b c → NeverFallsOff c }
{}

/// A run ends a switch without an exit normally only by falling off the end of a tail block in it. It neither breaks
/// out of the switch nor goes past its last case, and it enters a case. So no return has to follow such a switch.
pub fn switch_without_an_exit_is_left_from_its_tails()
    ensures { (turns selector : ℕ) (cases : Cases) (answers : List ℕ) (run : Run)
        → has_exit cases ≡ false → StatementRuns turns (switch selector cases) answers run → run.ending ≡ Ending.Normal
        → (tail : Tree) × IsCaseTail tail cases × ¬ NeverFallsOff tail }
{}

/// A switch that has only a default case, which does not fall through, has an exit if and only if the body of that case
/// contains a break that leaves the switch. No break in an inner loop or switch does so.
pub fn lone_default_case_is_left_only_by_a_break()
    ensures alone { (body : Tree) → has_exit (case SwitchValue.Default body false no_cases) ≡ breaks_out body }
    ensures empty { breaks_out empty ≡ false }
    ensures in_loop { (front body continuing : Tree) (break_if : Option ℕ) (span : Span)
        → breaks_out (push front (loop body continuing break_if) span) ≡ breaks_out front }
    ensures in_switch { (front : Tree) (selector : ℕ) (cases : Cases) (span : Span)
        → breaks_out (push front (switch selector cases) span) ≡ breaks_out front }
{}
