//! Laws: what the checks of jumps and of uses say about runs.
ghost use Rattle.std.specs.Prelude.{◌≡◌, ◌≢◌, ◌⊎◌, ℕ, false, List, [], ◌∷◌, true, Option, IfSome};
ghost use Rattle.std.specs.List.{Contains};
ghost use Rattle.naga_arena.specs.declared.span.Span.{Span};
ghost use Rattle.naga_ir.specs.Tree.{Node, Tree, loop, push};
ghost use Rattle.naga_ir.specs.declared.module.Function.{Function};
ghost use Rattle.naga_ir.specs.declared.statement.Statement.{Statement};
ghost use Rattle.naga_runs.specs.Diverges.{diverges};
ghost use Rattle.naga_runs.specs.Runs.{BlockRuns, Run, StatementRuns};
ghost use Rattle.naga_runs.specs.RunsFit.{NeverFallsOff};
ghost use Rattle.naga_runs.specs.declared.run.Ending.{Ending};
ghost use Rattle.naga_valid.specs.Operands.{expressions_of};
ghost use Rattle.naga_valid.specs.Statements.{references_of_statement};
ghost use Rattle.naga_flow.specs.Bodies.{BodyPasses, HasFault};
ghost use Rattle.naga_flow.specs.declared.bodies.InvalidBody.{InvalidBody};
ghost use Rattle.naga_flow.specs.declared.exits.Exits.{Exits};
ghost use Rattle.naga_flow.specs.Documented.{UsesDocumented, only_first_ready, skips_an_emit};
ghost use Rattle.naga_flow.specs.Events.{UsesOnlyEvaluated, evaluated_in, events, events_of_statement, met_in};
ghost use Rattle.naga_flow.specs.Results.{result_of};
ghost use Rattle.naga_flow.specs.Scopes.{EvaluatedOnce, NodeEvaluatedOnce};
ghost use Rattle.naga_flow.specs.Structured.{is_structured, jumps_are_structured, may_end, node_is_structured};
ghost use Rattle.naga_flow.specs.Uses.{Expressions, UsesKnown, values_of};
ghost use Rattle.naga_flow.specs.Ways.{has_way, ways_of};

/// A body with a fault does not pass, unless the fault is that allocation fails.
pub fn a_body_with_a_fault_does_not_pass()
    ensures { (whole : Function) (fault : InvalidBody)
        → HasFault whole fault → fault ≢ InvalidBody.Memory → ¬ BodyPasses whole }
{}

/// If each jump of a block is allowed where it is, each run of the block ends in a way in which the block can be left.
pub fn runs_end_as_they_may()
    ensures { (around : Exits) (block : Tree) (turns : ℕ) (answers : List ℕ) (run : Run)
        → is_structured around block ≡ true → BlockRuns turns block answers run → may_end around run.ending ≡ true }
{}

/// If each jump of a body is allowed where it is, no run of the body ends by a break or a continue.
pub fn no_jump_leaves_a_body()
    ensures broken { (body : Tree) (turns : ℕ) (answers : List ℕ) (run : Run)
        → jumps_are_structured body ≡ true → BlockRuns turns body answers run → run.ending ≢ Ending.Break }
    ensures continued { (body : Tree) (turns : ℕ) (answers : List ℕ) (run : Run)
        → jumps_are_structured body ≡ true → BlockRuns turns body answers run → run.ending ≢ Ending.Continue }
{}

/// If each jump of a loop is allowed where it is, each run of its continuing block ends normally or is cut.
pub fn no_jump_leaves_a_continuing_block()
    ensures { (around : Exits) (body continuing : Tree) (break_if : Option ℕ) (turns : ℕ) (answers : List ℕ) (run : Run)
        → node_is_structured around (loop body continuing break_if) ≡ true → BlockRuns turns continuing answers run
        → (run.ending ≡ Ending.Normal) ⊎ (run.ending ≡ Ending.Cut) }
{}

/// If each jump of a body is allowed where it is, and no run of the body falls off its end, each run returns, ends the
/// invocation or is cut.
pub fn a_closed_body_returns()
    ensures { (body : Tree) (turns : ℕ) (answers : List ℕ) (run : Run)
        → jumps_are_structured body ≡ true → NeverFallsOff body → BlockRuns turns body answers run
        → ((value : Option ℕ) × (run.ending ≡ Ending.Return value)) ⊎ (run.ending ≡ Ending.Kill) ⊎ (run.ending ≡ Ending.Cut) }
{}

/// Each run of a block ends in one of the block's ways.
pub fn runs_end_in_a_way()
    ensures { (block : Tree) (turns : ℕ) (answers : List ℕ) (run : Run)
        → BlockRuns turns block answers run → has_way (ways_of block) run.ending ≡ true }
{}

/// If the end of a block is not among its ways, no run falls off the end. A block that diverges is one of these.
pub fn ways_tell_what_never_falls_off()
    ensures never { (block : Tree) → (ways_of block).falls_off ≡ false → NeverFallsOff block }
    ensures diverging { (block : Tree) → diverges block ≡ true → (ways_of block).falls_off ≡ false }
{}

/// If each expression of a body is evaluated before its value is used, each event of a run reads only expressions that
/// are ready when the function is entered, or that an earlier event of the run has evaluated.
pub fn runs_use_only_evaluated()
    ensures { (expressions : Expressions) (body : Tree) (turns : ℕ) (answers : List ℕ) (run : Run)
        → UsesKnown expressions [] body → (of_body : BlockRuns turns body answers run)
        → UsesOnlyEvaluated expressions (events of_body) }
{}

/// The plain statements among the events of a run are its trace, so that no use of a run is missing from its events.
pub fn events_meet_the_trace()
    ensures { (body : Tree) (turns : ℕ) (answers : List ℕ) (run : Run)
        → (of_body : BlockRuns turns body answers run) → met_in (events of_body) ≡ run.trace }
{}

/// The result of a statement is among the expressions to which the statement refers.
pub fn results_are_named()
    ensures { (statement : Statement)
        → IfSome (result_of statement) (λ result. Contains (expressions_of (references_of_statement statement)) result) }
{}

/// If a continuing block inherited all that the body of its loop evaluates, as naga documents it, a body would pass of
/// which a run uses an expression that was never evaluated. That body does not pass.
pub fn a_continuing_block_does_not_inherit_all()
    ensures passes { UsesDocumented only_first_ready [] skips_an_emit }
    ensures goes_wrong { (run : Run) × (of_body : BlockRuns 1 skips_an_emit (1 ∷ []) run)
        × (UsesOnlyEvaluated only_first_ready (events of_body) → ⊥) }
    ensures is_refused { UsesKnown only_first_ready [] skips_an_emit → ⊥ }
{}

/// What passes when some expressions are known passes when more are.
pub fn more_known_is_no_harm()
    ensures { (expressions : Expressions) (known more : List ℕ) (block : Tree)
        → ((x : ℕ) → Contains known x → Contains more x)
        → UsesKnown expressions known block → UsesKnown expressions more block }
{}

/// If a block evaluates nothing again in its scope, no event of a run evaluates what is in scope before the block. What
/// the statements before the last one have evaluated, the last one does not evaluate, whatever blocks it has, and what
/// the body of a loop may have evaluated, its continuing block does not.
pub fn nothing_is_evaluated_again_in_its_scope()
    ensures before { (scope : List ℕ) (block : Tree) (turns : ℕ) (answers : List ℕ) (run : Run) (x : ℕ)
        → EvaluatedOnce scope block → Contains scope x → (of_block : BlockRuns turns block answers run)
        → ¬ Contains (evaluated_in (events of_block)) x }
    ensures after { (scope : List ℕ) (front : Tree) (last : Node) (span : Span) (turns : ℕ) (answers : List ℕ) (run : Run)
        (x : ℕ) → EvaluatedOnce scope (push front last span) → Contains (values_of front) x
        → (of_last : StatementRuns turns last answers run) → ¬ Contains (evaluated_in (events_of_statement of_last)) x }
    ensures continuing { (scope : List ℕ) (body continuing : Tree) (break_if : Option ℕ) (turns : ℕ) (answers : List ℕ)
        (run : Run) (x : ℕ) → NodeEvaluatedOnce scope (loop body continuing break_if) → Contains (values_of body) x
        → (of_continuing : BlockRuns turns continuing answers run) → ¬ Contains (evaluated_in (events of_continuing)) x }
{}

/// What is evaluated once where some expressions are in scope is evaluated once where fewer are.
pub fn fewer_in_scope_is_no_harm()
    ensures { (scope fewer : List ℕ) (block : Tree) → ((x : ℕ) → Contains fewer x → Contains scope x)
        → EvaluatedOnce scope block → EvaluatedOnce fewer block }
{}
