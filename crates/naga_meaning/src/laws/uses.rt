//! Laws of the check of uses: which commands build bodies that pass it, what passes keep of it, and that in a body which
//! passes it, the values of what has not been evaluated do not matter.
ghost use Rattle.std.specs.FinSet.{contains};
ghost use Rattle.std.specs.List.{All};
ghost use Rattle.std.specs.Prelude.{◌<◌, ◌≡◌, Bool, List, [], length, true, ℕ};
ghost use Rattle.naga_arena.specs.declared.span.Span.{Span};
ghost use Rattle.naga_compact.specs.Culling.{culled};
ghost use Rattle.naga_compact.specs.Functions.{CompactsFunction};
ghost use Rattle.naga_compact.specs.Kept.{new_index};
ghost use Rattle.naga_compact.specs.Module.Compaction.{CompactsModule};
ghost use Rattle.naga_compact.specs.Operands.{OperandsPrecede, used_by};
ghost use Rattle.naga_compact.specs.Renaming.{Renaming};
ghost use Rattle.naga_compact.specs.Renaming.Blocks.{rename_tree};
ghost use Rattle.naga_compact.specs.declared.module.renumbering.ModuleRenumbering.{ModuleRenumbering};
ghost use Rattle.naga_compact.specs.declared.module.roots.KeepUnused.{KeepUnused};
ghost use Rattle.naga_flow.specs.Bodies.{BodiesPass, BodyPasses};
ghost use Rattle.naga_flow.specs.Readings.{constant_chains_in, expressions_by};
ghost use Rattle.naga_flow.specs.Scopes.{EvaluatedOnce};
ghost use Rattle.naga_flow.specs.Tracking.{IsDistinct};
ghost use Rattle.naga_flow.specs.Uses.{Expressions, UsesKnown, expressions_in};
ghost use Rattle.naga_flow.specs.Ways.{ways_of};
ghost use Rattle.naga_ir.specs.Block.{pairs};
ghost use Rattle.naga_ir.specs.Tree.{Tree};
ghost use Rattle.naga_ir.specs.View.{tree_of};
ghost use Rattle.naga_ir.specs.declared.expression.Expression.{Expression};
ghost use Rattle.naga_ir.specs.declared.module.Function.{Function};
ghost use Rattle.naga_ir.specs.declared.module.Module.{Module};
ghost use Rattle.naga_meaning.specs.Evaluated.{EvaluatesBeforeUse, results};
ghost use Rattle.naga_meaning.specs.Functions.{HandlesAreInside, Meanings, code_of, meaning, parts};
ghost use Rattle.naga_meaning.specs.Readings.{IndicesAreValues, IsClosedReading, ReadsAlike, by_chains, chains_in, read_by};
ghost use Rattle.naga_meaning.specs.Renames.{AreKept, Renames};
ghost use Rattle.naga_meaning.specs.Values.{World, outcome};
ghost use Rattle.naga_proc.specs.Building.{IsInTurn, appended, listed};
ghost use Rattle.naga_proc.specs.Closing.{closed};
ghost use Rattle.naga_proc.specs.declared.builder.BuildCommand.{BuildCommand};
ghost use Rattle.naga_proc.specs.declared.terminator.rule.Rule.{Rule};
ghost use Rattle.naga_sets.specs.HandleSet.{BoundedSet};
ghost use Rattle.naga_valid.specs.Valid.{HandlesAreValid};
ghost use Rattle.naga_valid.specs.declared.reference.Reference.{Reference};

/// Suppose that commands append the expressions that are to be emitted exactly while the emitter is running, and push
/// statements without blocks only while it is not. If the operands of an expression to be emitted and the expressions
/// that a statement uses are appended before, and the statements of results among them are pushed before, the body that
/// is built passes the checks of jumps and of uses, if no two of the statements have the same result.
pub fn evaluating_before_use_passes()
    ensures { (commands : List BuildCommand) (whole : Function)
        → EvaluatesBeforeUse commands → IsDistinct (results commands) → IsInTurn commands (length commands)
        → whole.expressions ≡ appended commands → pairs whole.body ≡ listed commands → BodyPasses whole }
{}

/// If each value of a body is evaluated before it is used, so is each value that culling leaves. If none is evaluated
/// again in its scope, this is still so.
pub fn culling_keeps_uses()
    ensures uses { (expressions : Expressions) (body : Tree)
        → UsesKnown expressions [] body → UsesKnown expressions [] (culled body) }
    ensures once { (scope : List ℕ) (body : Tree) → EvaluatedOnce scope body → EvaluatedOnce scope (culled body) }
{}

/// If each value of a body is evaluated before it is used, this is still so after closing, by either rule. If none is
/// evaluated again in its scope, this is still so, too.
pub fn closing_keeps_uses()
    ensures uses { (rule : Rule) (expressions : Expressions) (body : Tree)
        → UsesKnown expressions [] body → UsesKnown expressions [] (closed rule body) }
    ensures once { (rule : Rule) (scope : List ℕ) (body : Tree)
        → EvaluatedOnce scope body → EvaluatedOnce scope (closed rule body) }
{}

/// Culling keeps the ways in which control can leave a block.
pub fn culling_keeps_ways()
    ensures { (block : Tree) → ways_of (culled block) ≡ ways_of block }
{}

/// If each value of a body is evaluated before it is used, this is still so after its handles are renamed and some
/// expressions are removed, as long as no expression is removed that the body uses. So it is with expressions that are
/// evaluated once in their scope.
pub fn renaming_keeps_uses()
    ensures uses { (kept : ℕ → Bool) (renaming : Renaming) (old new : Expressions) (body : Tree)
        → Renames kept renaming old new → AreKept kept (used_by body)
        → UsesKnown old [] body → UsesKnown new [] (rename_tree renaming body) }
    ensures once { (kept : ℕ → Bool) (renaming : Renaming) (old new : Expressions) (body : Tree)
        → Renames kept renaming old new → AreKept kept (used_by body)
        → EvaluatedOnce [] body → EvaluatedOnce [] (rename_tree renaming body) }
{}

/// If each value of a function's body is evaluated before it is used, this is still so after the function is compacted,
/// as long as the function's arena contains the expressions that its body uses. So it is by any reading that compaction
/// carries along, and with expressions that are evaluated once in their scope.
pub fn compacting_keeps_uses()
    ensures uses { (old new : Function) (kept : BoundedSet)
        → CompactsFunction old kept new → All (λ handle. handle < length old.expressions) (used_by (tree_of old.body))
        → UsesKnown (expressions_in old.expressions) [] (tree_of old.body)
        → UsesKnown (expressions_in new.expressions) [] (tree_of new.body) }
    ensures by_readings { (old new : Function) (kept : BoundedSet) (at_use at_use' : ℕ → Bool)
        → CompactsFunction old kept new → All (λ handle. handle < length old.expressions) (used_by (tree_of old.body))
        → ((x : ℕ) → contains kept.members x ≡ true → at_use' (new_index kept x) ≡ at_use x)
        → UsesKnown (expressions_by at_use old.expressions) [] (tree_of old.body)
        → UsesKnown (expressions_by at_use' new.expressions) [] (tree_of new.body) }
    ensures once { (old new : Function) (kept : BoundedSet)
        → CompactsFunction old kept new → All (λ handle. handle < length old.expressions) (used_by (tree_of old.body))
        → EvaluatedOnce [] (tree_of old.body) → EvaluatedOnce [] (tree_of new.body) }
{}

/// If the bodies of a valid module pass the checks of jumps and of uses, so do those of the compacted module.
pub fn compacting_keeps_bodies()
    ensures { (old : Module) (keep_unused : KeepUnused) (kept : ModuleRenumbering) (new : Module)
        → HandlesAreValid old → CompactsModule old keep_unused kept new → BodiesPass old → BodiesPass new }
{}

/// In a body that uses only what has been evaluated, as the check of uses has it, the values of what has not been
/// evaluated do not matter. The index of an access must be no access chain that is evaluated where it is used.
pub fn values_before_do_not_matter<Thing, Value, State>()
    ensures { (look : Reference → Thing) (by : Meanings Thing Value State) (arena : List (Expression × Span))
        → OperandsPrecede arena → IndicesAreValues arena
        → (block : Tree) → UsesKnown (expressions_in arena) [] block
        → (turns : ℕ) (a b : World Value State) → b.state ≡ a.state
        → outcome (parts look) by (code_of look (chains_in arena) arena) turns block b
        ≡ outcome (parts look) by (code_of look (chains_in arena) arena) turns block a }
{}

/// Values before do not matter by any reading in which the operands of what is evaluated where it is used are evaluated
/// there too. Nothing is required of indices. The narrow reading is such a reading.
pub fn values_before_do_not_matter_by_closed_readings<Thing, Value, State>()
    ensures all { (look : Reference → Thing) (by : Meanings Thing Value State) (at_use : ℕ → Bool)
        (arena : List (Expression × Span)) → OperandsPrecede arena → IsClosedReading at_use arena
        → (block : Tree) → UsesKnown (expressions_by at_use arena) [] block
        → (turns : ℕ) (a b : World Value State) → b.state ≡ a.state
        → outcome (parts look) by (code_of look at_use arena) turns block b
        ≡ outcome (parts look) by (code_of look at_use arena) turns block a }
    ensures narrow { (chosen : ℕ → Bool) (arena : List (Expression × Span)) → OperandsPrecede arena
        → IsClosedReading (constant_chains_in chosen arena) arena }
{}

/// Compacting a function whose body uses only what has been evaluated, as the check of uses has it, keeps its
/// meaning, whatever values were there before.
pub fn compacting_checked_functions_keeps_meanings<Thing, Value, State>()
    ensures { (old new : Function) (kept : BoundedSet) → CompactsFunction old kept new → HandlesAreInside old
        → IndicesAreValues old.expressions → UsesKnown (expressions_in old.expressions) [] (tree_of old.body)
        → (look : Reference → Thing) (by : Meanings Thing Value State) (turns : ℕ) (a b : World Value State)
        → b.state ≡ a.state
        → meaning look by turns (by_chains new) b ≡ meaning look by turns (by_chains old) a }
{}

/// Compaction keeps the meaning of such a function, too, by any reading in which the operands of what is evaluated
/// where it is used are evaluated there too.
pub fn compacting_checked_functions_keeps_meanings_by_closed_readings<Thing, Value, State>()
    ensures { (old new : Function) (kept : BoundedSet) → CompactsFunction old kept new → HandlesAreInside old
        → (at_use at_use' : ℕ → Bool) → IsClosedReading at_use old.expressions
        → ReadsAlike (contains kept.members) (new_index kept) at_use at_use'
        → UsesKnown (expressions_by at_use old.expressions) [] (tree_of old.body)
        → (look : Reference → Thing) (by : Meanings Thing Value State) (turns : ℕ) (a b : World Value State)
        → b.state ≡ a.state
        → meaning look by turns (read_by at_use' new) b ≡ meaning look by turns (read_by at_use old) a }
{}
