//! Replacing expressions and statements by others that mean the same keeps meanings. Optimisations rest on this.
ghost use Rattle.std.specs.Prelude.{◌≡◌, ◌≤◌, ℕ, suc, Bool, List, [], None, Option};
ghost use Rattle.naga_arena.specs.declared.span.Span.{Span};
ghost use Rattle.naga_ir.specs.Tree.{Node, Tree, branch, empty, nested, plain, push};
ghost use Rattle.naga_ir.specs.declared.expression.Expression.{Expression};
ghost use Rattle.naga_ir.specs.declared.statement.Statement.{Statement};
ghost use Rattle.naga_ir.specs.declared.statement.Statement as statement;
ghost use Rattle.naga_valid.specs.declared.reference.Reference.{Reference};
ghost use Rattle.naga_flow.specs.Uses.{UsesKnown, expressions_in};
ghost use Rattle.naga_compact.specs.Operands.{OperandsPrecede};
ghost use Rattle.naga_meaning.specs.Alike.{Alike, AlikeStatements};
ghost use Rattle.naga_meaning.specs.Folding.{AreFolded, Folds, KeepsFolded};
ghost use Rattle.naga_meaning.specs.Forms.{ExpressionForm};
ghost use Rattle.naga_meaning.specs.Functions.{Meanings, code_of, parts};
ghost use Rattle.naga_meaning.specs.Machine.{Machine, IsIn, does};
ghost use Rattle.naga_flow.specs.Readings.{expressions_by};
ghost use Rattle.naga_meaning.specs.Readings.{IndicesAreValues, IsClosedReading, chains_in};
ghost use Rattle.naga_meaning.specs.Replacing.{ChainsGoBack, SameValues};
ghost use Rattle.naga_meaning.specs.Values.{Code, Interpretation, Parts, World, machine, outcome};

/// Where expressions are replaced by others that have the same values, each body keeps its outcome.
pub fn same_values_keep_outcomes<Shape, Action, Value, State>()
    ensures { (parts : Parts Action) (by : Interpretation Shape Action Value State) (old new : Code Shape)
        → SameValues by old new → ChainsGoBack by old → (turns : ℕ) (body : Tree) (start : World Value State)
        → outcome parts by new turns body start ≡ outcome parts by old turns body start }
{}

/// Where expressions are folded to constants, each body keeps its outcome, if they have their constants before.
pub fn folding_keeps_outcomes<Shape, Action, Value, State>()
    ensures { (parts : Parts Action) (by : Interpretation Shape Action Value State)
        (folded : ℕ → Bool) (constant : ℕ → Value) (old new : Code Shape)
        → Folds by folded constant old new → ChainsGoBack by old → (turns : ℕ) (body : Tree)
        → IsIn (KeepsFolded by folded constant parts) (λ handle. Unit {0}) body
        → (start : World Value State) → AreFolded by folded constant start.values
        → outcome parts by new turns body start ≡ outcome parts by old turns body start }
{}

/// Folding expressions to constants keeps the outcome of a body that uses only what has been evaluated, whatever
/// values were there before, by the reading of the check of uses and by closed readings.
pub fn folding_checked_bodies_keeps_outcomes<Thing, Value, State>()
    ensures chains { (look : Reference → Thing) (by : Meanings Thing Value State) (arena : List (Expression × Span))
        → OperandsPrecede arena → IndicesAreValues arena
        → (folded : ℕ → Bool) (constant : ℕ → Value) (new : Code (Option (ExpressionForm × List (Option Thing))))
        → Folds by folded constant (code_of look (chains_in arena) arena) new
        → (body : Tree) → IsIn (KeepsFolded by folded constant (parts look)) (λ handle. Unit {0}) body
        → UsesKnown (expressions_in arena) [] body
        → (turns : ℕ) (a b : World Value State) → b.state ≡ a.state
        → outcome (parts look) by new turns body b
        ≡ outcome (parts look) by (code_of look (chains_in arena) arena) turns body a }
    ensures closed { (look : Reference → Thing) (by : Meanings Thing Value State) (at_use : ℕ → Bool)
        (arena : List (Expression × Span)) → OperandsPrecede arena → IsClosedReading at_use arena
        → (folded : ℕ → Bool) (constant : ℕ → Value) (new : Code (Option (ExpressionForm × List (Option Thing))))
        → Folds by folded constant (code_of look at_use arena) new
        → (body : Tree) → IsIn (KeepsFolded by folded constant (parts look)) (λ handle. Unit {0}) body
        → UsesKnown (expressions_by at_use arena) [] body
        → (turns : ℕ) (a b : World Value State) → b.state ≡ a.state
        → outcome (parts look) by new turns body b ≡ outcome (parts look) by (code_of look at_use arena) turns body a }
{}

/// Where blocks and statements inside a block, at any depth, are replaced by others that do the same, the whole block
/// does the same. A branch on a condition that always holds does what its first block does.
pub fn meanings_are_a_congruence<State>()
    ensures all { (machine : Machine State) (old new : Tree) → Alike machine old new → (turns : ℕ) (state : State)
        → does machine turns new state ≡ does machine turns old state }
    ensures constant { (machine : Machine State) (condition answer : ℕ) (accept reject : Tree)
        → ((state : State) → machine.answer condition state ≡ suc answer)
        → AlikeStatements machine (branch condition accept reject) (nested accept) }
{}

/// An `Emit` ends no run, and one that evaluates nothing leaves every world as it is. Where a statement ends no run and
/// changes no state, a block does the same without it, if another statement follows, and it does what an empty block
/// does.
pub fn empty_emits_do_nothing<Thing, Value, State>()
    ensures unchanged { (look : Reference → Thing) (by : Meanings Thing Value State)
        (code : Code (Option (ExpressionForm × List (Option Thing)))) (first last : ℕ) → last ≤ first
        → (world : World Value State)
        → (machine (parts look) by code).perform (statement.Emit (first, last)) world ≡ world }
    ensures goes_on { (look : Reference → Thing) (by : Meanings Thing Value State)
        (code : Code (Option (ExpressionForm × List (Option Thing)))) (range : ℕ × ℕ) (world : World Value State)
        → (machine (parts look) by code).stop (statement.Emit range) world ≡ None }
    ensures removed { (machine : Machine State) (what : Statement)
        → ((state : State) → machine.perform what state ≡ state)
        → ((state : State) → machine.stop what state ≡ None)
        → (turns : ℕ) (front : Tree) (last : Node) (span span' : Span) (state : State)
        → does machine turns (push (push front (plain what) span) last span') state
        ≡ does machine turns (push front last span') state }
    ensures alike { (machine : Machine State) (what : Statement)
        → ((state : State) → machine.perform what state ≡ state)
        → ((state : State) → machine.stop what state ≡ None)
        → AlikeStatements machine (plain what) (nested empty) }
{}
