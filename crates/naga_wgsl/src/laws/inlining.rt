//! Expressions may be evaluated where they are used, in place of at their `Emit`, if nothing changes their values.
ghost use Rattle.std.specs.Prelude.{◌≡◌, Bool, List, [], false, true, ℕ};
ghost use Rattle.naga_arena.specs.Arena.{value_at};
ghost use Rattle.naga_arena.specs.declared.span.Span.{Span};
ghost use Rattle.naga_ir.specs.Tree.{Tree};
ghost use Rattle.naga_ir.specs.declared.expression.Expression.{Expression};
ghost use Rattle.naga_valid.specs.declared.reference.Reference.{Reference};
ghost use Rattle.naga_flow.specs.Readings.{constant_chains_in, expressions_by};
ghost use Rattle.naga_flow.specs.Uses.{UsesKnown, expressions_in};
ghost use Rattle.naga_compact.specs.Operands.{OperandsPrecede};
ghost use Rattle.naga_meaning.specs.Examples.{nothing_known, numbers};
ghost use Rattle.naga_meaning.specs.Functions.{Meanings, code_of, parts};
ghost use Rattle.naga_meaning.specs.InScope.{EvaluatesNew};
ghost use Rattle.naga_meaning.specs.Readings.{IndicesAreValues, IsClosedReading, chains_in};
ghost use Rattle.naga_meaning.specs.Replacing.{ChainsGoBack};
ghost use Rattle.naga_meaning.specs.Values.{Code, Interpretation, Parts, World, outcome};
ghost use Rattle.naga_wgsl.specs.Inlining.{MayInline, skipping, with_inline};
ghost use Rattle.naga_wgsl.specs.Pure.{PureIsSteady, may_be_inline};

/// A body has the same outcome if inline expressions are evaluated where they are used, in place of at their `Emit`, if it
/// uses only what has been evaluated and evaluates no expression that is known: by closed readings, and by that of the
/// check of uses.
pub fn inlining_keeps_outcomes<Thing, Value, State>()
    ensures closed { (look : Reference → Thing) (by : Meanings Thing Value State) (at_use inline : ℕ → Bool)
        (arena : List (Expression × Span)) → OperandsPrecede arena → IsClosedReading at_use arena
        → MayInline by (expressions_in arena) inline (code_of look at_use arena)
        → (body : Tree) → EvaluatesNew body → UsesKnown (expressions_by at_use arena) [] body
        → (turns : ℕ) (a b : World Value State) → b.state ≡ a.state
        → outcome (parts look) by (code_of look (with_inline at_use inline) arena) turns body b
        ≡ outcome (parts look) by (code_of look at_use arena) turns body a }
    ensures chains { (look : Reference → Thing) (by : Meanings Thing Value State) (inline : ℕ → Bool)
        (arena : List (Expression × Span)) → OperandsPrecede arena → IndicesAreValues arena
        → MayInline by (expressions_in arena) inline (code_of look (chains_in arena) arena)
        → (body : Tree) → EvaluatesNew body → UsesKnown (expressions_in arena) [] body
        → (turns : ℕ) (a b : World Value State) → b.state ≡ a.state
        → outcome (parts look) by (code_of look (with_inline (chains_in arena) inline) arena) turns body b
        ≡ outcome (parts look) by (code_of look (chains_in arena) arena) turns body a }
{}

/// An `Emit` need not evaluate what is evaluated where it is used.
pub fn emits_may_be_skipped<Shape, Action, Value, State>()
    ensures { (parts : Parts Action) (by : Interpretation Shape Action Value State) (code : Code Shape)
        (skipped : ℕ → Bool) → ChainsGoBack by code → ((x : ℕ) → skipped x ≡ true → code.at_use x ≡ true)
        → (turns : ℕ) (body : Tree) (a b : World Value State) → b.state ≡ a.state
        → ((x : ℕ) → code.at_use x ≡ false → b.values x ≡ a.values x)
        → outcome (skipping skipped parts) by code turns body b ≡ outcome parts by code turns body a }
{}

/// Pure expressions that an `Emit` evaluates may be inline, in the reading of the check of uses and in the narrow one.
pub fn pure_expressions_may_be_inline<Thing, Value, State>()
    ensures chains { (look : Reference → Thing) (by : Meanings Thing Value State) (inline : ℕ → Bool)
        (arena : List (Expression × Span)) → PureIsSteady look by
        → ((x : ℕ) → inline x ≡ true → may_be_inline (value_at arena x) ≡ true)
        → MayInline by (expressions_in arena) inline (code_of look (chains_in arena) arena) }
    ensures narrow { (look : Reference → Thing) (by : Meanings Thing Value State) (at_use inline : ℕ → Bool)
        (arena : List (Expression × Span)) → PureIsSteady look by
        → ((x : ℕ) → inline x ≡ true → may_be_inline (value_at arena x) ≡ true)
        → MayInline by (expressions_in arena) inline (code_of look (constant_chains_in at_use arena) arena) }
{}

/// There are interpretations under which what is pure is steady, though statements change the state: that by numbers is
/// one.
pub fn pure_numbers_are_steady()
    ensures { PureIsSteady nothing_known numbers }
{}
