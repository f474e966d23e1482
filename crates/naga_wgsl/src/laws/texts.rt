//! The text of a function does what the function does.
ghost use Rattle.std.specs.FinSet.{contains};
ghost use Rattle.std.specs.List.{All};
ghost use Rattle.std.specs.Prelude.{◌≡◌, Bool, List, [], false, nat_eq, true, ℕ};
ghost use Rattle.naga_arena.specs.Arena.{value_at};
ghost use Rattle.naga_arena.specs.declared.span.Span.{Span};
ghost use Rattle.naga_ir.specs.Tree.{Tree};
ghost use Rattle.naga_ir.specs.View.{tree_of};
ghost use Rattle.naga_ir.specs.declared.expression.Expression.{Expression};
ghost use Rattle.naga_ir.specs.declared.module.Function.{Function};
ghost use Rattle.naga_sets.specs.HandleSet.{BoundedSet};
ghost use Rattle.naga_valid.specs.declared.reference.Reference.{Reference};
ghost use Rattle.naga_flow.specs.Readings.{constant_chains_in, emitted_in, expressions_by};
ghost use Rattle.naga_flow.specs.Scopes.{BlockPasses};
ghost use Rattle.naga_flow.specs.Uses.{UsesKnown, expressions_in};
ghost use Rattle.naga_compact.specs.Operands.{OperandsPrecede};
ghost use Rattle.naga_meaning.specs.Functions.{Meanings, code_of, meaning, parts};
ghost use Rattle.naga_meaning.specs.InScope.{EvaluatesNew};
ghost use Rattle.naga_meaning.specs.Readings.{IndicesAreValues, IsClosedReading, by_chains, chains_in, read_by};
ghost use Rattle.naga_meaning.specs.Values.{World, outcome};
ghost use Rattle.naga_wgsl.specs.Inlining.{MayInline, named_in, read_inline, skipping, text_meaning, with_inline};
ghost use Rattle.naga_wgsl.specs.Lowering.{begun, text_of_reading};
ghost use Rattle.naga_wgsl.specs.Pure.{PureIsSteady, may_be_inline};
ghost use Rattle.naga_wgsl.specs.Scopes.{Leaves, text_does};
ghost use Rattle.naga_wgsl.specs.WrittenOut.{AreWrittenOut};

/// A body has the same outcome if inline expressions are evaluated where they are used, and neither these nor those that
/// the reading evaluates there are evaluated by an `Emit`. So a text may write them out wherever they are used, and name
/// all others.
pub fn texts_keep_outcomes<Thing, Value, State>()
    ensures closed { (look : Reference → Thing) (by : Meanings Thing Value State) (at_use inline : ℕ → Bool)
        (arena : List (Expression × Span)) → OperandsPrecede arena → IsClosedReading at_use arena
        → MayInline by (expressions_in arena) inline (code_of look at_use arena)
        → (body : Tree) → EvaluatesNew body → UsesKnown (expressions_by at_use arena) [] body
        → (turns : ℕ) (a b : World Value State) → b.state ≡ a.state
        → outcome (skipping (with_inline at_use inline) (parts look)) by
        (code_of look (with_inline at_use inline) arena) turns body b
        ≡ outcome (parts look) by (code_of look at_use arena) turns body a }
    ensures chains { (look : Reference → Thing) (by : Meanings Thing Value State) (inline : ℕ → Bool)
        (arena : List (Expression × Span)) → OperandsPrecede arena → IndicesAreValues arena
        → MayInline by (expressions_in arena) inline (code_of look (chains_in arena) arena)
        → (body : Tree) → EvaluatesNew body → UsesKnown (expressions_in arena) [] body
        → (turns : ℕ) (a b : World Value State) → b.state ≡ a.state
        → outcome (skipping (with_inline (chains_in arena) inline) (parts look)) by
        (code_of look (with_inline (chains_in arena) inline) arena) turns body b
        ≡ outcome (parts look) by (code_of look (chains_in arena) arena) turns body a }
{}

/// Wherever a text that writes inline expressions out uses an expression, all that it names there has been evaluated in
/// scope, and is not written out itself.
pub fn names_are_in_scope<Thing, Value, State>()
    ensures known { (look : Reference → Thing) (by : Meanings Thing Value State) (at_use inline : ℕ → Bool)
        (arena : List (Expression × Span)) → OperandsPrecede arena → IsClosedReading at_use arena
        → MayInline by (expressions_in arena) inline (code_of look at_use arena)
        → (body : Tree) → UsesKnown (expressions_by at_use arena) [] body
        → UsesKnown (named_in (with_inline at_use inline) arena) [] body }
    ensures bound { (written : ℕ → Bool) (arena : List (Expression × Span)) → OperandsPrecede arena
        → (x : ℕ) → All (λ y. written y ≡ false) ((named_in written arena).reads x) }
{}

/// A function keeps its meaning where chosen pure expressions are written out, if nothing changes the values of pure
/// expressions: one whose body passes the check of uses, if the index of an access is no access chain, and one that passes
/// `check_emitted`, which demands an `Emit` of each access.
pub fn texts_keep_meanings<Thing, Value, State>()
    ensures chains { (inline : ℕ → Bool) (function : Function)
        → OperandsPrecede function.expressions → IndicesAreValues function.expressions
        → BlockPasses (expressions_in function.expressions) [] [] (tree_of function.body)
        → ((x : ℕ) → inline x ≡ true → may_be_inline (value_at function.expressions x) ≡ true)
        → (look : Reference → Thing) (by : Meanings Thing Value State) → PureIsSteady look by
        → (turns : ℕ) (start : World Value State)
        → text_meaning look by turns (read_inline (chains_in function.expressions) inline function) start
        ≡ meaning look by turns (by_chains function) start }
    ensures narrow { (at_use inline : ℕ → Bool) (function : Function) → OperandsPrecede function.expressions
        → BlockPasses (emitted_in at_use function.expressions) [] [] (tree_of function.body)
        → ((x : ℕ) → inline x ≡ true → may_be_inline (value_at function.expressions x) ≡ true)
        → (look : Reference → Thing) (by : Meanings Thing Value State) → PureIsSteady look by
        → (turns : ℕ) (start : World Value State)
        → text_meaning look by turns
        (read_inline (constant_chains_in at_use function.expressions) inline function) start
        ≡ meaning look by turns (read_by (constant_chains_in at_use function.expressions) function) start }
{}

/// The text of such a function, in which each name has the value of the innermost line in scope that binds it, leaves the
/// state, the ending and the value of the function's meaning, if all expressions have different names.
pub fn texts_do_what_functions_do<Name, Thing, Value, State>()
    ensures chains { (same : Name → Name → Bool) (name : ℕ → Name)
        → ((x y : ℕ) → same (name y) (name x) ≡ nat_eq y x)
        → (inline : ℕ → Bool) (function : Function)
        → OperandsPrecede function.expressions → IndicesAreValues function.expressions
        → BlockPasses (expressions_in function.expressions) [] [] (tree_of function.body)
        → ((x : ℕ) → inline x ≡ true → may_be_inline (value_at function.expressions x) ≡ true)
        → (look : Reference → Thing) (by : Meanings Thing Value State) → PureIsSteady look by
        → (turns : ℕ) (names : Name → Value) (start : World Value State)
        → let read = read_inline (chains_in function.expressions) inline function in
        Leaves same by
        (text_does same by turns (text_of_reading name look read) names (begun look by read start))
        (meaning look by turns (by_chains function) start) }
    ensures narrow { (same : Name → Name → Bool) (name : ℕ → Name)
        → ((x y : ℕ) → same (name y) (name x) ≡ nat_eq y x)
        → (at_use inline : ℕ → Bool) (function : Function) → OperandsPrecede function.expressions
        → BlockPasses (emitted_in at_use function.expressions) [] [] (tree_of function.body)
        → ((x : ℕ) → inline x ≡ true → may_be_inline (value_at function.expressions x) ≡ true)
        → (look : Reference → Thing) (by : Meanings Thing Value State) → PureIsSteady look by
        → (turns : ℕ) (names : Name → Value) (start : World Value State)
        → let read = read_inline (constant_chains_in at_use function.expressions) inline function in
        Leaves same by
        (text_does same by turns (text_of_reading name look read) names (begun look by read start))
        (meaning look by turns (read_by (constant_chains_in at_use function.expressions) function) start) }
{}

/// If the expressions that [`written_out`](crate::written_out) returns are written out, the text of such a function leaves
/// the state, the ending and the value of the function's meaning.
pub fn written_texts_do_what_functions_do<Name, Thing, Value, State>()
    ensures { (same : Name → Name → Bool) (name : ℕ → Name)
        → ((x y : ℕ) → same (name y) (name x) ≡ nat_eq y x)
        → (function : Function) (written : BoundedSet)
        → OperandsPrecede function.expressions → IndicesAreValues function.expressions
        → BlockPasses (expressions_in function.expressions) [] [] (tree_of function.body)
        → AreWrittenOut function written
        → (look : Reference → Thing) (by : Meanings Thing Value State) → PureIsSteady look by
        → (turns : ℕ) (names : Name → Value) (start : World Value State)
        → let read = read_by (contains written.members) function in
        Leaves same by
        (text_does same by turns (text_of_reading name look read) names (begun look by read start))
        (meaning look by turns (by_chains function) start) }
{}
