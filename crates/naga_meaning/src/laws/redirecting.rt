//! Redirecting uses to duplicates keeps outcomes. Removing duplicates rests on this.
ghost use Rattle.std.specs.Prelude.{◌≡◌, ℕ, Bool, List, [], Some};
ghost use Rattle.naga_arena.specs.declared.span.Span.{Span};
ghost use Rattle.naga_ir.specs.Tree.{Tree};
ghost use Rattle.naga_ir.specs.View.{tree_of};
ghost use Rattle.naga_ir.specs.declared.expression.Expression.{Expression};
ghost use Rattle.naga_ir.specs.declared.module.Function.{Function};
ghost use Rattle.naga_ir.specs.declared.statement.Statement.{Statement};
ghost use Rattle.naga_valid.specs.declared.reference.Reference.{Reference};
ghost use Rattle.naga_flow.specs.Scopes.{EvaluatedOnce};
ghost use Rattle.naga_flow.specs.Uses.{UsesKnown, expressions_in};
ghost use Rattle.naga_compact.specs.Mapping.{map_tree};
ghost use Rattle.naga_compact.specs.Operands.{OperandsPrecede};
ghost use Rattle.naga_meaning.specs.Duplicates.{adding_again, adding_elsewhere, adding_twice, doubled_expressions, loading_twice, redirected, returned_after, returned_by};
ghost use Rattle.naga_meaning.specs.Examples.{arena_of};
ghost use Rattle.naga_meaning.specs.Functions.{Meanings, code_of, meaning, parts};
ghost use Rattle.naga_meaning.specs.InScope.{EvaluatesNew};
ghost use Rattle.naga_meaning.specs.Machine.{IsIn};
ghost use Rattle.naga_flow.specs.Readings.{expressions_by};
ghost use Rattle.naga_meaning.specs.Readings.{IndicesAreValues, IsClosedReading, by_chains, chains_in, read_by};
ghost use Rattle.naga_meaning.specs.Redirecting.{AreSteady, Redirects, RedirectsFunction, RedirectsStatement};
ghost use Rattle.naga_meaning.specs.Values.{World, outcome};

/// Where uses of expressions are redirected to duplicates, a body keeps its outcome, if it uses only what has been
/// evaluated, before and after, and evaluates no expression that is known.
pub fn redirecting_uses_keeps_outcomes<Thing, Value, State>()
    ensures closed { (look : Reference → Thing) (by : Meanings Thing Value State) (at_use at_use' : ℕ → Bool)
        (old new : List (Expression × Span)) → OperandsPrecede old → OperandsPrecede new
        → IsClosedReading at_use old → IsClosedReading at_use' new
        → (r : ℕ → ℕ)
        → Redirects by (expressions_in old).evaluation r (code_of look at_use old) (code_of look at_use' new)
        → (on_plain : Statement → Statement) (body : Tree)
        → IsIn (λ what. RedirectsStatement (parts look) r what (on_plain what)) (λ handle. Unit {0}) body
        → EvaluatesNew body → UsesKnown (expressions_by at_use old) [] body
        → UsesKnown (expressions_by at_use' new) [] (map_tree on_plain r body)
        → (turns : ℕ) (a b : World Value State) → b.state ≡ a.state
        → outcome (parts look) by (code_of look at_use' new) turns (map_tree on_plain r body) b
        ≡ outcome (parts look) by (code_of look at_use old) turns body a }
    ensures chains { (look : Reference → Thing) (by : Meanings Thing Value State)
        (old new : List (Expression × Span)) → OperandsPrecede old → OperandsPrecede new
        → IndicesAreValues old → IndicesAreValues new
        → (r : ℕ → ℕ)
        → Redirects by (expressions_in old).evaluation r
        (code_of look (chains_in old) old) (code_of look (chains_in new) new)
        → (on_plain : Statement → Statement) (body : Tree)
        → IsIn (λ what. RedirectsStatement (parts look) r what (on_plain what)) (λ handle. Unit {0}) body
        → EvaluatesNew body → UsesKnown (expressions_in old) [] body
        → UsesKnown (expressions_in new) [] (map_tree on_plain r body)
        → (turns : ℕ) (a b : World Value State) → b.state ≡ a.state
        → outcome (parts look) by (code_of look (chains_in new) new) turns (map_tree on_plain r body) b
        ≡ outcome (parts look) by (code_of look (chains_in old) old) turns body a }
{}

/// Redirecting the uses in a function to expressions that are the same keeps its meaning, if it uses only what has been
/// evaluated, before and after, and evaluates no expression that is known: by the reading of the check of uses, and by
/// closed readings that read redirected uses alike.
pub fn redirected_functions_keep_their_meanings<Thing, Value, State>()
    ensures chains { (r : ℕ → ℕ) (old new : Function) → RedirectsFunction r old new
        → OperandsPrecede old.expressions → OperandsPrecede new.expressions → IndicesAreValues old.expressions
        → EvaluatesNew (tree_of old.body) → UsesKnown (expressions_in old.expressions) [] (tree_of old.body)
        → UsesKnown (expressions_in new.expressions) [] (tree_of new.body)
        → (look : Reference → Thing) (by : Meanings Thing Value State)
        → AreSteady by r (code_of look (chains_in old.expressions) old.expressions)
        → (turns : ℕ) (a b : World Value State) → b.state ≡ a.state
        → meaning look by turns (by_chains new) b ≡ meaning look by turns (by_chains old) a }
    ensures closed { (r : ℕ → ℕ) (old new : Function) → RedirectsFunction r old new
        → OperandsPrecede old.expressions → OperandsPrecede new.expressions
        → (at_use : ℕ → Bool) → IsClosedReading at_use old.expressions → ((x : ℕ) → at_use (r x) ≡ at_use x)
        → EvaluatesNew (tree_of old.body) → UsesKnown (expressions_by at_use old.expressions) [] (tree_of old.body)
        → UsesKnown (expressions_by at_use new.expressions) [] (tree_of new.body)
        → (look : Reference → Thing) (by : Meanings Thing Value State)
        → AreSteady by r (code_of look at_use old.expressions)
        → (turns : ℕ) (a b : World Value State) → b.state ≡ a.state
        → meaning look by turns (read_by at_use new) b ≡ meaning look by turns (read_by at_use old) a }
{}

/// A body that evaluates nothing again in its scope evaluates no expression that is known.
pub fn what_is_evaluated_once_is_new()
    ensures { (block : Tree) → EvaluatedOnce [] block → EvaluatesNew block }
{}

/// A sum that is evaluated twice is the same, whatever is stored between. This is not so if its operand is evaluated
/// again between, if the duplicate is evaluated only in a branch that is not taken, or if it is a load.
pub fn duplicates_are_computed()
    ensures twice { returned_by adding_twice ≡ Some 8 }
    ensures redirected_twice { returned_after adding_twice ≡ Some 8 }
    ensures again { returned_by adding_again ≡ Some 2 }
    ensures redirected_again { returned_after adding_again ≡ Some 8 }
    ensures elsewhere { returned_by adding_elsewhere ≡ Some 8 }
    ensures redirected_elsewhere { returned_after adding_elsewhere ≡ Some 0 }
    ensures loaded { returned_by loading_twice ≡ Some 1 }
    ensures redirected_loaded { returned_after loading_twice ≡ Some 7 }
{}

/// The body in which an operand is evaluated again evaluates what is known, and the first one only what is new. With
/// uses redirected, the body with the branch uses what has not been evaluated.
pub fn duplicates_are_judged()
    ensures new { EvaluatesNew adding_twice }
    ensures not_new { ¬ EvaluatesNew adding_again }
    ensures not_known { ¬ UsesKnown (expressions_in (arena_of doubled_expressions)) [] (redirected adding_elsewhere) }
{}
