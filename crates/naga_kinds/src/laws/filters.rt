//! Laws of maps of filters, and of the paths that searches for a filter follow.
ghost use Rattle.std.specs.Prelude.{◌≡◌, ◌<◌, ◌↔◌, ◌∷◌, [], ◌++◌, ℕ, List, Option, IfSome, length};
ghost use Rattle.naga_arena.specs.declared.span.Span.{Span as Place};
ghost use Rattle.naga_kinds.specs.FilterMap.{first_of_each};
ghost use Rattle.naga_kinds.specs.Path.{Path, Descends};
ghost use Rattle.naga_kinds.specs.Search.{Finds, ParentsPrecede};
ghost use Rattle.naga_kinds.specs.declared.diagnostic_filter.DiagnosticFilterNode.{DiagnosticFilterNode as Node};
ghost use Rattle.naga_kinds.specs.declared.diagnostic_filter.FilterableTriggeringRule.{FilterableTriggeringRule as Rule};
ghost use Rattle.naga_kinds.specs.declared.diagnostic_filter.Severity.{Severity as Level};
ghost use Rattle.naga_kinds.specs.declared.diagnostic_filter.StandardFilterableTriggeringRule.{StandardFilterableTriggeringRule as Standard};

use crate::diagnostic_filter::FilterableTriggeringRule;

/// If each number is greater than the next one, there is exactly one path from each start.
pub fn descending_paths_are_unique()
    ensures { (next : ℕ → Option ℕ) (start : Option ℕ) → Descends next
        → (path : List ℕ) × Path next start path × ((other : List ℕ) → Path next start other → other ≡ path) }
{}

/// If parents precede their nodes, then appending a node changes no search from an older leaf.
pub fn added_nodes_change_no_older_search()
    ensures { (nodes : List (Node × Place)) (added : Node × Place) (leaf : Option ℕ) (rule : Standard)
        (found : Level × ℕ)
        → ParentsPrecede nodes → IfSome leaf (λ handle. handle < length nodes)
        → Finds nodes leaf rule found ↔ Finds (nodes ++ added ∷ []) leaf rule found }
{}

/// The first pair of each rule is kept, whatever is added later. A map that is filled by one `add` after another has
/// the first pair of each rule among all pairs that were added.
pub fn first_pairs_stay()
    ensures { (pairs : List (Rule × (Level × Place))) (pair : Rule × (Level × Place))
        → let same = ⟦<FilterableTriggeringRule as PartialEq>⟧.eq in
        first_of_each same (first_of_each same pairs ++ pair ∷ []) ≡ first_of_each same (pairs ++ pair ∷ []) }
{}
