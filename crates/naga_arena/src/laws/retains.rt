//! Laws of retaining with a deterministic predicate.
ghost use Rattle.std.specs.Prelude.{◌≡◌, ℕ, Bool, List, Option, Some, None, filter, filter_map, option_map, if◌then◌else◌};
ghost use Rattle.std.specs.List.{enumerate_from};
ghost use Rattle.naga_arena.specs.Arena.{Retains};
ghost use Rattle.naga_arena.specs.declared.span.Span.{Span};

/// If what the predicate returns depends only on the handle and the value, the values that it returns are left, in
/// order, each with the span of its entry.
pub fn returned_values_are_retained<T, P>()
    ensures { (answers : ℕ → T → Option T) (predicate : P) (old new : List (T × Span))
        → Retains (λ before handle value answer after. answer ≡ answers handle value)
        predicate (enumerate_from 0 old) new
        → new ≡ filter_map (λ entry. option_map (λ value. (value, entry.1.1)) (answers entry.0 entry.1.0))
        (enumerate_from 0 old) }
{}

/// If the predicate returns the values that pass a test, and `None` for all others, the entries whose values pass are
/// left, with their spans.
pub fn accepted_entries_are_retained<T, P>()
    ensures { (accepts : T → Bool) (predicate : P) (old new : List (T × Span))
        → Retains (λ before handle value answer after. answer ≡ (if accepts value then Some value else None))
        predicate (enumerate_from 0 old) new
        → new ≡ filter (λ entry. accepts entry.0) old }
{}
