//! Laws of fetching with a deterministic test.
ghost use Rattle.std.specs.Prelude.{◌≡◌, ℕ, Bool, List, Result, Ok, Some, None, position};
ghost use Rattle.naga_arena.specs.Arena.{Appends, Fetches, values};
ghost use Rattle.naga_arena.specs.declared.arena.ArenaError.{ArenaError};
ghost use Rattle.naga_arena.specs.declared.span.Span.{Span};

/// Fetching returns the handle of the first value that passes, and changes nothing. If no value passes, it appends the
/// pair.
pub fn first_value_that_passes_is_fetched<T>()
    ensures found { (passes : T → Bool) (old new : List (T × Span)) (value : T) (span : Span)
        (result : Result ℕ ArenaError) (handle : ℕ)
        → Fetches (λ other answer. answer ≡ passes other) old value span result new
        → position passes (values old) ≡ Some handle
        → (result ≡ Ok handle) × (new ≡ old) }
    ensures missing { (passes : T → Bool) (old new : List (T × Span)) (value : T) (span : Span)
        (result : Result ℕ ArenaError)
        → Fetches (λ other answer. answer ≡ passes other) old value span result new
        → position passes (values old) ≡ None
        → Appends old value span result new }
{}
