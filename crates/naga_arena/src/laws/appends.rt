//! Laws of appending: the values and spans of older handles are unchanged.
ghost use Rattle.std.specs.Prelude.{◌≡◌, ◌<◌, ◌∷◌, [], ◌++◌, ℕ, List, length};
ghost use Rattle.naga_arena.specs.Arena.{span_at, value_at};
ghost use Rattle.naga_arena.specs.declared.span.Span.{Span};

/// An append, or a fetch that appends, changes no value that an older handle refers to.
pub fn append_keeps_values<T>()
    ensures { (arena : List (T × Span)) (pair : T × Span) (older : ℕ) → older < length arena
        → value_at (arena ++ pair ∷ []) older ≡ value_at arena older }
{}

/// An append, or a fetch that appends, changes no span that an older handle refers to.
pub fn append_keeps_spans<T>()
    ensures { (arena : List (T × Span)) (pair : T × Span) (older : ℕ) → older < length arena
        → span_at (arena ++ pair ∷ []) older ≡ span_at arena older }
{}
