//! Laws of the handles of a unique arena, and the maximum length of arenas.
ghost use Rattle.std.specs.Prelude.{◌≡◌, ◌≤◌, ℕ, List, Result, IsOk, IfOk, OnSome, true, Ok, Some, length, unwrap_or};
ghost use Rattle.naga_arena.specs.Arena.{max_len, values, handle_of, value_at};
ghost use Rattle.naga_arena.specs.UniqueArena.{HasDistinctValues};
ghost use Rattle.naga_arena.specs.declared.arena.ArenaError.{ArenaError};
ghost use Rattle.naga_arena.specs.declared.span.Span.{Span};

use crate::arena::ArenaType;

/// If two handles refer to equal values, then the handles are equal.
pub fn different_handles_name_unequal_values<T: Eq>()
    ensures { (arena : List (T × Span)) (first second : ℕ) (value other : T)
        → HasDistinctValues T.eq arena
        → value_at arena first ≡ Some value
        → value_at arena second ≡ Some other
        → T.eq value other ≡ true
        → first ≡ second }
{}

/// For a value that is equal to a stored one, `get` returns the handle of the stored one.
pub fn get_gives_the_handle<T: Eq>()
    ensures { (arena : List (T × Span)) (handle : ℕ) (stored value : T)
        → HasDistinctValues T.eq arena
        → value_at arena handle ≡ Some stored
        → T.eq value stored ≡ true
        → handle_of T.eq arena value ≡ Some handle }
{}

/// Inserting a value that is equal to a stored one returns the handle of the stored one and leaves the list unchanged.
/// This follows from the clauses `found`, `handle` and `kept` of `insert`.
pub fn insert_of_an_equal_value_gives_the_handle<T: Eq>()
    ensures { (old new : List (T × Span)) (handle : ℕ) (stored value : T) (result : Result ℕ ArenaError)
        → HasDistinctValues T.eq old
        → value_at old handle ≡ Some stored
        → T.eq value stored ≡ true
        → OnSome (handle_of T.eq old value) (IsOk result)
        → IfOk result (λ given. given ≡ unwrap_or (handle_of T.eq old value) (length old))
        → OnSome (handle_of T.eq old value) (new ≡ old)
        → (result ≡ Ok handle) × (new ≡ old) }
{}

/// Returns the number of elements of an arena of either kind, which is at most `u32::MAX`.
pub fn arenas_have_a_greatest_length<T, A: ArenaType<T>>(arena: &A) -> usize
    ensures value { result ≡ A.size arena.now }
    ensures bound { result ≤ max_len }
{
    arena.len()
}
