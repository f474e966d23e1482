//! Laws of cloning an arena whose values have only identical clones.
ghost use Rattle.std.specs.Prelude.{◌≡◌, List};
ghost use Rattle.naga_arena.specs.Arena.{IsCloneOf};
ghost use Rattle.naga_arena.specs.UniqueArena.{IsUniqueCloneOf, without_repeats};
ghost use Rattle.naga_arena.specs.declared.span.Span.{Span};

use crate::try_clone::TryClone;

/// If every clone of a value is identical to the value, then every clone of an arena is identical to the arena.
pub fn clone_of_the_same_values_is_the_arena<T: TryClone>()
    ensures { (arena copy : List (T × Span))
        → ((value clone : T) → T.clone_gives value clone → clone ≡ value)
        → IsCloneOf T.clone_gives arena copy
        → copy ≡ arena }
{}

/// If every clone of a value is identical to the value, then every clone of a unique arena has the pairs of the arena,
/// in order, except the pairs whose value is equal to an earlier one.
pub fn clone_of_the_same_values_is_the_unique_arena<T: TryClone + Eq>()
    ensures { (arena copy : List (T × Span))
        → ((value clone : T) → T.clone_gives value clone → clone ≡ value)
        → IsUniqueCloneOf T.eq T.clone_gives arena copy
        → copy ≡ without_repeats T.eq arena }
{}
