//! [`ArenaType`], the trait that sets of handles require of an arena.
ghost use Rattle.std.specs.Prelude.{◌≡◌, ◌≤◌, ℕ, length};
ghost use Rattle.naga_arena.specs.Limits.{max_len};

use super::Arena;
use super::unique_arena::UniqueArena;
use std::hash::Hash;

/// An arena of values of type `T`: an [`Arena`] or a [`UniqueArena`].
pub trait ArenaType<T> {
    /// The number of values in the arena.
    ghost size: { Self → ℕ };

    /// Returns the number of values, which is at most `u32::MAX`.
    fn len(&self) -> usize
        ensures value { result ≡ size self.now }
        ensures bound { result ≤ max_len };
}

impl<T> ArenaType<T> for Arena<T> {
    ghost size = { length };

    fn len(&self) -> usize {
        self.len()
    }
}

impl<T: Eq + Hash> ArenaType<T> for UniqueArena<T> {
    ghost size = { length };

    fn len(&self) -> usize {
        self.len()
    }
}
