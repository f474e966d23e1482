//! Removing the elements of an arena that are not kept.
ghost use Rattle.std.specs.Prelude.{◌≡◌, None, OnErr, OnOk, Some, if◌then◌else◌};
ghost use Rattle.std.specs.FinSet.{contains};
ghost use Rattle.naga_compact.specs.Kept.{kept_elements};
ghost use Rattle.naga_compact.specs.Renaming.Functions.{map_values};

use crate::renaming::{NewHandles, Rename, rename_values};
use crate::renumbering::Renumbering;
use naga_arena::{Arena, Handle, KindName};
use std::alloc::AllocError;

impl<T: KindName> Renumbering<T> {
    /// Removes the elements of an arena that are not kept. The others are in order, with their spans.
    ///
    /// If allocation fails, the arena is unchanged.
    pub(crate) fn retain(&self, arena: &mut Arena<T>) -> Result<(), AllocError>
    where
        T: Drop,
        ensures kept { OnOk result (arena.new ≡ kept_elements self.now arena.old) }
        ensures unchanged { OnErr result (arena.new ≡ arena.old) }
    {
        arena.retain_mut(
            |handle, value| -> Option<T>
                ensures { result ≡ (if contains self.entry.now.members handle then Some value else None) }
            { self.retained(handle, value) },
        )
    }

    /// Removes the elements of an arena that are not kept, and replaces the handles that the others contain. These are in
    /// order, with their spans.
    ///
    /// If allocation fails, the arena is unchanged.
    pub(crate) fn retain_renamed<N: NewHandles>(
        &self,
        arena: &mut Arena<T>,
        new: &N,
    ) -> Result<(), AllocError>
    where
        T: Rename + Drop,
        ensures kept { OnOk result (arena.new
            ≡ map_values (T.renamed (N.renaming new.now)) (kept_elements self.now arena.old)) }
        ensures unchanged { OnErr result (arena.new ≡ arena.old) }
    {
        self.retain(arena)?;
        rename_values(arena, new);
        Ok(())
    }

    /// Returns the value of an element that is kept, and `None` for one that is not.
    fn retained(&self, handle: Handle<T>, value: T) -> Option<T>
    where
        T: Drop,
        ensures { result ≡ (if contains self.now.members handle then Some value else None) }
    {
        if self.keeps(handle) {
            Some(value)
        } else {
            None
        }
    }
}
