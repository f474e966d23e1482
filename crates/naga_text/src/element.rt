//! The elements of arenas and lists, one after another.
ghost use Rattle.std.specs.Prelude.{◌≡◌, ◌++◌, OnOk, flat_map};
ghost use Rattle.std.specs.List.{enumerate_from};
ghost use Rattle.naga_arena.specs.Arena.{values};
ghost use Rattle.naga_text.specs.Types.{type_line};

use crate::text::Text;
use naga_arena::{Arena, KindName, UniqueArena};
use naga_ir::Type;
use std::alloc::AllocError;

/// An element of an arena or a list, which is written as lines.
pub(crate) trait Element {
    ghost use Rattle.std.specs.Prelude.{◌≡◌, ◌++◌, ℕ, List, OnOk};

    // The lines of an element with its index.
    ghost lines: { ℕ × Self → List ℕ };

    /// Appends the lines of the element with this index.
    fn push(&self, text: &mut Text, index: usize) -> Result<(), AllocError>
        ensures { OnOk result (text.new ≡ text.old ++ lines (index, self.now)) };
}

/// Appends the lines of the elements of an arena.
pub(crate) fn push_arena<T: Element + KindName>(
    text: &mut Text,
    arena: &Arena<T>,
) -> Result<(), AllocError>
    ensures { OnOk result (text.new ≡ text.old ++ flat_map T.lines (enumerate_from 0 (values arena.now))) }
{
    for (handle, element) in arena.iter() {
        element.push(text, handle.index())?;
    }
    Ok(())
}

/// Appends the lines of types.
pub(crate) fn push_types(text: &mut Text, types: &UniqueArena<Type>) -> Result<(), AllocError>
    ensures { OnOk result (text.new ≡ text.old ++ flat_map type_line (enumerate_from 0 (values types.now))) }
{
    for (handle, element) in types.iter() {
        element.push(text, handle.index())?;
    }
    Ok(())
}

/// Appends the lines of the elements of a list.
pub(crate) fn push_list<T: Element>(text: &mut Text, list: &[T]) -> Result<(), AllocError>
    ensures { OnOk result (text.new ≡ text.old ++ flat_map T.lines (enumerate_from 0 list.now)) }
{
    for (index, element) in list.iter().enumerate() {
        element.push(text, index)?;
    }
    Ok(())
}
