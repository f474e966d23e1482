//! Removing the types of a module that are not kept.
ghost use Rattle.std.specs.Prelude.{◌≡◌, ◌++◌, ◌∷◌, [], None, OnOk};
ghost use Rattle.naga_arena.specs.Arena.{handle_of};
ghost use Rattle.naga_compact.specs.Kept.{kept_elements};
ghost use Rattle.naga_compact.specs.Module.Compaction.{TypesAreClosed};
ghost use Rattle.naga_compact.specs.Renaming.Functions.{map_values};
ghost use Rattle.naga_compact.specs.Renaming.Renumbering.{renaming_of};
ghost use Rattle.naga_compact.specs.derived.Renaming.{rename_type};

use super::ModuleRenumbering;
use crate::renaming::Rename;
use naga_arena::{Span, UniqueArena};
use naga_ir::Type;
use std::alloc::AllocError;

/// Removes the types that are not kept, and renames the handles that the others contain. These are in order, with their
/// spans.
///
/// Returns `Err` if allocation fails. The arena is then incomplete.
///
/// The caller must ensure that the types and overrides to which kept types refer are kept, so that no two types become
/// equal.
pub(crate) fn retain_types(
    types: &mut UniqueArena<Type>,
    renumbering: &ModuleRenumbering,
) -> Result<(), AllocError>
    requires closed { TypesAreClosed renumbering.now types.old }
    ensures { OnOk result (types.new ≡ map_values (rename_type (renaming_of renumbering.now))
        (kept_elements renumbering.now.types types.old)) }
{
    // For the proof: a clause of `len` is that no two types are equal.
    let _ = types.len();
    'rest: for (handle, ty, span) in types.drain_all() {
        if renumbering.types.keeps(handle) {
            insert_renamed(types, ty, span, renumbering)?;
        }
    }
    Ok(())
}

/// Renames the handles that a type contains, and inserts it. Returns `Err` if allocation fails.
fn insert_renamed(
    types: &mut UniqueArena<Type>,
    mut ty: Type,
    span: Span,
    renumbering: &ModuleRenumbering,
) -> Result<(), AllocError>
    requires absent { handle_of ⟦<Type as PartialEq>⟧.eq types.old
        (rename_type (renaming_of renumbering.now) ty) ≡ None }
    ensures { OnOk result (types.new
        ≡ types.old ++ (rename_type (renaming_of renumbering.now) ty, span) ∷ []) }
{
    ty.rename(renumbering);
    // The arena is not full, since it had all these types before.
    match types.insert(ty, span) {
        Ok(_) => Ok(()),
        Err(_) => Err(AllocError),
    }
}
