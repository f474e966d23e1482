//! Removing the elements of a module's arenas that are not kept, and renaming the handles of the others.
ghost use Rattle.std.specs.Prelude.{◌≡◌, OnOk};
ghost use Rattle.std.specs.List.{AllZip};
ghost use Rattle.naga_compact.specs.Kept.{kept_elements};
ghost use Rattle.naga_compact.specs.Renaming.Functions.{IsRenamedEntryPoint, IsRenamedFunction};
ghost use Rattle.naga_compact.specs.Renaming.Renumbering.{renaming_of};

use super::ModuleRenumbering;
use crate::renaming::{rename_entry_point, rename_function};
use naga_arena::{Arena, Handle};
use naga_ir::{EntryPoint, Function};
use std::alloc::AllocError;

/// Removes the functions that are not kept, and renames the handles of the module that the others contain. The spans
/// are unchanged.
pub(crate) fn retain_functions(
    functions: &mut Arena<Function>,
    renumbering: &ModuleRenumbering,
) -> Result<(), AllocError>
    ensures { OnOk result (AllZip (λ before after.
        IsRenamedFunction (renaming_of renumbering.now) before.0 after.0 × (after.1 ≡ before.1))
        (kept_elements renumbering.now.functions functions.old) functions.new) }
{
    renumbering.functions.retain(functions)?;
    rename_functions(functions, renumbering);
    Ok(())
}

/// Renames the handles of the module that functions contain. The spans are unchanged.
fn rename_functions(functions: &mut Arena<Function>, renumbering: &ModuleRenumbering)
    ensures { AllZip (λ before after.
        IsRenamedFunction (renaming_of renumbering.now) before.0 after.0 × (after.1 ≡ before.1))
        functions.old functions.new }
{
    'functions: for index in 0..functions.len() {
        let function = functions.get_mut(Handle::<Function>::at(index));
        rename_function(function, renumbering);
    }
}

/// Renames the handles of the module that entry points contain, also in their functions.
pub(crate) fn rename_entry_points(entry_points: &mut [EntryPoint], renumbering: &ModuleRenumbering)
    ensures { AllZip (IsRenamedEntryPoint (renaming_of renumbering.now)) entry_points.old entry_points.new }
{
    'entry_points: for entry_point in entry_points.iter_mut() {
        rename_entry_point(entry_point, renumbering);
    }
}
