//! Compacting the functions of a module, each by itself.
ghost use Rattle.std.specs.Prelude.{◌≡◌, All, OnOk};
ghost use Rattle.std.specs.List.{AllZip};
ghost use Rattle.naga_compact.specs.Module.Compaction.{CompactsFunctions, HasCompactedFunction, IsCompactedFunction};
ghost use Rattle.naga_compact.specs.Operands.{OperandsPrecede};
ghost use Rattle.naga_valid.specs.Valid.{HandlesAreValid};

use crate::function::compact_function;
use naga_arena::{Arena, Handle};
use naga_ir::{EntryPoint, Function, Module};
use std::alloc::{AllocError, Global};

/// Removes the expressions of each function that are not needed, also those of the entry points' functions, and renames
/// the handles of the others.
///
/// Returns `Err` if allocation fails. Then the functions before the one for which it failed are compacted, and nothing
/// else is changed. The functions of entry points come after all others.
///
/// The caller must ensure that all handles of the module are valid, which `check_handles` tests.
pub(super) fn compact_functions(alloc: Global, module: &mut Module) -> Result<(), AllocError>
    requires valid { HandlesAreValid «module».old }
    ensures compacted { OnOk result (CompactsFunctions «module».old «module».new) }
{
    compact_each(alloc, &mut module.functions)?;
    compact_entry_points(alloc, &mut module.entry_points)
}

/// Compacts each function of an arena.
fn compact_each(alloc: Global, functions: &mut Arena<Function>) -> Result<(), AllocError>
    requires { All (λ entry. OperandsPrecede entry.0.expressions) functions.old }
    ensures { OnOk result
        (AllZip (λ before after. IsCompactedFunction before.0 after.0 × (after.1 ≡ before.1)) functions.old functions.new) }
{
    'functions: for index in 0..functions.len() {
        let function = functions.get_mut(Handle::<Function>::at(index));
        compact_function(alloc, function)?;
    }
    Ok(())
}

/// Compacts the function of each entry point.
fn compact_entry_points(alloc: Global, entry_points: &mut [EntryPoint]) -> Result<(), AllocError>
    requires { All (λ entry. OperandsPrecede entry.function.expressions) entry_points.old }
    ensures { OnOk result (AllZip HasCompactedFunction entry_points.old entry_points.new) }
{
    'entry_points: for entry_point in entry_points.iter_mut() {
        compact_function(alloc, &mut entry_point.function)?;
    }
    Ok(())
}
