//! Culling the bodies of all functions and entry points of a module.
ghost use Rattle.std.specs.Prelude.{◌≡◌};
ghost use Rattle.std.specs.List.{AllZip};
ghost use Rattle.naga_proc.specs.Bodies.{ChangesBody, ChangesEntryBody};
ghost use Rattle.naga_passes.specs.Culling.{CullsBodies, Culled};
ghost use Rattle.naga_valid.specs.Valid.{HandlesAreValid};

use naga_arena::{Arena, Handle};
use naga_compact::cull_unreachable;
use naga_ir::{EntryPoint, Function, Module};

/// Removes the statements that follow one that diverges by its form, in the bodies of all functions and entry points.
///
/// In each body, these are the statements that [`cull_unreachable`] removes, and nothing else of the module is changed.
/// A module whose handles are valid stays one. Nothing is allocated, and the call cannot fail.
///
/// Differs from naga: naga has no such function.
pub fn cull_module(module: &mut Module)
    ensures culled { CullsBodies «module».old «module».new }
    ensures valid { HandlesAreValid «module».old → HandlesAreValid «module».new }
{
    cull_functions(&mut module.functions);
    cull_entry_points(&mut module.entry_points);
}

/// Culls the bodies of functions.
fn cull_functions(functions: &mut Arena<Function>)
    ensures { AllZip (λ before after. ChangesBody Culled before.0 after.0 × (after.1 ≡ before.1))
        functions.old functions.new }
{
    'functions: for index in 0..functions.len() {
        let function = functions.get_mut(Handle::<Function>::at(index));
        cull_function(function);
    }
}

/// Culls the bodies of entry points.
fn cull_entry_points(entry_points: &mut [EntryPoint])
    ensures { AllZip (ChangesEntryBody Culled) entry_points.old entry_points.new }
{
    'entry_points: for entry_point in entry_points.iter_mut() {
        cull_function(&mut entry_point.function);
    }
}

/// Culls the body of a function.
fn cull_function(function: &mut Function)
    ensures { ChangesBody Culled function.old function.new }
{
    cull_unreachable(&mut function.body);
}
