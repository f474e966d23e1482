//! Laws of the chains of expressions in valid modules.
ghost use Rattle.std.specs.Prelude.{◌≡◌, slice_get};
ghost use Rattle.naga_arena.specs.Arena.{value_at};
ghost use Rattle.naga_ir.specs.Chain.{ChainsPrecede};
ghost use Rattle.naga_valid.specs.Valid.{HandlesAreValid};

use naga_arena::Handle;
use naga_ir::{EntryPoint, Function, Module};

/// In a valid module, every global expression comes after the expressions that it is made of.
pub fn chains_of_global_expressions_precede(module: &Module)
    requires { HandlesAreValid «module».now }
    ensures { ChainsPrecede «module».now.global_expressions }
{}

/// In a valid module, every expression of a function comes after the expressions that it is made of.
///
/// Preconditions: the module is valid, and `function` is its function with this handle.
pub fn chains_of_function_precede(module: &Module, handle: Handle<Function>, function: &Function)
    requires valid { HandlesAreValid «module».now }
    requires found { value_at «module».now.functions handle ≡ Some function.now }
    ensures { ChainsPrecede function.now.expressions }
{}

/// In a valid module, every expression of an entry point comes after the expressions that it is made of.
///
/// Preconditions: the module is valid, and `entry` is its entry point at this position.
pub fn chains_of_entry_point_precede(module: &Module, position: usize, entry: &EntryPoint)
    requires valid { HandlesAreValid «module».now }
    requires found { slice_get «module».now.entry_points.items position ≡ Some entry.now }
    ensures { ChainsPrecede entry.now.function.expressions }
{}
