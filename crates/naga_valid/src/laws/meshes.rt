//! Laws of the output variables of mesh shaders in valid modules.
ghost use Rattle.std.specs.Prelude.{◌≡◌, ◌<◌, length, slice_get};
ghost use Rattle.std.specs.Option.{ForSome};
ghost use Rattle.naga_ir.specs.MeshOutput.{HasMeshHandles};
ghost use Rattle.naga_valid.specs.Valid.{HandlesAreValid};

use naga_arena::Handle;
use naga_ir::{EntryPoint, GlobalVariable, Module};

/// In a valid module, everything that is looked up for a global variable as the output of a mesh shader is in its
/// arena.
///
/// Preconditions: the module is valid, and the variable is in it.
pub fn global_variable_has_mesh_handles(module: &Module, variable: Handle<GlobalVariable>)
    requires valid { HandlesAreValid «module».now }
    requires within { variable < length «module».now.global_variables }
    ensures { HasMeshHandles «module».now variable }
{}

/// In a valid module, everything that is looked up for the output variable of a mesh stage is in its arena.
///
/// Preconditions: the module is valid, and `entry` is its entry point at this position.
pub fn entry_point_has_mesh_handles(module: &Module, position: usize, entry: &EntryPoint)
    requires valid { HandlesAreValid «module».now }
    requires found { slice_get «module».now.entry_points.items position ≡ Some entry.now }
    ensures { ForSome entry.now.mesh_info (λ info. HasMeshHandles «module».now info.output_variable) }
{}
