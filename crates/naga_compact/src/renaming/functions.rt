//! Replacing the handles that functions and entry points contain.
ghost use Rattle.std.specs.Prelude.{◌≡◌};
ghost use Rattle.naga_compact.specs.Renaming.Functions.{IsRenamedEntryPoint, IsRenamedFunction};

use super::{InGlobal, NewHandles, Rename, rename_block, rename_values};
use naga_ir::{EntryPoint, Function, FunctionArgument, FunctionResult, MeshStageInfo};

impl Rename for FunctionArgument {
    ghost use Rattle.naga_compact.specs.Renaming.Functions.{rename_argument};

    ghost renamed = { rename_argument };

    fn rename<N: NewHandles>(&mut self, new: &N) {
        self.ty.rename(new);
    }
}

impl Rename for FunctionResult {
    ghost use Rattle.naga_compact.specs.Renaming.Functions.{rename_result};

    ghost renamed = { rename_result };

    fn rename<N: NewHandles>(&mut self, new: &N) {
        self.ty.rename(new);
    }
}

impl Rename for MeshStageInfo {
    ghost use Rattle.naga_compact.specs.Renaming.Functions.{rename_mesh_info};

    ghost renamed = { rename_mesh_info };

    fn rename<N: NewHandles>(&mut self, new: &N) {
        let global = InGlobal { handles: new };
        self.max_vertices_override.rename(&global);
        self.max_primitives_override.rename(&global);
        self.vertex_output_type.rename(new);
        self.primitive_output_type.rename(new);
        self.output_variable.rename(new);
    }
}

/// Replaces the handles that a function contains, in place. Nothing is allocated.
///
/// The keys of its named expressions are unchanged, so the handles of its own expressions must be, too, if they have
/// names. The handle of its diagnostic filter is unchanged.
pub fn rename_function<N: NewHandles>(function: &mut Function, new: &N)
    ensures { IsRenamedFunction (N.renaming new.now) function.old function.new }
{
    function.arguments.rename(new);
    function.result.rename(new);
    rename_values(&mut function.local_variables, new);
    rename_values(&mut function.expressions, new);
    rename_block(&mut function.body, new);
}

/// Replaces the handles that an entry point contains, also in its function, in place. Nothing is allocated.
///
/// The keys of named expressions are unchanged, as by [`rename_function`].
pub fn rename_entry_point<N: NewHandles>(entry_point: &mut EntryPoint, new: &N)
    ensures { IsRenamedEntryPoint (N.renaming new.now) entry_point.old entry_point.new }
{
    entry_point
        .workgroup_size_overrides
        .rename(&InGlobal { handles: new });
    entry_point.mesh_info.rename(new);
    entry_point.task_payload.rename(new);
    entry_point.incoming_ray_payload.rename(new);
    rename_function(&mut entry_point.function, new);
}
