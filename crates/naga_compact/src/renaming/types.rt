//! Replacing the handles of special types.
ghost use Rattle.std.specs.Prelude.{◌≡◌};
ghost use Rattle.naga_compact.specs.Renaming.Types.{rename_predeclared};

use super::{NewHandles, Rename};
use indexmap::IndexMap;
use naga_arena::Handle;
use naga_ir::{SpecialTypes, Type};
use naga_kinds::PredeclaredType;

impl Rename for SpecialTypes {
    ghost use Rattle.naga_compact.specs.Renaming.Types.{rename_special_types};

    ghost renamed = { rename_special_types };

    fn rename<N: NewHandles>(&mut self, new: &N) {
        self.ray_desc.rename(new);
        self.ray_intersection.rename(new);
        self.ray_vertex_return.rename(new);
        self.external_texture_params.rename(new);
        self.external_texture_transfer_function.rename(new);
        rename_predeclared(&mut self.predeclared_types, new);
    }
}

/// Replaces the predeclared types of a module. Their keys are unchanged.
fn rename_predeclared<N: NewHandles>(types: &mut IndexMap<PredeclaredType, Handle<Type>>, new: &N)
    ensures { types.new ≡ rename_predeclared (N.renaming new.now) types.old }
{
    'types: for index in 0..types.len() {
        let Some(ty) = types.get_index_mut(index) else {
            unreachable!()
        };
        ty.rename(new);
    }
}
