//! Replacing the handles that declarations contain.
use super::{InGlobal, NewHandles, Rename};
use naga_ir::{Constant, GlobalVariable, LocalVariable, Override};

impl Rename for Constant {
    ghost use Rattle.naga_compact.specs.Renaming.Declarations.{rename_constant};

    ghost renamed = { rename_constant };

    fn rename<N: NewHandles>(&mut self, new: &N) {
        self.ty.rename(new);
        new.global_expression(&mut self.init);
    }
}

impl Rename for Override {
    ghost use Rattle.naga_compact.specs.Renaming.Declarations.{rename_override};

    ghost renamed = { rename_override };

    fn rename<N: NewHandles>(&mut self, new: &N) {
        self.ty.rename(new);
        self.init.rename(&InGlobal { handles: new });
    }
}

impl Rename for GlobalVariable {
    ghost use Rattle.naga_compact.specs.Renaming.Declarations.{rename_global_variable};

    ghost renamed = { rename_global_variable };

    fn rename<N: NewHandles>(&mut self, new: &N) {
        self.ty.rename(new);
        self.init.rename(&InGlobal { handles: new });
    }
}

impl Rename for LocalVariable {
    ghost use Rattle.naga_compact.specs.Renaming.Declarations.{rename_local_variable};

    ghost renamed = { rename_local_variable };

    fn rename<N: NewHandles>(&mut self, new: &N) {
        self.ty.rename(new);
        self.init.rename(new);
    }
}
