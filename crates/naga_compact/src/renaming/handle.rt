//! Replacing handles themselves.
ghost use Rattle.std.specs.Prelude.{◌≡◌};

use super::{NewHandles, Rename, rename_each};
use naga_arena::{Handle, Range};
use naga_ir::{Constant, Expression, Function, GlobalVariable, Override, Type};

impl Rename for Handle<Type> {
    ghost renamed = { λ r. r.types };

    fn rename<N: NewHandles>(&mut self, new: &N) {
        new.ty(self);
    }
}

impl Rename for Handle<Constant> {
    ghost renamed = { λ r. r.constants };

    fn rename<N: NewHandles>(&mut self, new: &N) {
        new.constant(self);
    }
}

impl Rename for Handle<Override> {
    ghost renamed = { λ r. r.overrides };

    fn rename<N: NewHandles>(&mut self, new: &N) {
        new.pipeline_override(self);
    }
}

impl Rename for Handle<GlobalVariable> {
    ghost renamed = { λ r. r.global_variables };

    fn rename<N: NewHandles>(&mut self, new: &N) {
        new.global_variable(self);
    }
}

impl Rename for Handle<Function> {
    ghost renamed = { λ r. r.functions };

    fn rename<N: NewHandles>(&mut self, new: &N) {
        new.function(self);
    }
}

/// The handle of an expression of a function. That of a global expression is replaced by [`InGlobal`].
impl Rename for Handle<Expression> {
    ghost renamed = { λ r. r.expressions };

    fn rename<N: NewHandles>(&mut self, new: &N) {
        new.expression(self);
    }
}

impl Rename for Range<Expression> {
    ghost renamed = { λ r. r.ranges };

    fn rename<N: NewHandles>(&mut self, new: &N) {
        new.expressions(self);
    }
}

impl<T: Rename> Rename for Option<T> {
    ghost use Rattle.std.specs.Prelude.{option_map};

    ghost renamed = { λ r. option_map (T.renamed r) };

    fn rename<N: NewHandles>(&mut self, new: &N) {
        if let Some(part) = self {
            part.rename(new);
        }
    }
}

impl<T: Rename> Rename for Vec<T> {
    ghost use Rattle.std.specs.Prelude.{map};
    ghost use Rattle.std.specs.Vec.{with_items};

    ghost renamed = { λ r parts. with_items parts (map (T.renamed r) parts.items) };

    fn rename<N: NewHandles>(&mut self, new: &N) {
        rename_each(self, new);
    }
}

impl<T: Rename> Rename for [T; 3] {
    ghost use Rattle.std.specs.Prelude.{map};

    ghost renamed = { λ r. map (T.renamed r) };

    fn rename<N: NewHandles>(&mut self, new: &N) {
        rename_each(self, new);
    }
}

/// The new handles for what a global expression contains, of which the operands are global expressions.
#[derive(Drop)]
pub struct InGlobal<'a, N: NewHandles> {
    pub handles: &'a N,
}

impl<'a, N: NewHandles> NewHandles for InGlobal<'a, N> {
    ghost use Rattle.naga_compact.specs.Renaming.{in_global};

    ghost renaming = { λ it. in_global (N.renaming it.handles.now) };

    fn ty(&self, handle: &mut Handle<Type>) {
        self.handles.ty(handle);
    }

    fn constant(&self, handle: &mut Handle<Constant>) {
        self.handles.constant(handle);
    }

    fn pipeline_override(&self, handle: &mut Handle<Override>) {
        self.handles.pipeline_override(handle);
    }

    fn global_variable(&self, handle: &mut Handle<GlobalVariable>) {
        self.handles.global_variable(handle);
    }

    fn global_expression(&self, handle: &mut Handle<Expression>) {
        self.handles.global_expression(handle);
    }

    fn function(&self, handle: &mut Handle<Function>) {
        self.handles.function(handle);
    }

    fn expression(&self, handle: &mut Handle<Expression>) {
        self.handles.global_expression(handle);
    }

    // A global expression contains no ranges.
    fn expressions(&self, _: &mut Range<Expression>) {}
}
