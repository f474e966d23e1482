//! The new handles of the elements of a module's arenas that are kept.
ghost use Rattle.std.specs.Prelude.{◌≡◌, IfOk};
ghost use Rattle.naga_compact.specs.Module.Compaction.{kept_handles};

mod arenas;
mod comments;
mod type_arena;

use crate::module::used::UsedHandles;
use crate::renaming::NewHandles;
use crate::renumbering::Renumbering;
pub(crate) use arenas::{rename_entry_points, retain_functions};
pub(crate) use comments::rename_optional_comments;
use naga_arena::{Handle, Range};
use naga_ir::{Constant, Expression, Function, GlobalVariable, Override, Type};
use std::alloc::{AllocError, Global};
pub(crate) use type_arena::retain_types;

/// The new handles of the elements of a module's arenas that are kept, after all others are removed.
///
/// Differs from naga: naga's `ModuleMap` is private.
#[derive(Drop)]
pub struct ModuleRenumbering {
    pub types: Renumbering<Type>,
    pub constants: Renumbering<Constant>,
    pub overrides: Renumbering<Override>,
    pub global_variables: Renumbering<GlobalVariable>,
    pub global_expressions: Renumbering<Expression>,
    pub functions: Renumbering<Function>,
}

impl ModuleRenumbering {
    /// Creates the new handles for the elements that are used, all of which are kept. Returns `Err` if allocation
    /// fails.
    pub fn new(alloc: Global, used: UsedHandles) -> Result<Self, AllocError>
        ensures { IfOk result (λ renumbering. kept_handles renumbering ≡ used) }
    {
        Ok(ModuleRenumbering {
            types: Renumbering::new(alloc, used.types_used)?,
            constants: Renumbering::new(alloc, used.constants_used)?,
            overrides: Renumbering::new(alloc, used.overrides_used)?,
            global_variables: Renumbering::new(alloc, used.global_variables_used)?,
            global_expressions: Renumbering::new(alloc, used.global_expressions_used)?,
            functions: Renumbering::new(alloc, used.functions_used)?,
        })
    }
}

/// The new handles of the elements of a module's arenas. Handles inside functions are unchanged.
impl NewHandles for ModuleRenumbering {
    ghost use Rattle.naga_compact.specs.Renaming.Renumbering.{renaming_of};

    ghost renaming = { renaming_of };

    fn ty(&self, handle: &mut Handle<Type>) {
        *handle = self.types.handle(*handle);
    }

    fn constant(&self, handle: &mut Handle<Constant>) {
        *handle = self.constants.handle(*handle);
    }

    fn pipeline_override(&self, handle: &mut Handle<Override>) {
        *handle = self.overrides.handle(*handle);
    }

    fn global_variable(&self, handle: &mut Handle<GlobalVariable>) {
        *handle = self.global_variables.handle(*handle);
    }

    fn global_expression(&self, handle: &mut Handle<Expression>) {
        *handle = self.global_expressions.handle(*handle);
    }

    fn function(&self, handle: &mut Handle<Function>) {
        *handle = self.functions.handle(*handle);
    }

    fn expression(&self, _: &mut Handle<Expression>) {}

    fn expressions(&self, _: &mut Range<Expression>) {}
}
