//! Replacing the handles that the parts of a module contain.
ghost use Rattle.std.specs.Prelude.{◌≡◌, map};
ghost use Rattle.naga_compact.specs.Renaming.Functions.{map_values};

mod block;
mod declarations;
mod functions;
mod handle;
mod types;

pub use block::rename_block;
pub use functions::{rename_entry_point, rename_function};
pub use handle::InGlobal;
use naga_arena::{Arena, Handle, KindName, Range};
use naga_ir::{Constant, Expression, Function, GlobalVariable, Override, Type};

/// New handles in place of old ones, for each kind of reference.
///
/// Handles of local variables and of diagnostic filters are never replaced.
///
/// Differs from naga: naga has no such trait.
pub trait NewHandles {
    ghost use Rattle.naga_compact.specs.Renaming.{Renaming};

    ghost renaming: { Self → Renaming };

    /// Replaces the handle of a type.
    fn ty(&self, handle: &mut Handle<Type>)
        ensures { handle.new ≡ (renaming self.now).types handle.old };

    /// Replaces the handle of a constant.
    fn constant(&self, handle: &mut Handle<Constant>)
        ensures { handle.new ≡ (renaming self.now).constants handle.old };

    /// Replaces the handle of an override.
    fn pipeline_override(&self, handle: &mut Handle<Override>)
        ensures { handle.new ≡ (renaming self.now).overrides handle.old };

    /// Replaces the handle of a global variable.
    fn global_variable(&self, handle: &mut Handle<GlobalVariable>)
        ensures { handle.new ≡ (renaming self.now).global_variables handle.old };

    /// Replaces the handle of a global expression.
    fn global_expression(&self, handle: &mut Handle<Expression>)
        ensures { handle.new ≡ (renaming self.now).global_expressions handle.old };

    /// Replaces the handle of a function.
    fn function(&self, handle: &mut Handle<Function>)
        ensures { handle.new ≡ (renaming self.now).functions handle.old };

    /// Replaces the handle of an expression of a function.
    fn expression(&self, handle: &mut Handle<Expression>)
        ensures { handle.new ≡ (renaming self.now).expressions handle.old };

    /// Replaces a range of expressions of a function.
    fn expressions(&self, range: &mut Range<Expression>)
        ensures { range.new ≡ (renaming self.now).ranges range.old };
}

/// A part of a module that contains handles.
///
/// Differs from naga: naga has no such trait.
pub trait Rename {
    ghost use Rattle.naga_compact.specs.Renaming.{Renaming};

    ghost renamed: { Renaming → Self → Self };

    /// Replaces the handles by the new ones, in place. Nothing is allocated.
    fn rename<N: NewHandles>(&mut self, new: &N)
        ensures { self.new ≡ renamed (N.renaming new.now) self.old };
}

/// Replaces the handles in each part of a list.
fn rename_each<T: Rename, N: NewHandles>(parts: &mut [T], new: &N)
    ensures { parts.new ≡ map (T.renamed (N.renaming new.now)) parts.old }
{
    'parts: for part in parts.iter_mut() {
        part.rename(new);
    }
}

/// Replaces the handles in each value of an arena, in place. The spans are unchanged. Nothing is allocated.
///
/// Differs from naga: naga has no such function.
pub fn rename_values<T: Rename + KindName, N: NewHandles>(arena: &mut Arena<T>, new: &N)
    ensures { arena.new ≡ map_values (T.renamed (N.renaming new.now)) arena.old }
{
    'values: for index in 0..arena.len() {
        let value = arena.get_mut(Handle::<T>::at(index));
        value.rename(new);
    }
}
