//! The elements of a module that are used, as a set for each arena.
ghost use Rattle.std.specs.Prelude.{◌≡◌, IfOk};
ghost use Rattle.naga_sets.specs.HandleSet.{none_below};
ghost use Rattle.naga_compact.specs.Marks.{put};
ghost use Rattle.naga_compact.specs.Module.Used.{is_member, nothing_used};
ghost use Rattle.naga_compact.specs.Module.Visits.{is_new, is_new_member, mark};

use naga_arena::{ArenaType, Handle, KindName};
use naga_ir::{Constant, Expression, Function, GlobalVariable, Module, Override, Type};
use naga_sets::HandleSet;
use naga_valid::Reference;
use std::alloc::{AllocError, Global};

/// The elements of a module that are used.
///
/// The bound of each set is the length of its arena.
#[derive(Drop)]
pub struct UsedHandles {
    pub types_used: HandleSet<Type>,
    pub constants_used: HandleSet<Constant>,
    pub overrides_used: HandleSet<Override>,
    pub global_variables_used: HandleSet<GlobalVariable>,
    pub global_expressions_used: HandleSet<Expression>,
    pub functions_used: HandleSet<Function>,
}

impl UsedHandles {
    /// Creates empty sets for the arenas of a module.
    ///
    /// Returns `Err` if allocation fails.
    pub(super) fn for_module(alloc: Global, module: &Module) -> Result<Self, AllocError>
        ensures { IfOk result (λ used. used ≡ nothing_used «module».now) }
    {
        let (types_used, constants_used, overrides_used) = empty_sets(
            alloc,
            &module.types,
            &module.constants,
            &module.overrides,
        )?;
        let (global_variables_used, global_expressions_used, functions_used) = empty_sets(
            alloc,
            &module.global_variables,
            &module.global_expressions,
            &module.functions,
        )?;
        Ok(UsedHandles {
            types_used,
            constants_used,
            overrides_used,
            global_variables_used,
            global_expressions_used,
            functions_used,
        })
    }

    /// Returns whether an element of the module is used.
    ///
    /// Handles inside functions and handles of diagnostic filters are never used.
    pub fn contains(&self, element: &Reference) -> bool
        ensures { result ≡ is_member self.now element.now }
    {
        match element {
            Reference::Type(handle) => return self.types_used.contains(*handle),
            Reference::Constant(handle) => return self.constants_used.contains(*handle),
            Reference::Override(handle) => return self.overrides_used.contains(*handle),
            Reference::GlobalVariable(handle) => return self
                .global_variables_used
                .contains(*handle),
            Reference::GlobalExpression(handle) => return self
                .global_expressions_used
                .contains(*handle),
            Reference::Function(handle) => return self.functions_used.contains(*handle),
            Reference::Expression(_) | Reference::Expressions { .. } => return false,
            Reference::LocalVariable(_) | Reference::DiagnosticFilter(_) => return false,
        }
    }

    /// Marks an element as used, and returns whether it was not marked before.
    ///
    /// A handle that is not below the bound of its set is ignored, and so are handles inside functions and handles of
    /// diagnostic filters.
    pub(super) fn insert(&mut self, element: &Reference) -> bool
        ensures value { result ≡ is_new self.old element.now }
        ensures marked { self.new ≡ mark self.old element.now }
    {
        match element {
            Reference::Type(handle) => return insert_below(&mut self.types_used, *handle),
            Reference::Constant(handle) => return insert_below(&mut self.constants_used, *handle),
            Reference::Override(handle) => return insert_below(&mut self.overrides_used, *handle),
            Reference::GlobalVariable(handle) => return insert_below(
                &mut self.global_variables_used,
                *handle,
            ),
            Reference::GlobalExpression(handle) => return insert_below(
                &mut self.global_expressions_used,
                *handle,
            ),
            Reference::Function(handle) => return insert_below(&mut self.functions_used, *handle),
            Reference::Expression(_) | Reference::Expressions { .. } => return false,
            Reference::LocalVariable(_) | Reference::DiagnosticFilter(_) => return false,
        }
    }
}

/// Creates empty sets for three arenas, or returns `Err` if allocation fails.
fn empty_sets<A, B, C, X, Y, Z>(
    alloc: Global,
    first: &X,
    second: &Y,
    third: &Z,
) -> Result<(HandleSet<A>, HandleSet<B>, HandleSet<C>), AllocError>
where
    A: KindName + Drop,
    B: KindName + Drop,
    C: KindName + Drop,
    X: ArenaType<A>,
    Y: ArenaType<B>,
    Z: ArenaType<C>,
    ensures { IfOk result (λ sets. (sets.0 ≡ none_below (X.size first.now))
        × (sets.1 ≡ none_below (Y.size second.now)) × (sets.2 ≡ none_below (Z.size third.now))) }
{
    let first = HandleSet::<A>::for_arena(alloc, first)?;
    let second = HandleSet::<B>::for_arena(alloc, second)?;
    let third = HandleSet::<C>::for_arena(alloc, third)?;
    Ok((first, second, third))
}

/// Inserts a handle into a set if it is below the bound of the set. Returns whether it is a new member.
#[tactic(auto, using(crate::proofs::MarkLemmas::putting))]
fn insert_below<T: KindName>(handles: &mut HandleSet<T>, handle: Handle<T>) -> bool
    ensures value { result ≡ is_new_member handles.old handle }
    ensures inserted { handles.new ≡ put handles.old handle }
{
    let bound = handles.all_possible().index_range().end as usize;
    if handle.index() < bound {
        let Ok(is_new) = handles.insert(handle) else {
            unreachable!()
        };
        return is_new;
    }
    false
}
