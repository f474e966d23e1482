//! Searches for handles outside their limits, in the elements of arenas.
ghost use Rattle.naga_valid.specs.Limits.{FindsElement};

use super::lists::{first_outside, first_outside_before};
use crate::limits::Limits;
use crate::reference::Reference;
use crate::references::Refers;
use naga_arena::{ArenaIter, Handle, KindName};
use naga_ir::{
    Constant, DiagnosticFilterNode, Expression, GlobalVariable, LocalVariable, Override, Type,
};

/// An element of an arena, which may contain handles.
pub(super) trait Element: KindName + Refers {
    ghost use Rattle.std.specs.Prelude.{ℕ};
    ghost use Rattle.naga_valid.specs.Limits.{FindsOutside};
    ghost use Rattle.naga_valid.specs.declared.limits.Limits.{Limits as Bounds};

    // The limits for the element with this index.
    ghost limits_for: { Bounds → ℕ → Bounds };

    /// Returns the first handle that is not within the limits for the element with this index.
    fn first_outside(&self, limits: &Limits, index: usize) -> Option<Reference>
        ensures { FindsOutside (limits_for limits.now index) (Self.references self.now) result };
}

impl Element for Type {
    ghost limits_for = { λ limits index. record limits { types = index } };

    fn first_outside(&self, limits: &Limits, index: usize) -> Option<Reference> {
        let limits = Limits {
            types: index,
            ..*limits
        };
        first_outside(self, &limits)
    }
}

impl Element for Constant {
    ghost limits_for = { λ limits _. limits };

    fn first_outside(&self, limits: &Limits, _index: usize) -> Option<Reference> {
        first_outside(self, limits)
    }
}

impl Element for Override {
    ghost limits_for = { λ limits _. limits };

    fn first_outside(&self, limits: &Limits, _index: usize) -> Option<Reference> {
        first_outside(self, limits)
    }
}

impl Element for GlobalVariable {
    ghost limits_for = { λ limits _. limits };

    fn first_outside(&self, limits: &Limits, _index: usize) -> Option<Reference> {
        first_outside(self, limits)
    }
}

impl Element for Expression {
    ghost limits_for = { λ limits index. record limits { expressions = index } };

    fn first_outside(&self, limits: &Limits, index: usize) -> Option<Reference> {
        first_outside_before(self, limits, index)
    }
}

impl Element for LocalVariable {
    ghost limits_for = { λ limits _. limits };

    fn first_outside(&self, limits: &Limits, _index: usize) -> Option<Reference> {
        first_outside(self, limits)
    }
}

impl Element for DiagnosticFilterNode {
    ghost limits_for = { λ limits index. record limits { diagnostic_filters = index } };

    fn first_outside(&self, limits: &Limits, index: usize) -> Option<Reference> {
        let limits = Limits {
            diagnostic_filters: index,
            ..*limits
        };
        first_outside(self, &limits)
    }
}

/// Returns the first element of an arena that contains a handle that is not within the limits for the element, and that
/// handle.
pub(super) fn first_element_outside<T: Element>(
    elements: ArenaIter<'_, T>,
    limits: &Limits,
) -> Option<(Handle<T>, Reference)>
    ensures { FindsElement T.references (T.limits_for limits.now) elements.entry result }
{
    for (handle, element) in elements {
        if let Some(reference) = element.first_outside(limits, handle.index()) {
            return Some((handle, reference));
        }
    }
    None
}
