//! What is done with each reference of a part of a module.

use crate::reference::{HasReference, Reference};
use std::ops::ControlFlow;

/// A visitor of the references of a part of a module, which may stop.
///
/// Differs from naga: naga has no such trait.
pub trait Visitor {
    ghost use Rattle.std.specs.Prelude.{map};
    ghost use Rattle.naga_valid.specs.Visits.{IsWalk, Step};

    /// What the visitor returns when it stops.
    type Break;

    // What the visitor may return for a reference, and the state in which it is then.
    ghost visits: { Step Self.Break Self };

    /// Visits a reference. The walk stops at the first `ControlFlow::Break`.
    fn visit(&mut self, reference: Reference) -> ControlFlow<Self::Break>
        ensures { visits self.old reference result self.new };

    /// Visits what the elements of a list refer to, one after another, and stops at the first `ControlFlow::Break`.
    fn visit_each<T: HasReference>(&mut self, list: &[T]) -> ControlFlow<Self::Break>
        ensures { IsWalk visits self.old (map T.reference list.now) result self.new }
    {
        for element in list {
            match self.visit(element.reference()) {
                ControlFlow::Continue(()) => {}
                ControlFlow::Break(stop) => return ControlFlow::Break(stop),
            }
        }
        ControlFlow::Continue(())
    }
}
