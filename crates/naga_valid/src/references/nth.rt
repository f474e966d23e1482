//! A visitor that stops at the reference at a position.
ghost use Rattle.std.specs.Prelude.{◌≡◌};

use crate::reference::{HasReference, Reference};
use crate::visitor::Visitor;
use std::ops::ControlFlow;

/// The number of references that are passed before the visitor stops.
#[derive(Clone, Copy, Debug)]
pub(super) struct Nth {
    left: usize,
}

impl Nth {
    /// Creates a visitor that stops at the reference at a position.
    pub(super) fn new(position: usize) -> Self
        ensures { result.left ≡ position }
    {
        Nth { left: position }
    }

    /// Returns the number of references that are still to be passed.
    pub(super) fn left(&self) -> usize
        ensures { result ≡ self.now.left }
    {
        self.left
    }
}

impl Visitor for Nth {
    ghost use Rattle.naga_valid.specs.Visits.{counts_down};

    type Break = Reference;

    ghost visits = { counts_down };

    fn visit(&mut self, reference: Reference) -> ControlFlow<Reference> {
        if self.left == 0 {
            return ControlFlow::Break(reference);
        }
        self.left -= 1;
        ControlFlow::Continue(())
    }

    fn visit_each<T: HasReference>(&mut self, list: &[T]) -> ControlFlow<Reference> {
        match list.get(self.left) {
            Some(element) => {
                self.left = 0;
                ControlFlow::Break(element.reference())
            }
            None => {
                self.left -= list.len();
                ControlFlow::Continue(())
            }
        }
    }
}
