//! The references of a part of a module: a walk over them, and an iterator that is made of the walk.
ghost use Rattle.std.specs.Prelude.{◌≡◌, length, IfSome, Some};
ghost use Rattle.std.specs.Iterator.{UpTo, YieldsFirst, item_count};
ghost use Rattle.std.specs.Iterator.SizeHint.{IsWithinCount};

mod declarations;
mod entry_point;
mod nth;
pub(crate) mod operands;

use crate::reference::Reference;
use crate::visitor::Visitor;
use nth::Nth;
use std::iter::FusedIterator;
use std::marker::Model;
use std::ops::ControlFlow;

/// A part of a module that refers to elements of the module.
///
/// Differs from naga: naga has no such trait. Each of its passes names the operands of each expression by itself.
pub trait Refers {
    ghost use Rattle.std.specs.Prelude.{List};
    ghost use Rattle.naga_valid.specs.Visits.{IsWalk};
    ghost use Rattle.naga_valid.specs.declared.reference.Reference.{Reference as ReferenceTo};

    ghost references: { Self → List ReferenceTo };

    /// Visits what this part refers to, in declared order, until the visitor stops.
    fn visit_references<V: Visitor>(&self, visitor: &mut V) -> ControlFlow<V::Break>
        ensures { IsWalk V.visits visitor.old (references self.now) result visitor.new };
}

/// An iterator over what a part of a module refers to, in declared order.
///
/// In contracts, it is the list of the remaining references.
#[derive(Drop)]
pub struct References<'a, P: Refers> {
    part: &'a P,
    position: usize,
}

impl<'a, P: Refers> Model for References<'a, P> {
    ghost use Rattle.std.specs.Prelude.{◌≤◌, List, drop, length};
    ghost use Rattle.naga_valid.specs.declared.reference.Reference.{Reference as ReferenceTo};

    ghost Value = { List ReferenceTo };

    ghost view = { λ it. drop it.position (P.references it.part.now) };

    ghost invariant = { λ it. it.position ≤ length (P.references it.part.now) };
}

/// Returns an iterator over what a part of a module refers to, in declared order.
pub fn references_of<P: Refers>(part: &P) -> References<'_, P>
    ensures { result ≡ P.references part.now }
{
    References { part, position: 0 }
}

impl<'a, P: Refers> Iterator for References<'a, P> {
    type Item = Reference;

    ghost next_gives = { YieldsFirst (λ rest. rest) };

    ghost remaining = { item_count (λ rest. rest) };

    fn next(&mut self) -> Option<Reference> {
        let mut nth = Nth::new(self.position);
        match self.part.visit_references(&mut nth) {
            ControlFlow::Continue(()) => None,
            ControlFlow::Break(reference) => {
                self.position += 1;
                Some(reference)
            }
        }
    }

    fn size_hint(&self) -> (usize, Option<usize>)
        ensures lower { IsWithinCount result.0 (item_count (λ rest. rest) self.now) }
        ensures upper { IfSome result.1 (UpTo (item_count (λ rest. rest) self.now)) }
        ensures value { result ≡ (length self.now, Some (length self.now)) }
    {
        let len = self.len();
        (len, Some(len))
    }
}

impl<'a, P: Refers> ExactSizeIterator for References<'a, P> {
    fn len(&self) -> usize {
        // No part refers to more than `usize::MAX` elements, so the visitor passes all of them.
        let mut nth = Nth::new(usize::MAX);
        match self.part.visit_references(&mut nth) {
            ControlFlow::Continue(()) => usize::MAX - nth.left() - self.position,
            ControlFlow::Break(_) => unreachable!(),
        }
    }
}

impl<'a, P: Refers> FusedIterator for References<'a, P> {}
