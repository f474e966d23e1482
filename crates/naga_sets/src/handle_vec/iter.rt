//! The iterator over the values of a vector that is indexed by handles.
ghost use Rattle.std.specs.Prelude.{◌≡◌, Some, IfSome, length};
ghost use Rattle.std.specs.Iterator.{UpTo, YieldsFirstBy, item_count};
ghost use Rattle.std.specs.Iterator.SizeHint.{IsWithinCount};

use std::iter::FusedIterator;
use std::marker::Model;

/// An iterator over the values of a `HandleVec`, in the order of their handles.
///
/// In contracts, it is the list of the remaining values.
#[derive(Drop)]
pub struct HandleVecIter<'a, U> {
    values: &'a [U],
}

impl<'a, U> Model for HandleVecIter<'a, U> {
    ghost use Rattle.std.specs.Prelude.{List};

    ghost Value = { List U };

    ghost view = { λ it. it.values.now };
}

impl<'a, U> HandleVecIter<'a, U> {
    pub(super) fn new(values: &'a [U]) -> Self
        ensures { result ≡ values.now }
    {
        HandleVecIter { values }
    }
}

impl<'a, U> Iterator for HandleVecIter<'a, U> {
    type Item = &'a U;

    ghost next_gives = { YieldsFirstBy (λ item. item.now) (λ rest. rest) };

    ghost remaining = { item_count (λ rest. rest) };

    fn next(&mut self) -> Option<&'a U> {
        let (value, rest) = self.values.split_first()?;
        self.values = rest;
        Some(value)
    }

    fn size_hint(&self) -> (usize, Option<usize>)
        ensures lower { IsWithinCount result.0 (item_count (λ rest. rest) self.now) }
        ensures upper { IfSome result.1 (UpTo (item_count (λ rest. rest) self.now)) }
        ensures value { result ≡ (length self.now, Some (length self.now)) }
    {
        let len = self.values.len();
        (len, Some(len))
    }
}

impl<'a, U> FusedIterator for HandleVecIter<'a, U> {}

impl<'a, U> ExactSizeIterator for HandleVecIter<'a, U> {
    fn len(&self) -> usize {
        self.values.len()
    }
}
