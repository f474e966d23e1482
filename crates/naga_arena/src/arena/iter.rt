//! The iterator over references to the elements of an arena.
ghost use Rattle.std.specs.Prelude.{◌≡◌, ◌≤◌, length, IfSome, Some};
ghost use Rattle.std.specs.Iterator.{YieldsFirstBy, YieldsLastBy, item_count, UpTo};
ghost use Rattle.std.specs.Iterator.SizeHint.{IsWithinCount};
ghost use Rattle.std.specs.List.{enumerate_from};
ghost use Rattle.naga_arena.specs.Limits.{max_len};

use crate::arena::handle::{Handle, KindName};
use std::iter::FusedIterator;
use std::marker::Model;

/// An iterator that yields the handle of each element of an arena and a reference to the element.
///
/// In contracts, it is the list of its remaining items.
#[derive(Drop)]
pub struct ArenaIter<'a, T> {
    values: &'a [T],
    // The index of the first of `values`.
    first: usize,
}

impl<'a, T> Model for ArenaIter<'a, T> {
    ghost use Rattle.std.specs.Prelude.{ℕ, List, length, ◌+◌, ◌≤◌};
    ghost use Rattle.std.specs.List.{enumerate_from};
    ghost use Rattle.naga_arena.specs.Limits.{max_len};

    ghost Value = { List (ℕ × T) };

    ghost view = { λ it. enumerate_from it.first it.values.now };

    ghost invariant = { λ it. it.first + length it.values.now ≤ max_len };
}

impl<'a, T> ArenaIter<'a, T> {
    pub(super) fn new(values: &'a [T]) -> Self
        requires { length values.now ≤ max_len }
        ensures { result ≡ enumerate_from 0 values.now }
    {
        ArenaIter { values, first: 0 }
    }
}

#[tactic(auto, using(crate::proofs::EnumerateFromLemmas::enumerated))]
impl<'a, T: KindName> Iterator for ArenaIter<'a, T> {
    type Item = (Handle<T>, &'a T);

    ghost next_gives = { YieldsFirstBy (λ item. (item.0, item.1.now)) (λ rest. rest) };

    ghost remaining = { item_count (λ rest. rest) };

    fn next(&mut self) -> Option<(Handle<T>, &'a T)> {
        let (value, rest) = self.values.split_first()?;
        // This never panics. The check lets LLVM know that the index fits into 32 bits, so each step takes fewer
        // instructions.
        let handle = Handle::<T>::from_usize(self.first).unwrap();
        self.values = rest;
        self.first += 1;
        Some((handle, value))
    }

    fn size_hint(&self) -> (usize, Option<usize>)
        ensures lower { IsWithinCount result.0 (item_count (λ rest. rest) self.now) }
        ensures upper { IfSome result.1 (UpTo (item_count (λ rest. rest) self.now)) }
        ensures value { result ≡ (length self.now, Some (length self.now)) }
    {
        let len = self.values.len();
        (len, Some(len))
    }
}

#[tactic(auto, using(crate::proofs::EnumerateFromLemmas::enumerated))]
impl<'a, T: KindName> DoubleEndedIterator for ArenaIter<'a, T> {
    ghost next_back_gives = { YieldsLastBy (λ item. (item.0, item.1.now)) (λ rest. rest) };

    fn next_back(&mut self) -> Option<(Handle<T>, &'a T)> {
        let (value, rest) = self.values.split_last()?;
        let handle = Handle::<T>::at(self.first + rest.len());
        self.values = rest;
        Some((handle, value))
    }
}

#[tactic(auto, using(crate::proofs::EnumerateFromLemmas::enumerated))]
impl<'a, T: KindName> ExactSizeIterator for ArenaIter<'a, T> {
    fn len(&self) -> usize {
        self.values.len()
    }
}

impl<'a, T: KindName> FusedIterator for ArenaIter<'a, T> {}
