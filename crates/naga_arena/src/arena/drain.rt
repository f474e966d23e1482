//! Draining iterators, which own the elements removed from an arena.
ghost use Rattle.std.specs.Prelude.{◌≡◌, ◌≤◌, List, length, IfSome, Some};
ghost use Rattle.std.specs.Iterator.{YieldsFirst, YieldsLast, YieldsFirstBy, YieldsLastBy, item_count, UpTo};
ghost use Rattle.std.specs.Iterator.SizeHint.{IsWithinCount};
ghost use Rattle.std.specs.List.{enumerate_from, zip};
ghost use Rattle.std.specs.Vec.Iter.{into_iter_items};
ghost use Rattle.naga_arena.specs.Limits.{max_len};

use super::handle::{Handle, KindName};
use crate::span::Span;
use indexmap::set;
use std::iter::FusedIterator;
use std::marker::{Model, PhantomData};
use std::vec;

/// The values removed from an arena, which can be taken from both ends.
pub trait Values<T>: Drop {
    /// The remaining values, in order.
    ghost rest: { Self → List T };

    /// Returns the number of remaining values.
    fn len(&self) -> usize
        ensures { result ≡ length (rest self.now) };

    /// Removes and returns the first remaining value, or returns `None` if there is none.
    fn next_value(&mut self) -> Option<T>
        ensures { YieldsFirst rest self.old result self.new };

    /// Removes and returns the last remaining value, or returns `None` if there is none.
    fn next_value_back(&mut self) -> Option<T>
        ensures { YieldsLast rest self.old result self.new };
}

impl<T: Drop> Values<T> for vec::IntoIter<T> {
    ghost rest = { into_iter_items };

    fn len(&self) -> usize {
        ExactSizeIterator::len(self)
    }

    fn next_value(&mut self) -> Option<T> {
        self.next()
    }

    fn next_value_back(&mut self) -> Option<T> {
        self.next_back()
    }
}

impl<T: Drop> Values<T> for set::IntoIter<T> {
    ghost rest = { λ values. values };

    fn len(&self) -> usize {
        ExactSizeIterator::len(self)
    }

    fn next_value(&mut self) -> Option<T> {
        self.next()
    }

    fn next_value_back(&mut self) -> Option<T> {
        self.next_back()
    }
}

/// An iterator that owns the elements removed from an arena, and yields the handle, value and span of each.
///
/// In contracts, it is the list of its remaining items.
#[derive(Drop)]
pub struct Drain<T, V: Values<T>> {
    values: V,
    // The spans of all values, including the values already taken: only the values need an iterator.
    spans: Vec<Span>,
    // The index of the first of `values`.
    first: usize,
    marker: PhantomData<T>,
}

/// An iterator over the elements removed from an [`Arena`](super::Arena).
pub type ArenaDrain<T> = Drain<T, vec::IntoIter<T>>;

/// An iterator over the elements removed from a [`UniqueArena`](super::UniqueArena).
pub type UniqueArenaDrain<T> = Drain<T, set::IntoIter<T>>;

impl<T, V: Values<T>> Model for Drain<T, V> {
    ghost use Rattle.std.specs.Prelude.{ℕ, List, drop, length, ◌+◌, ◌≤◌};
    ghost use Rattle.std.specs.List.{enumerate_from, zip};
    ghost use Rattle.naga_arena.specs.Limits.{max_len};
    ghost use Rattle.naga_arena.specs.declared.span.Span.{Span as SpanValue};

    ghost Value = { List (ℕ × (T × SpanValue)) };

    ghost view = { λ it.
        enumerate_from it.first (zip (V.rest it.values) (drop it.first it.spans.items)) };

    ghost invariant = { λ it.
        (it.first + length (V.rest it.values) ≤ length it.spans.items)
        × (length it.spans.items ≤ max_len) };
}

impl<T, V: Values<T>> Drain<T, V> {
    pub(super) fn new(values: V, spans: Vec<Span>) -> Self
        requires aligned { length spans.items ≡ length (V.rest values) }
        requires fits { length (V.rest values) ≤ max_len }
        ensures { result ≡ enumerate_from 0 (zip (V.rest values) spans.items) }
    {
        Drain {
            values,
            spans,
            first: 0,
            marker: PhantomData,
        }
    }
}

#[tactic(auto, using(crate::proofs::EnumerateFromLemmas::drained))]
impl<T: KindName + Drop, V: Values<T>> Iterator for Drain<T, V> {
    type Item = (Handle<T>, T, Span);

    ghost next_gives = { YieldsFirstBy (λ item. (item.0, (item.1, item.2))) (λ rest. rest) };

    ghost remaining = { item_count (λ rest. rest) };

    fn next(&mut self) -> Option<(Handle<T>, T, Span)> {
        let value = self.values.next_value()?;
        let span = self.spans[self.first];
        let handle = Handle::<T>::at(self.first);
        self.first += 1;
        Some((handle, value, span))
    }

    fn size_hint(&self) -> (usize, Option<usize>)
        ensures lower { IsWithinCount result.0 (item_count (λ rest. rest) self.now) }
        ensures upper { IfSome result.1 (UpTo (item_count (λ rest. rest) self.now)) }
        ensures value { result ≡ (length self.now, Some (length self.now)) }
    {
        let len = self.values.len();
        (len, Some(len))
    }
}

#[tactic(auto, using(crate::proofs::EnumerateFromLemmas::drained))]
impl<T: KindName + Drop, V: Values<T>> DoubleEndedIterator for Drain<T, V> {
    ghost next_back_gives = { YieldsLastBy (λ item. (item.0, (item.1, item.2))) (λ rest. rest) };

    fn next_back(&mut self) -> Option<(Handle<T>, T, Span)> {
        let value = self.values.next_value_back()?;
        let handle = Handle::<T>::at(self.first + self.values.len());
        let span = self.spans[handle.index()];
        Some((handle, value, span))
    }
}

#[tactic(auto, using(crate::proofs::EnumerateFromLemmas::drained))]
impl<T: KindName + Drop, V: Values<T>> ExactSizeIterator for Drain<T, V> {
    fn len(&self) -> usize {
        self.values.len()
    }
}

impl<T: KindName + Drop, V: Values<T>> FusedIterator for Drain<T, V> {}
