//! Typed ranges of handles to the elements of an arena.
ghost use Rattle.std.specs.Prelude.{◌≡◌, ◌<◌, ◌≤◌, ◌+◌, ◌-◌, ◌↔◌, ⊤, length, Some, IsSome, IfSome};
ghost use Rattle.std.specs.Iterator.{UpTo, item_count};
ghost use Rattle.std.specs.Iterator.SizeHint.{IsWithinCount};
ghost use Rattle.naga_arena.specs.Handle.{range_text};
ghost use Rattle.naga_arena.specs.Range.{TakesFirst, TakesLast, handles_of};

use super::Arena;
use super::handle::{Handle, KindHandle, KindName};
use std::alloc::AllocError;
use std::iter::FusedIterator;
use std::marker::{Model, PhantomData};
use std::{fmt, ops};
use thiserror::Error;

/// A range of consecutive handles to elements of type `T`.
pub type Range<T> = KindRange<<T as KindName>::Kind>;

/// A [`Range`] of handles to elements of the type that `K` represents.
///
/// It contains the handles from the first bound up to, but not including, the second. The first bound may be greater
/// than the second; the range is then inverted and contains no handles.
///
/// In contracts, a range is the pair of its bounds.
#[derive(Drop)]
pub struct KindRange<K> {
    inner: ops::Range<u32>,
    marker: PhantomData<K>,
}

impl<K> Model for KindRange<K> {
    ghost use Rattle.std.specs.Prelude.{ℕ};

    ghost Value = { ℕ × ℕ };

    ghost view = { λ r. (r.inner.start, r.inner.end) };
}

impl<K> KindRange<K> {
    /// Creates the range of the handles from `first` to `last`, both included.
    ///
    /// If `first` is greater than `last`, the range contains no handles: its bounds are equal or inverted.
    pub fn new_from_bounds(first: KindHandle<K>, last: KindHandle<K>) -> Self
        ensures { result ≡ (first, last + 1) }
    {
        KindRange::from_inner((first.index() as u32)..(last.index() as u32 + 1))
    }

    /// Creates the range of all handles with an index below `size`.
    ///
    /// Differs from naga: naga's `full_range_from_size` takes a `usize` and truncates it to 32 bits.
    pub fn up_to(size: u32) -> Self
        ensures { result ≡ (0, size) }
    {
        KindRange::from_inner(0..size)
    }

    /// Returns the first and the last handle, or `None` if the range contains no handles.
    pub fn first_and_last(&self) -> Option<(KindHandle<K>, KindHandle<K>)>
        ensures some { IsSome result ↔ (self.now.0 < self.now.1) }
        ensures value { IfSome result (λ ends. ends ≡ (self.now.0, self.now.1 - 1)) }
    {
        let (first, end) = (self.inner.start, self.inner.end);
        if first < end {
            Some((
                KindHandle::at(first as usize),
                KindHandle::at((end - 1) as usize),
            ))
        } else {
            None
        }
    }

    /// Returns the two bounds as a range of indices.
    pub fn index_range(&self) -> ops::Range<u32>
        ensures { result ≡ record { start = self.now.0; «end» = self.now.1 } }
    {
        self.inner.start..self.inner.end
    }

    /// Returns a range with the same bounds, erasing the type of the elements.
    pub(crate) fn erase_type(self) -> KindRange<()>
        ensures { result ≡ self }
    {
        KindRange::from_inner(self.inner)
    }

    /// Creates a range of elements of the arena from its bounds.
    ///
    /// The caller must ensure that the start of `inner` is at most its end, and its end at most the length of the
    /// arena.
    ///
    /// Differs from naga: naga panics if these preconditions are not met.
    pub fn from_index_range<T: KindName<Kind = K>>(
        inner: ops::Range<u32>,
        _arena: &Arena<T>,
    ) -> Self
        requires ordered { inner.start ≤ inner.end }
        requires within { inner.end ≤ length _arena.now }
        ensures { result ≡ (inner.start, inner.end) }
    {
        KindRange::from_inner(inner)
    }

    /// Creates the range with these bounds.
    pub(super) fn from_inner(inner: ops::Range<u32>) -> Self
        ensures { result ≡ (inner.start, inner.end) }
    {
        KindRange {
            inner,
            marker: PhantomData,
        }
    }
}

impl<K> Clone for KindRange<K> {
    ghost is_clone = { λ range copy. copy ≡ range };

    ghost is_infallible = { λ _. ⊤ };

    fn clone(&self) -> Result<Self, AllocError> {
        Ok(KindRange::from_inner(self.index_range()))
    }
}

/// Yields the handles in ascending order. A range that contains no handles is left unchanged.
#[tactic(auto, using(crate::proofs::HandlesOfLemmas::handles))]
impl<K> Iterator for KindRange<K> {
    type Item = KindHandle<K>;

    ghost next_gives = { TakesFirst };

    ghost remaining = { item_count handles_of };

    fn next(&mut self) -> Option<KindHandle<K>> {
        if self.inner.start < self.inner.end {
            let first = self.inner.start;
            self.inner.start += 1;
            Some(KindHandle::at(first as usize))
        } else {
            None
        }
    }

    fn size_hint(&self) -> (usize, Option<usize>)
        ensures lower { IsWithinCount result.0 (item_count handles_of self.now) }
        ensures upper { IfSome result.1 (UpTo (item_count handles_of self.now)) }
        ensures value { result ≡ (self.now.1 - self.now.0, Some (self.now.1 - self.now.0)) }
    {
        (self.len(), Some(self.len()))
    }
}

/// Yields the handles in descending order. A range that contains no handles is left unchanged.
///
/// Differs from naga: naga's range is not a `DoubleEndedIterator`.
#[tactic(auto, using(crate::proofs::HandlesOfLemmas::handles))]
impl<K> DoubleEndedIterator for KindRange<K> {
    ghost next_back_gives = { TakesLast };

    fn next_back(&mut self) -> Option<KindHandle<K>> {
        if self.inner.start < self.inner.end {
            self.inner.end -= 1;
            Some(KindHandle::at(self.inner.end as usize))
        } else {
            None
        }
    }
}

#[tactic(auto, using(crate::proofs::HandlesOfLemmas::handles))]
impl<K> ExactSizeIterator for KindRange<K> {
    fn len(&self) -> usize {
        if self.inner.start < self.inner.end {
            (self.inner.end - self.inner.start) as usize
        } else {
            0
        }
    }
}

impl<K> FusedIterator for KindRange<K> {}

impl<K> fmt::Debug for KindRange<K> {
    ghost debug_output = { λ range. Some (range_text range) };

    fn fmt<W: fmt::Write>(&self, f: &mut fmt::Formatter<W>) -> fmt::Result {
        let start = self.inner.start;
        let end = self.inner.end;
        write!(f, "[{start}..{end}]")
    }
}

/// The error returned when a range is inverted or contains handles that are not in the arena.
///
/// In contracts, it is the name of the element type and the two bounds.
#[derive(Clone, Debug, Drop, Error)]
#[error("Handle range {range:?} of {kind} is either not present, or inaccessible yet")]
pub struct BadRangeError {
    kind: &'static str,
    range: KindRange<()>,
}

impl Model for BadRangeError {
    ghost use Rattle.std.specs.Prelude.{ℕ, List};

    ghost Value = { List ℕ × (ℕ × ℕ) };

    ghost view = { λ e. (e.kind.now, e.range) };
}

impl BadRangeError {
    /// Creates the error for this range of handles to `T`s.
    pub fn new<T: KindName>(range: Range<T>) -> Self
        ensures { result ≡ (T.name, range) }
    {
        BadRangeError {
            kind: T::kind_name(),
            range: range.erase_type(),
        }
    }
}
