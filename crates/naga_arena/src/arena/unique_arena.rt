//! The [`UniqueArena`] type.
ghost use Rattle.std.specs.Prelude.{◌≡◌, ◌<◌, ◌≤◌, ◌↔◌, ◌==◌, ◌∷◌, [], ◌++◌, IsOk, IfOk, IfErr, OnOk, OnErr, OnSome, IfNone, Err, None, Some, All, length, unwrap_or};
ghost use Rattle.std.specs.List.{enumerate_from};
ghost use Rattle.naga_arena.specs.Arena.{max_len, values, span_at, handle_of, with_value, value_at};
ghost use Rattle.naga_arena.specs.UniqueArena.{HasDistinctValues, IsUniqueCloneOf};

use super::ArenaError;
use super::drain::{Drain, UniqueArenaDrain};
use super::handle::{BadHandle, Handle, KindName};
use super::iter::ArenaIter;
use crate::span::Span;
use crate::try_clone::TryClone;
use indexmap::IndexSet;
use std::alloc::{AllocError, Global};
use std::hash::Hash;
use std::marker::Model;
use std::ops::Index;
use std::{fmt, mem};

/// An arena of values of which no two are equal, each with a span. [`Handle`]s refer to the values.
///
/// Inserting a value returns its handle, and inserting an equal value returns that handle again. Looking up a value by
/// its handle does not compute a hash. Two values are equal if `==` returns `true` for them.
///
/// In contracts, a unique arena is a list of pairs of a value and its span, with at most `u32::MAX` elements.
#[derive(Drop)]
pub struct UniqueArena<T: Eq + Hash> {
    /// The values.
    set: IndexSet<T>,
    /// The span of each value, at the index of the value.
    span_info: Vec<Span>,
}

impl<T: Eq + Hash> Model for UniqueArena<T> {
    ghost use Rattle.std.specs.Prelude.{List, ◌≡◌, ◌≤◌, length};
    ghost use Rattle.std.specs.List.{zip};
    ghost use Rattle.naga_arena.specs.Limits.{max_len};
    ghost use Rattle.naga_arena.specs.declared.span.Span.{Span as SpanValue};

    ghost Value = { List (T × SpanValue) };

    ghost view = { λ a. zip a.set.keys a.span_info.items };

    ghost invariant = { λ a.
        (length a.span_info.items ≡ length a.set.keys) × (length a.set.keys ≤ max_len) };
}

#[tactic(auto, using(crate::proofs::ZipLemmas::pairs, crate::proofs::EnumerateFromLemmas::enumerated))]
impl<T: Eq + Hash> UniqueArena<T> {
    /// Creates an empty arena.
    ///
    /// The arena does not allocate until the first [`insert`](UniqueArena::insert).
    pub fn new(alloc: Global) -> Self
        ensures { result ≡ [] }
    {
        UniqueArena {
            set: IndexSet::new(alloc),
            span_info: Vec::new(alloc),
        }
    }

    /// Returns the number of values.
    pub fn len(&self) -> usize
        ensures value { result ≡ length self.now }
        ensures bound { result ≤ max_len }
        ensures distinct { HasDistinctValues T.eq self.now }
    {
        self.set.len()
    }

    /// Returns whether the arena has no values.
    pub fn is_empty(&self) -> bool
        ensures { result ≡ (length self.now == 0) }
    {
        self.set.is_empty()
    }

    /// Removes all values and their spans.
    pub fn clear(&mut self)
    where
        T: Drop,
        ensures { self.new ≡ [] }
    {
        self.set.clear();
        self.span_info.clear();
    }

    /// Returns an arena with all the values, leaving this arena empty.
    pub fn take(&mut self) -> Self
    where
        T: Drop,
        ensures taken { result ≡ self.old }
        ensures emptied { self.new ≡ [] }
    {
        let alloc = *self.set.allocator();
        mem::replace(self, UniqueArena::new(alloc))
    }

    /// Removes all values, returning a double-ended iterator that yields the handle, value and span of each.
    ///
    /// The arena is empty as soon as this method returns.
    ///
    /// Differs from naga: naga's iterator borrows the arena, and yields values only from the front.
    pub fn drain_all(&mut self) -> UniqueArenaDrain<T>
    where
        T: Drop,
        ensures rest { result ≡ enumerate_from 0 self.old }
        ensures len { length result ≡ length self.old }
        ensures within { All (λ entry. entry.0 < length self.old) result }
        ensures emptied { self.new ≡ [] }
    {
        let UniqueArena { set, span_info } = self.take();
        Drain::new(set.into_iter(), span_info)
    }

    /// Returns a double-ended iterator that yields each value's handle and a reference to the value.
    pub fn iter(&self) -> UniqueArenaIter<'_, T>
        ensures rest { result ≡ enumerate_from 0 (values self.now) }
        ensures len { length result ≡ length self.now }
        ensures within { All (λ entry. entry.0 < length self.now) result }
        ensures distinct { HasDistinctValues T.eq self.now }
    {
        ArenaIter::new(self.set.as_slice())
    }
}

#[tactic(auto, using(crate::proofs::ZipLemmas::pairs, crate::proofs::PositionLemmas::finding))]
impl<T: Eq + Hash + KindName> UniqueArena<T> {
    /// Returns the span of the value with this handle, or [`Span::UNDEFINED`] if `handle` is not in the arena.
    ///
    /// If a value was inserted more than once, its span is that of the first insertion.
    pub fn get_span(&self, handle: Handle<T>) -> Span
        ensures { result ≡ span_at self.now handle }
    {
        match self.span_info.get(handle.index()) {
            Some(span) => *span,
            None => Span::UNDEFINED,
        }
    }

    /// Inserts a value with its span, and returns its handle.
    ///
    /// If the arena already contains an equal value, returns the handle of that value. That value and its span are
    /// unchanged, nothing is allocated and `value` is dropped. Otherwise `value` is appended.
    ///
    /// Fails with [`ArenaError::Full`] if and only if the arena has `u32::MAX` elements and contains no equal value, so
    /// that no handle is left; this is checked before anything is allocated. Fails with [`ArenaError::Memory`] if
    /// allocation fails. On error, the arena is unchanged and `value` is dropped.
    ///
    /// Differs from naga: naga panics if no handle is left, after it has inserted the value.
    pub fn insert(&mut self, value: T, span: Span) -> Result<Handle<T>, ArenaError>
    where
        T: Drop,
        ensures found { OnSome (handle_of T.eq self.old value) (IsOk result) }
        ensures handle { IfOk result
            (λ handle. handle ≡ unwrap_or (handle_of T.eq self.old value) (length self.old)) }
        ensures kept { OnSome (handle_of T.eq self.old value) (self.new ≡ self.old) }
        ensures appended { IfNone (handle_of T.eq self.old value)
            (OnOk result (self.new ≡ self.old ++ (value, span) ∷ [])) }
        ensures full { (result ≡ Err ArenaError.Full)
            ↔ ((length self.old ≡ max_len) × (handle_of T.eq self.old value ≡ None)) }
        ensures unchanged { OnErr result (self.new ≡ self.old) }
        ensures distinct { HasDistinctValues T.eq self.new }
    {
        // There is no handle left for a new value, so nothing must be allocated for it.
        if Handle::<T>::from_usize(self.set.len()).is_none() {
            return self.get(&value).ok_or(ArenaError::Full);
        }
        let Ok((index, added)) = self.set.insert_full(value) else {
            return Err(ArenaError::Memory);
        };
        if added && self.span_info.push(span).is_err() {
            let _ = self.set.pop();
            return Err(ArenaError::Memory);
        }
        Ok(Handle::<T>::at(index))
    }

    /// Replaces the value that `old` refers to with `new`, and keeps its span.
    ///
    /// Returns `Err` if allocation fails. The arena is then unchanged and `new` is dropped.
    ///
    /// The caller must ensure that `old` is in the arena, which [`check_contains_handle`](Self::check_contains_handle)
    /// tests, and that no value in the arena is equal to `new`, which [`get`](Self::get) tests.
    ///
    /// Differs from naga: naga panics if a value in the arena is equal to `new`. It also panics if the index of `old`
    /// is greater than the length, after it has inserted `new`. If the index is equal to the length, it silently drops
    /// `new`.
    pub fn replace(&mut self, old: Handle<T>, new: T) -> Result<(), AllocError>
    where
        T: Drop,
        requires old_in { old < length self.old }
        requires new_not_in { handle_of T.eq self.old new ≡ None }
        ensures replaced { OnOk result (self.new ≡ with_value self.old old new) }
        ensures unchanged { OnErr result (self.new ≡ self.old) }
        ensures distinct { HasDistinctValues T.eq self.new }
    {
        self.set.insert(new)?;
        let _ = self.set.swap_remove_index(old.index());
        Ok(())
    }

    /// Returns the handle of the value that is equal to `value`, or `None` if there is no such value.
    pub fn get(&self, value: &T) -> Option<Handle<T>>
        ensures { result ≡ handle_of T.eq self.now value.now }
    {
        let index = self.set.get_index_of(value)?;
        Some(Handle::<T>::at(index))
    }

    /// Returns a reference to the value with this handle, or a [`BadHandle`] if `handle` is not in the arena.
    pub fn get_handle(&self, handle: Handle<T>) -> Result<&T, BadHandle>
        ensures found { IsOk result ↔ (handle < length self.now) }
        ensures value { IfOk result (λ value. value_at self.now handle ≡ Some value.now) }
        ensures kind { IfErr result (λ error. error.kind.now ≡ T.name) }
        ensures index { IfErr result (λ error. error.index ≡ handle) }
    {
        match self.set.get_index(handle.index()) {
            Some(value) => Ok(value),
            None => Err(BadHandle::new::<T>(handle)),
        }
    }

    /// Returns `Ok` if `handle` is in the arena, and a [`BadHandle`] otherwise.
    pub fn check_contains_handle(&self, handle: Handle<T>) -> Result<(), BadHandle>
        ensures found { IsOk result ↔ (handle < length self.now) }
        ensures kind { IfErr result (λ error. error.kind.now ≡ T.name) }
        ensures index { IfErr result (λ error. error.index ≡ handle) }
    {
        if handle.index() < self.set.len() {
            Ok(())
        } else {
            Err(BadHandle::new::<T>(handle))
        }
    }
}

/// An iterator that yields the handle of each value of a unique arena and a reference to the value.
///
/// In contracts, it is the list of its remaining items.
pub type UniqueArenaIter<'a, T> = ArenaIter<'a, T>;

/// Returns a reference to the value with this handle.
///
/// The caller must ensure that `handle` is in the arena; [`check_contains_handle`](UniqueArena::check_contains_handle)
/// tests it.
///
/// Differs from naga: naga panics if `handle` is not in the arena.
#[tactic(auto, using(crate::proofs::ZipLemmas::pairs))]
impl<T: Eq + Hash + KindName> Index<Handle<T>> for UniqueArena<T> {
    type Output = T;

    ghost can_index = { λ arena handle. handle < length arena };

    ghost index_gives = { λ arena handle value. value_at arena handle ≡ Some value };

    fn index(&self, handle: Handle<T>) -> &T {
        &self.set[handle.index()]
    }
}

/// Clones each value, in order, and appends the clone with the same span, unless it is equal to an earlier clone.
#[tactic(auto, using(crate::proofs::ZipLemmas::pairs))]
impl<T: Eq + Hash + TryClone + Drop> TryClone for UniqueArena<T> {
    ghost clone_gives = { IsUniqueCloneOf T.eq T.clone_gives };

    fn clone(&self) -> Result<Self, AllocError> {
        let alloc = *self.set.allocator();
        let mut set = IndexSet::with_capacity(alloc, self.set.len())?;
        let mut span_info = Vec::with_capacity(alloc, self.set.len())?;
        'each: for (i, value) in self.set.as_slice().iter().enumerate() {
            if set.insert(TryClone::clone(value)?)? {
                span_info.push(self.span_info[i])?;
            }
        }
        Ok(UniqueArena { set, span_info })
    }
}

impl<T: Eq + Hash + KindName + fmt::Debug> fmt::Debug for UniqueArena<T> {
    fn fmt<W: fmt::Write>(&self, f: &mut fmt::Formatter<W>) -> fmt::Result {
        f.debug_map().entries(self.iter()).finish()
    }
}
