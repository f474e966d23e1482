//! The [`Arena`] type and its [`Handle`]s.
//!
//! An `Arena<T>` contains a list of values, each with the span of the source text that it came from. A `Handle<T>` is
//! the index of one of them: an expression refers to another expression by its handle.
ghost use Rattle.std.specs.Prelude.{◌≡◌, ◌<◌, ◌≤◌, ◌↔◌, ◌==◌, ◌∷◌, [], ◌++◌, ◌⊎◌, false, IsOk, IsErr, IfSome, IfNone, IfOk, IfErr, OnOk, OnErr, OnSome, Some, None, All, length, slice_range, Ok, Err};
ghost use Rattle.std.specs.Borrow.{sem};
ghost use Rattle.std.specs.List.{enumerate_from, zip};
ghost use Rattle.std.specs.Fn.{FnReturnsAt, FnReturnsAtPair};
ghost use Rattle.naga_arena.specs.Arena.{max_len, values, span_at, handle_of, Appends, Fetches, IsBadRange, IsCloneOf, IsFirstYes, Retains, value_at};

mod arena_type;
mod drain;
mod handle;
mod iter;
mod range;
mod retain;
mod room;
mod search;
mod unique_arena;

use crate::span::Span;
use crate::try_clone::{TryClone, clone_each};
pub use arena_type::ArenaType;
pub use drain::{ArenaDrain, Drain, UniqueArenaDrain};
pub use handle::{BadHandle, Handle, Index, KindHandle, KindName};
pub use iter::ArenaIter;
pub use range::{BadRangeError, KindRange, Range};
use retain::retain_entries;
use room::reserve_one;
use search::{equal_position, passing_position, passing_position_with};
use std::alloc::{AllocError, Global};
use std::marker::Model;
use std::{fmt, mem, ops};
use thiserror::Error;
pub use unique_arena::{UniqueArena, UniqueArenaIter};

/// The error returned when an element could not be added to an arena.
///
/// The arena is then unchanged.
#[derive(Clone, Copy, Debug, PartialEq, Eq, Drop, Error)]
pub enum ArenaError {
    /// The arena has `u32::MAX` elements, so there is no handle for another one.
    #[error("arena is full")]
    Full,
    /// An allocation failed.
    #[error("out of memory")]
    Memory,
}

/// An arena of values, each with a span. [`Handle`]s refer to the values.
///
/// In contracts, an arena is a list of pairs of a value and its span, with at most `u32::MAX` elements.
#[derive(Drop)]
pub struct Arena<T> {
    /// The values.
    data: Vec<T>,
    /// The span of each value, at the index of the value.
    span_info: Vec<Span>,
}

impl<T> Model for Arena<T> {
    ghost use Rattle.std.specs.Prelude.{List, ◌≡◌, ◌≤◌, length};
    ghost use Rattle.std.specs.List.{zip};
    ghost use Rattle.naga_arena.specs.Limits.{max_len};
    ghost use Rattle.naga_arena.specs.declared.span.Span.{Span as SpanValue};

    ghost Value = { List (T × SpanValue) };

    ghost view = { λ a. zip a.data.items a.span_info.items };

    // The two vectors have the same length.
    ghost invariant = { λ a. (length a.span_info.items ≡ length a.data.items)
        × (length a.data.items ≤ max_len) };
}

#[tactic(auto, using(crate::proofs::ZipLemmas::pairs, crate::proofs::EnumerateFromLemmas::enumerated))]
impl<T> Arena<T> {
    /// Creates an empty arena.
    ///
    /// The arena does not allocate until the first [`append`](Arena::append).
    pub fn new(alloc: Global) -> Self
        ensures { result ≡ [] }
    {
        Arena {
            data: Vec::new(alloc),
            span_info: Vec::new(alloc),
        }
    }

    /// Creates an arena from values and the span of each, at the index of its value.
    ///
    /// The vectors become those of the arena, so nothing is allocated.
    ///
    /// Preconditions: there are as many spans as values, at most `u32::MAX`.
    ///
    /// Differs from naga: naga has no such method.
    pub fn from_vecs(values: Vec<T>, spans: Vec<Span>) -> Self
        requires aligned { length spans.items ≡ length values.items }
        requires bounded { length values.items ≤ max_len }
        ensures { result ≡ zip values.items spans.items }
    {
        Arena {
            data: values,
            span_info: spans,
        }
    }

    /// Consumes the arena, returning its values without their spans.
    pub fn into_inner(self) -> Vec<T>
        ensures { result.items ≡ values self }
    {
        let Arena { data, span_info: _ } = self;
        data
    }

    /// Returns the number of elements.
    pub fn len(&self) -> usize
        ensures value { result ≡ length self.now }
        ensures bound { result ≤ max_len }
    {
        self.data.len()
    }

    /// Returns whether the arena has no elements.
    pub fn is_empty(&self) -> bool
        ensures { result ≡ (length self.now == 0) }
    {
        self.data.is_empty()
    }

    /// Returns all values as a slice, in the order of their handles.
    ///
    /// Differs from naga: naga has no such method.
    pub fn as_slice(&self) -> &[T]
        ensures { result.now ≡ values self.now }
    {
        self.data.as_slice()
    }

    /// Returns a double-ended iterator that yields each element's handle and a reference to the element.
    pub fn iter(&self) -> ArenaIter<'_, T>
        ensures rest { result ≡ enumerate_from 0 (values self.now) }
        ensures len { length result ≡ length self.now }
        ensures within { All (λ entry. entry.0 < length self.now) result }
    {
        ArenaIter::new(self.data.as_slice())
    }

    /// Removes all elements, returning a double-ended iterator that yields the handle, value and span of each.
    ///
    /// The arena is empty as soon as this method returns.
    pub fn drain(&mut self) -> ArenaDrain<T>
    where
        T: Drop,
        ensures rest { result ≡ enumerate_from 0 self.old }
        ensures len { length result ≡ length self.old }
        ensures within { All (λ entry. entry.0 < length self.old) result }
        ensures emptied { self.new ≡ [] }
    {
        let Arena { data, span_info } = self.take();
        Drain::new(data.into_iter(), span_info)
    }

    /// Removes all elements and their spans.
    ///
    /// Differs from naga: naga keeps the old spans, and elements that are appended later get them.
    pub fn clear(&mut self)
    where
        T: Drop,
        ensures { self.new ≡ [] }
    {
        self.data.clear();
        self.span_info.clear();
    }

    /// Returns an arena with all the elements, leaving this arena empty.
    pub fn take(&mut self) -> Self
    where
        T: Drop,
        ensures taken { result ≡ self.old }
        ensures emptied { self.new ≡ [] }
    {
        let alloc = *self.data.allocator();
        mem::replace(self, Arena::new(alloc))
    }
}

#[tactic(auto, using(crate::proofs::ZipLemmas::pairs, crate::proofs::EnumerateFromLemmas::enumerated))]
impl<T: KindName> Arena<T> {
    ghost use Rattle.naga_arena.specs.Lends.{lends_value};

    /// Appends a value with its span, and returns the handle of the new element.
    ///
    /// Fails with [`ArenaError::Full`] if and only if the arena has `u32::MAX` elements, so that no handle is left;
    /// this is checked before anything is allocated. Fails with [`ArenaError::Memory`] if allocation fails. On error,
    /// the arena is unchanged and `value` is dropped.
    ///
    /// Differs from naga: naga panics if no handle is left, after it has added the value.
    pub fn append(&mut self, value: T, span: Span) -> Result<Handle<T>, ArenaError>
    where
        T: Drop,
        ensures { Appends self.old value span result self.new }
    {
        let Some(handle) = Handle::<T>::from_usize(self.data.len()) else {
            return Err(ArenaError::Full);
        };
        if reserve_one(&mut self.data).is_err() || reserve_one(&mut self.span_info).is_err() {
            return Err(ArenaError::Memory);
        }
        self.data.push_reserved(value);
        self.span_info.push_reserved(span);
        Ok(handle)
    }

    /// Returns the handle of the first element for which `fun` returns `true`, or `None` if there is no such element.
    ///
    /// Precondition: `fun` can be called with any argument, as a closure without preconditions can.
    pub fn fetch_if<F: Fn(&T) -> bool>(&self, fun: F) -> Option<Handle<T>>
        requires { F.IsAlwaysCallable fun }
        ensures none { IfNone result (All (λ x. FnReturnsAt F.Fn fun x false) (values self.now)) }
        ensures first { IfSome result (IsFirstYes (FnReturnsAt F.Fn fun) (values self.now)) }
    {
        match passing_position(self.data.as_slice(), &fun) {
            Some(index) => Some(Handle::<T>::at(index)),
            None => None,
        }
    }

    /// Returns the handle of the first element for which `fun` returns `true`, or appends `value` if there is none.
    ///
    /// `fun` is called with an element and with `value`, in this order. If an element is found, the arena is unchanged,
    /// nothing is allocated and `value` is dropped. Otherwise `value` is appended with its span, and its handle is
    /// returned. This fails as [`append`](Self::append) does.
    ///
    /// Precondition: `fun` can be called with any arguments, as a closure without preconditions can.
    pub fn fetch_if_or_append<F: Fn(&T, &T) -> bool>(
        &mut self,
        value: T,
        span: Span,
        fun: F,
    ) -> Result<Handle<T>, ArenaError>
    where
        T: Drop,
        requires { F.IsAlwaysCallable fun }
        ensures { Fetches (λ x. FnReturnsAtPair F.Fn fun x value)
            self.old value span result self.new }
    {
        match passing_position_with(self.data.as_slice(), &value, &fun) {
            Some(index) => Ok(Handle::<T>::at(index)),
            None => self.append(value, span),
        }
    }

    /// Returns the handle of the first element that is equal to `value`, or appends `value` if there is none.
    ///
    /// If an element is found, the arena is unchanged, nothing is allocated and `value` is dropped. Otherwise `value`
    /// is appended with its span, and its handle is returned. This fails as [`append`](Self::append) does.
    pub fn fetch_or_append(&mut self, value: T, span: Span) -> Result<Handle<T>, ArenaError>
    where
        T: PartialEq + Drop,
        ensures found { IfSome (handle_of T.eq self.old value) (λ handle. result ≡ Ok handle) }
        ensures kept { OnSome (handle_of T.eq self.old value) (self.new ≡ self.old) }
        ensures missing { IfNone (handle_of T.eq self.old value)
            (Appends self.old value span result self.new) }
    {
        match equal_position(self.data.as_slice(), &value) {
            Some(index) => Ok(Handle::<T>::at(index)),
            None => self.append(value, span),
        }
    }

    /// Returns a reference to the element with this handle, or a [`BadHandle`] if `handle` is not in the arena.
    pub fn try_get(&self, handle: Handle<T>) -> Result<&T, BadHandle>
        ensures found { IsOk result ↔ (handle < length self.now) }
        ensures value { IfOk result (λ value. value_at self.now handle ≡ Some value.now) }
        ensures kind { IfErr result (λ error. error.kind.now ≡ T.name) }
        ensures index { IfErr result (λ error. error.index ≡ handle) }
    {
        match self.data.get(handle.index()) {
            Some(value) => Ok(value),
            None => Err(BadHandle::new::<T>(handle)),
        }
    }

    /// Returns a mutable reference to the element with this handle.
    ///
    /// Writing through the reference changes neither the element's span nor any other element.
    ///
    /// The caller must ensure that `handle` is in the arena; [`check_contains_handle`](Self::check_contains_handle)
    /// tests it.
    ///
    /// Differs from naga: naga panics if `handle` is not in the arena.
    #[tactic(auto)]
    pub fn get_mut(&mut self, handle: Handle<T>) -> &mut T
        requires { handle < length self.old }
        ensures* writes_back { sem 𝓛 (lends_value T.row self.entry handle result) }
        ensures value { value_at self.old handle ≡ Some result.now }
    {
        &mut self.data[handle.index()]
    }

    /// Returns the range of the elements from the index `old_length`, a former length of the arena, to the end.
    ///
    /// The caller must ensure that `old_length` is at most the length of the arena.
    ///
    /// Differs from naga: naga truncates both lengths to 32 bits.
    pub fn range_from(&self, old_length: usize) -> Range<T>
        requires { old_length ≤ length self.now }
        ensures { result ≡ (old_length, length self.now) }
    {
        let len = self.len();
        Range::<T>::from_index_range(old_length as u32..len as u32, self)
    }

    /// Returns the span of the element with this handle, or [`Span::UNDEFINED`] if `handle` is not in the arena.
    pub fn get_span(&self, handle: Handle<T>) -> Span
        ensures { result ≡ span_at self.now handle }
    {
        match self.span_info.get(handle.index()) {
            Some(span) => *span,
            None => Span::UNDEFINED,
        }
    }

    /// Returns `Ok` if `handle` is in the arena, and a [`BadHandle`] otherwise.
    pub fn check_contains_handle(&self, handle: Handle<T>) -> Result<(), BadHandle>
        ensures found { IsOk result ↔ (handle < length self.now) }
        ensures kind { IfErr result (λ error. error.kind.now ≡ T.name) }
        ensures index { IfErr result (λ error. error.index ≡ handle) }
    {
        if handle.index() < self.data.len() {
            Ok(())
        } else {
            Err(BadHandle::new::<T>(handle))
        }
    }

    /// Returns `Ok` if all handles of the range are in the arena and the range is not inverted, and a [`BadRangeError`]
    /// otherwise.
    ///
    /// An empty range is accepted even if it is past the end of the arena, so `Ok` does not imply the preconditions of
    /// [`slice`](Self::slice).
    pub fn check_contains_range(&self, range: &Range<T>) -> Result<(), BadRangeError>
        ensures refused { IsErr result ↔ IsBadRange (length self.now) range.now }
        ensures error { IfErr result (λ error. error ≡ (T.name, range.now)) }
    {
        let ops::Range { start, end } = range.index_range();
        if end < start || (start < end && self.data.len() < end as usize) {
            return Err(BadRangeError::new::<T>(Range::<T>::from_inner(start..end)));
        }
        Ok(())
    }

    /// Returns the elements of a range as a slice.
    ///
    /// The caller must ensure that the start of the range is at most its end, and its end at most the length of the
    /// arena.
    ///
    /// Differs from naga: this method replaces naga's indexing by a range, which panics if these preconditions are not
    /// met.
    pub fn slice(&self, range: Range<T>) -> &[T]
        requires ordered { range.0 ≤ range.1 }
        requires within { range.1 ≤ length self.now }
        ensures { result.now ≡ slice_range (values self.now) range.0 range.1 }
    {
        let ops::Range { start, end } = range.index_range();
        &self.data[start as usize..end as usize]
    }

    /// Replaces each element with the value that `predicate` returns for it, or removes it if `predicate` returns
    /// `None`.
    ///
    /// `predicate` is called with the handle and the value of each element, in order. Each value that it returns gets
    /// the span of that element.
    ///
    /// The memory for these values is allocated before the first call. If allocation fails, the arena is unchanged and
    /// `predicate` was never called.
    ///
    /// Precondition: `predicate` can be called any number of times with any arguments, as a closure without
    /// preconditions can.
    ///
    /// Differs from naga: naga passes `predicate` a mutable reference to each element in place, and allocates nothing.
    pub fn retain_mut<P: FnMut(Handle<T>, T) -> Option<T>>(
        &mut self,
        predicate: P,
    ) -> Result<(), AllocError>
    where
        T: Drop,
        requires { P.IsAlwaysCallable predicate }
        ensures retained { OnOk result (Retains P.step predicate (enumerate_from 0 self.old) self.new) }
        ensures unchanged { OnErr result (self.new ≡ self.old) }
    {
        let alloc = *self.data.allocator();
        let kept = Vec::with_capacity(alloc, self.data.len())?;
        let data = mem::replace(&mut self.data, Vec::new(alloc));
        let spans = mem::replace(&mut self.span_info, Vec::new(alloc));
        *self = retain_entries(data, spans, predicate, kept);
        Ok(())
    }
}

/// Returns a reference to the element with this handle.
///
/// The caller must ensure that `handle` is in the arena; [`check_contains_handle`](Arena::check_contains_handle) tests
/// it.
///
/// Differs from naga: naga panics if `handle` is not in the arena.
#[tactic(auto, using(crate::proofs::ZipLemmas::pairs))]
impl<T: KindName> ops::Index<Handle<T>> for Arena<T> {
    type Output = T;

    ghost can_index = { λ arena handle. handle < length arena };

    ghost index_gives = { λ arena handle value. value_at arena handle ≡ Some value };

    fn index(&self, handle: Handle<T>) -> &T {
        &self.data[handle.index()]
    }
}

/// Returns a mutable reference to the element with this handle, like [`get_mut`](Arena::get_mut) and with its
/// precondition.
impl<T: KindName> ops::IndexMut<Handle<T>> for Arena<T> {
    ghost use Rattle.naga_arena.specs.Lends.{lends_value};

    fn index_mut(&mut self, handle: Handle<T>) -> &mut T
        requires { handle < length self.old }
        ensures* writes_back { sem 𝓛 (lends_value T.row self.entry handle result) }
        ensures value { value_at self.old handle ≡ Some result.now }
    {
        self.get_mut(handle)
    }
}

/// Clones each value and copies its span. If allocation fails, the source is unchanged.
impl<T: TryClone + Drop> TryClone for Arena<T> {
    ghost clone_gives = { IsCloneOf T.clone_gives };

    fn clone(&self) -> Result<Self, AllocError> {
        let alloc = *self.data.allocator();
        let data = clone_each(alloc, self.data.as_slice())?;
        let span_info = Vec::from_slice(alloc, self.span_info.as_slice())?;
        Ok(Arena { data, span_info })
    }
}

/// Formats the arena as a map from handles to values, like `{[0]: .., [1]: ..}`.
impl<T: KindName + fmt::Debug> fmt::Debug for Arena<T> {
    fn fmt<W: fmt::Write>(&self, f: &mut fmt::Formatter<W>) -> fmt::Result {
        f.debug_map().entries(self.iter()).finish()
    }
}
