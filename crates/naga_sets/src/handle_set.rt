//! Sets of handles.
ghost use Rattle.std.specs.Prelude.{◌≡◌, ◌<◌, ◌≤◌, ◌+◌, ◌↔◌, true, not, IsTrue, IsOk, OnOk, OnErr, OnSome, IfOk, IfSome, IfNone, length};
ghost use Rattle.std.specs.FinSet as set;
ghost use Rattle.std.specs.Iterator.{IsFiniteIterable};
ghost use Rattle.std.specs.List.{All};
ghost use Rattle.std.specs.List.Sorted.{IsStrictlyIncreasing};
ghost use Rattle.naga_sets.specs.HandleSet.{none_below, all_below, with_member, without_member, IsGreatest, InsertsItems};
ghost use Rattle.naga_arena.specs.Limits.{max_len};

mod iter;
mod words;

pub use iter::HandleSetIter;
use naga_arena::{ArenaType, Handle, KindName, Range};
use std::alloc::{AllocError, Global};
use std::fmt;
use std::marker::{Model, PhantomData};
use words::{
    clear_bit, clear_for, has_bit, has_no_bits, last_bit, set_bit, set_bits_below, words_for,
};

/// A set of `Handle<T>` values, with a bound that is greater than all their indices.
///
/// The set has space for all handles below the bound. The bound is the length of the arena that the set was created or
/// last cleared for, and increases when a handle at or above it is inserted. Removing members does not change it.
#[derive(Drop)]
pub struct HandleSet<T> {
    /// The bound: the index of every member is below it.
    bound: usize,

    /// The bits of the members: bit `i % 64` of `words[i / 64]` is set if the handle with index `i` is a member.
    ///
    /// There may be fewer words than the bound requires: a handle whose word is missing is not a member. The capacity
    /// is large enough for all words.
    words: Vec<u64>,

    /// Marks the set as one of handles to values of type `T`.
    as_keys: PhantomData<T>,
}

impl<T> Model for HandleSet<T> {
    ghost use Rattle.std.specs.Prelude.{vec_capacity};
    ghost use Rattle.naga_sets.specs.HandleSet.{BoundedSet, bounded_set_code};
    ghost use Rattle.naga_sets.specs.Words.{bit_set, AreWordsFor};

    ghost Value = { BoundedSet };

    ghost coded = { bounded_set_code };

    ghost view = { λ s. record { bound = s.bound; members = bit_set s.words.items } };

    ghost invariant = { λ s. AreWordsFor s.bound s.words.items (vec_capacity s.words) };
}

#[tactic(auto, using(crate::proofs::HandleSetLemmas::representing))]
impl<T: KindName> HandleSet<T> {
    /// Creates an empty set with bound 0.
    ///
    /// This does not allocate.
    pub fn new(alloc: Global) -> Self
        ensures { result ≡ none_below 0 }
    {
        HandleSet {
            bound: 0,
            words: Vec::new(alloc),
            as_keys: PhantomData,
        }
    }

    /// Returns whether the set has no members.
    ///
    /// This looks for a member, 64 handles at a time.
    pub fn is_empty(&self) -> bool
        ensures { IsTrue result ↔ (self.now.members ≡ set.empty) }
    {
        has_no_bits(self.words.as_slice())
    }

    /// Creates an empty set with space for the handles of an arena. The bound is the length of the arena.
    ///
    /// Returns `Err` if allocation fails.
    pub fn for_arena<A: ArenaType<T>>(alloc: Global, arena: &A) -> Result<Self, AllocError>
        ensures { IfOk result (λ handles. handles ≡ none_below (A.size arena.now)) }
    {
        let bound = arena.len();
        Ok(HandleSet {
            bound,
            words: Vec::with_capacity(alloc, words_for(bound))?,
            as_keys: PhantomData,
        })
    }

    /// Removes all members. The bound is unchanged.
    pub fn clear(&mut self)
        ensures { self.new ≡ none_below self.old.bound }
    {
        self.words.clear();
    }

    /// Removes all members, and reserves space for the handles of an arena. The bound becomes the length of the arena.
    ///
    /// Returns `Err` if allocation fails. The set is then unchanged. If the length of the arena is at most the old
    /// bound, this does not allocate.
    ///
    /// Differs from naga: naga keeps the old bound.
    pub fn clear_for_arena<A: ArenaType<T>>(&mut self, arena: &A) -> Result<(), AllocError>
        ensures cleared { OnOk result (self.new ≡ none_below (A.size arena.now)) }
        ensures unchanged { OnErr result (self.new ≡ self.old) }
        ensures room { A.size arena.now ≤ self.old.bound → IsOk result }
    {
        let bound = arena.len();
        clear_for(&mut self.words, bound)?;
        self.bound = bound;
        Ok(())
    }

    /// Returns the range of all handles below the bound.
    pub fn all_possible(&self) -> Range<T>
        ensures value { result ≡ (0, self.now.bound) }
        ensures bound { self.now.bound ≤ max_len }
        ensures members { set.len self.now.members ≤ self.now.bound }
    {
        Range::<T>::up_to(self.bound as u32)
    }

    /// Inserts a handle, and returns whether it is a new member.
    ///
    /// If the bound is not greater than the index of the handle, it becomes that index plus 1, which may allocate.
    /// Returns `Err` if allocation fails. The set is then unchanged.
    ///
    /// Differs from naga: naga does not change the bound.
    pub fn insert(&mut self, handle: Handle<T>) -> Result<bool, AllocError>
        ensures is_new { IfOk result (λ is_new. is_new ≡ not (set.contains self.old.members handle)) }
        ensures inserted { OnOk result (self.new ≡ with_member self.old handle) }
        ensures unchanged { OnErr result (self.new ≡ self.old) }
        // There is capacity for all handles below the bound.
        ensures room { handle < self.old.bound → IsOk result }
    {
        let index = handle.index();
        let is_new = set_bit(&mut self.words, index)?;
        self.bound = self.bound.max(index + 1);
        Ok(is_new)
    }

    /// Removes a handle, and returns whether it was a member.
    pub fn remove(&mut self, handle: Handle<T>) -> bool
        ensures was_member { result ≡ set.contains self.old.members handle }
        ensures removed { self.new ≡ without_member self.old handle }
    {
        clear_bit(&mut self.words, handle.index())
    }

    /// Inserts the handles that an iterable yields, one after another.
    ///
    /// Returns `Err` if allocation fails for a handle. The handles before it are then members, and its index is at or
    /// above the bound.
    ///
    /// Precondition: `next` can be called on the iterator of `iter`, and the iterator is finite.
    #[tactic(auto, using(crate::proofs::HandleSetLemmas::inserting))]
    pub fn insert_iter<I: IntoIterator<Item = Handle<T>>>(
        &mut self,
        iter: I,
    ) -> Result<(), AllocError>
    where
        I::IntoIter: Drop,
        requires { IsFiniteIterable I.into_iter_gives I.IntoIter.can_next I.IntoIter.remaining iter }
        ensures { InsertsItems I.into_iter_gives I.IntoIter.next_gives iter self.old self.new result }
    {
        'items: for handle in iter {
            self.insert(handle)?;
        }
        Ok(())
    }

    /// Inserts all handles below the bound.
    ///
    /// This does not allocate.
    ///
    /// Differs from naga: naga inserts the handles for which it has allocated bits, which may be fewer or more than
    /// those below its bound.
    pub fn add_all(&mut self)
        ensures { self.new ≡ all_below self.old.bound }
    {
        set_bits_below(&mut self.words, self.bound);
    }

    /// Returns whether a handle is a member.
    pub fn contains(&self, handle: Handle<T>) -> bool
        ensures value { result ≡ set.contains self.now.members handle }
        ensures below { IsTrue result → handle < self.now.bound }
    {
        has_bit(self.words.as_slice(), handle.index())
    }

    /// Returns an iterator over the members, in ascending order of their indices.
    pub fn iter(&self) -> HandleSetIter<'_, T>
        ensures ascending { IsStrictlyIncreasing result }
        ensures members { set.from_list result ≡ self.now.members }
        ensures below { All (λ handle. handle < self.now.bound) result }
        ensures count { length result ≡ set.len self.now.members }
        ensures bound { length result ≤ max_len }
    {
        HandleSetIter::new(self.words.as_slice())
    }

    /// Removes the member with the greatest index, and returns it, or `None` if the set is empty. The bound is
    /// unchanged.
    ///
    /// 64-bit words without members are removed from the end, so that emptying a set takes as many steps as it has
    /// members and words.
    pub fn pop(&mut self) -> Option<Handle<T>>
        ensures greatest { IfSome result (IsGreatest self.old.members) }
        ensures below { IfSome result (λ handle. handle < self.old.bound) }
        ensures removed { IfSome result (λ handle. self.new ≡ without_member self.old handle) }
        ensures fewer { OnSome result (set.len self.old.members ≡ set.len self.new.members + 1) }
        ensures none { IfNone result (self.old.members ≡ set.empty) }
        ensures unchanged { IfNone result (self.new ≡ self.old) }
    {
        let index = last_bit(&mut self.words)?;
        clear_bit(&mut self.words, index);
        Some(Handle::<T>::at(index))
    }
}

/// Formats the members of the set, like `{[0], [2]}`.
impl<T: KindName> fmt::Debug for HandleSet<T> {
    fn fmt<W: fmt::Write>(&self, f: &mut fmt::Formatter<W>) -> fmt::Result {
        f.debug_set().entries(self.iter()).finish()
    }
}
