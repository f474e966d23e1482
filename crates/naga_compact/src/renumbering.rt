//! The new handles of the elements of an arena that are kept.
ghost use Rattle.std.specs.Prelude.{◌≡◌, ◌≤◌, ◌<◌, ◌+◌, IfOk};
ghost use Rattle.std.specs.FinSet.{contains};
ghost use Rattle.naga_arena.specs.Limits.{max_len};
ghost use Rattle.naga_compact.specs.Kept.{new_index, rank};
ghost use Rattle.naga_compact.specs.Renaming.{rename_range};

mod arena;
mod keys;

use crate::renaming::NewHandles;
pub(crate) use keys::try_rename_keys;
pub use keys::{RenameKey, rename_keys};
use naga_arena::{Handle, KindName, Range};
use naga_ir::{Constant, Expression, Function, GlobalVariable, Override, Type};
use naga_sets::HandleSet;
use std::alloc::{AllocError, Global};
use std::marker::Model;

/// The new handles of the elements of an arena that are kept, after all others are removed.
///
/// The new index of a handle is the number of kept handles before it. A handle that is not kept has a new index, too,
/// which is that of the first kept handle behind it.
///
/// In contracts, it is the set of the kept handles. The bound of the set is the length of the arena before.
///
/// Differs from naga: naga's `HandleMap` is private.
#[derive(Drop)]
pub struct Renumbering<T> {
    kept: HandleSet<T>,
    /// For each index up to the bound of `kept`, the number of kept handles before it.
    ranks: Vec<u32>,
}

impl<T> Model for Renumbering<T> {
    ghost use Rattle.naga_sets.specs.HandleSet.{BoundedSet, bounded_set_code};
    ghost use Rattle.naga_compact.specs.Kept.{AreRanks};

    ghost Value = { BoundedSet };

    ghost coded = { bounded_set_code };

    ghost view = { λ renumbering. renumbering.kept };

    ghost invariant = { λ renumbering. AreRanks renumbering.kept renumbering.ranks.items };
}

impl<T: KindName> Renumbering<T> {
    /// Creates the new handles for a set of kept handles. Returns `Err` if allocation fails.
    pub fn new(alloc: Global, kept: HandleSet<T>) -> Result<Self, AllocError>
    where
        T: Drop,
        ensures { IfOk result (λ renumbering. renumbering ≡ kept) }
    {
        let bound = kept.all_possible().index_range().end;
        let mut ranks = Vec::with_capacity(alloc, bound as usize + 1)?;
        let mut next = 0;
        'indices: for index in 0..bound {
            ranks.push_reserved(next);
            next = rank_after(&kept, index, next);
        }
        ranks.push_reserved(next);
        // For the proof: a clause of `iter` is that all members are below the bound, as the invariant requires.
        let _ = kept.iter();
        Ok(Renumbering { kept, ranks })
    }

    /// Returns whether the element with this handle is kept.
    pub fn keeps(&self, handle: Handle<T>) -> bool
        ensures { result ≡ contains self.now.members handle }
    {
        self.kept.contains(handle)
    }

    /// Returns the new handle of an element.
    pub fn handle(&self, handle: Handle<T>) -> Handle<T>
        ensures { result ≡ new_index self.now handle }
    {
        let index = self.rank(handle.index() as u32);
        Handle::<T>::at(index as usize)
    }

    /// Returns the number of kept handles below an index.
    fn rank(&self, index: u32) -> u32
        ensures value { result ≡ new_index self.now index }
        ensures bound { result ≤ index }
    {
        let last = self.ranks.len() - 1;
        let position = (index as usize).min(last);
        self.ranks[position]
    }

    /// Returns the range of the new handles of the kept elements of a range.
    pub fn range(&self, range: &Range<T>) -> Range<T>
        ensures { result ≡ rename_range (new_index self.now) range.now }
    {
        let bounds = range.index_range();
        let first = self.rank(bounds.start);
        let past = self.rank(bounds.end);
        if first < past {
            let first = Handle::<T>::at(first as usize);
            let last = Handle::<T>::at((past - 1) as usize);
            Range::<T>::new_from_bounds(first, last)
        } else {
            Range::<T>::up_to(0)
        }
    }
}

/// The new handles of the expressions of a function. All other handles are unchanged.
impl NewHandles for Renumbering<Expression> {
    ghost use Rattle.naga_compact.specs.Kept.{new_index as index};
    ghost use Rattle.naga_compact.specs.Renaming.{of_expressions};

    ghost renaming = { λ renumbering. of_expressions (index renumbering) };

    fn ty(&self, _: &mut Handle<Type>) {}

    fn constant(&self, _: &mut Handle<Constant>) {}

    fn pipeline_override(&self, _: &mut Handle<Override>) {}

    fn global_variable(&self, _: &mut Handle<GlobalVariable>) {}

    fn global_expression(&self, _: &mut Handle<Expression>) {}

    fn function(&self, _: &mut Handle<Function>) {}

    fn expression(&self, handle: &mut Handle<Expression>) {
        *handle = self.handle(*handle);
    }

    fn expressions(&self, range: &mut Range<Expression>) {
        *range = self.range(range);
    }
}

/// Returns the number of kept handles up to and including an index, given the number of those below it.
#[tactic(auto, using(crate::proofs::RankLemmas::ranking))]
fn rank_after<T: KindName>(kept: &HandleSet<T>, index: u32, below: u32) -> u32
    requires below { below ≡ rank (contains kept.now.members) index }
    requires small { index < max_len }
    ensures value { result ≡ rank (contains kept.now.members) (index + 1) }
    ensures bound { result ≤ index + 1 }
{
    let handle = Handle::<T>::at(index as usize);
    if kept.contains(handle) {
        below + 1
    } else {
        below
    }
}
