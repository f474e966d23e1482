//! Laws of sets of handles.
ghost use Rattle.std.specs.Prelude.{◌≡◌, ◌≤◌, ℕ, List, Result, OnOk, OnErr, true, length};
ghost use Rattle.std.specs.FinSet as set;
ghost use Rattle.std.specs.Ordering.{nat_cmp};
ghost use Rattle.naga_sets.specs.HandleSet.{BoundedSet, EmptiesInSteps, InsertsBefore, InsertsItems, IsGreatest, YieldsHandles, with_members};
ghost use Rattle.std.specs.declared.alloc.AllocError.{AllocError};

use naga_arena::{Handle, KindName};

/// If a set is emptied by removing the greatest member again and again, the number of steps is the number of members.
pub fn pops_are_as_many_as_members()
    ensures { (handles : BoundedSet) (after : List BoundedSet)
        → EmptiesInSteps handles after → length after ≡ set.len handles.members }
{}

/// No member is above the greatest one.
pub fn greatest_member_is_above_all_others()
    ensures { (members : set.FinSet nat_cmp) (greatest member : ℕ)
        → IsGreatest members greatest → set.contains members member ≡ true → member ≤ greatest }
{}

/// A set has at most one greatest member.
pub fn greatest_member_is_unique()
    ensures { (members : set.FinSet nat_cmp) (first second : ℕ)
        → IsGreatest members first → IsGreatest members second → first ≡ second }
{}

/// If an iterable always yields the same handles, inserting its items inserts these handles. If allocation fails, it
/// inserts those before a handle at or above the bound.
pub fn yielded_handles_are_inserted<T: KindName, I: IntoIterator<Item = Handle<T>>>()
    ensures all { (iter : I) (handles : List ℕ) (old new : BoundedSet) (result : Result (Unit {0}) AllocError)
        → YieldsHandles I.into_iter_gives I.IntoIter.next_gives iter handles
        → InsertsItems I.into_iter_gives I.IntoIter.next_gives iter old new result
        → OnOk result (new ≡ with_members old handles) }
    ensures before { (iter : I) (handles : List ℕ) (old new : BoundedSet) (result : Result (Unit {0}) AllocError)
        → YieldsHandles I.into_iter_gives I.IntoIter.next_gives iter handles
        → InsertsItems I.into_iter_gives I.IntoIter.next_gives iter old new result
        → OnErr result (InsertsBefore handles old new) }
{}
