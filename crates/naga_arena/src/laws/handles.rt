//! Laws of handles: equality, order and hash are those of the indices, whatever the type of the elements.
ghost use Rattle.std.specs.Prelude.{◌≡◌, ◌↔◌, ℕ, Some, IsTrue};
ghost use Rattle.std.specs.Hash as fed;
ghost use Rattle.std.specs.Ordering.{nat_cmp};
ghost use Rattle.std.specs.declared.cmp.Ordering.TheVariants.{Equal};

use crate::arena::KindHandle;
use std::hash::Hash;

/// Two handles are equal if and only if their indices are equal.
pub fn equality_is_of_indices<K>()
    ensures { (first second : ℕ)
        → IsTrue (⟦<KindHandle<K> as PartialEq>⟧.eq first second) ↔ (first ≡ second) }
{}

/// Handles are ordered by their indices.
pub fn order_is_of_indices<K>()
    ensures total { (first second : ℕ)
        → ⟦<KindHandle<K> as Ord>⟧.cmp first second ≡ nat_cmp first second }
    ensures partial { (first second : ℕ)
        → ⟦<KindHandle<K> as PartialOrd>⟧.partial_cmp first second ≡ Some (nat_cmp first second) }
{}

/// Handles are hashed by their indices.
pub fn hash_is_of_index<K>()
    ensures { (handle : ℕ) → ⟦<KindHandle<K> as Hash>⟧.hash_input handle ≡ fed.u32 handle }
{}

/// Two handles are equal if and only if `cmp` returns `Equal` for them.
pub fn order_agrees_with_equality<K>()
    ensures { (first second : ℕ)
        → (⟦<KindHandle<K> as Ord>⟧.cmp first second ≡ Equal)
        ↔ IsTrue (⟦<KindHandle<K> as PartialEq>⟧.eq first second) }
{}

/// Equal handles have equal hashes.
pub fn equal_handles_have_equal_hashes<K>()
    ensures { (first second : ℕ) → IsTrue (⟦<KindHandle<K> as PartialEq>⟧.eq first second)
        → ⟦<KindHandle<K> as Hash>⟧.hash_input first ≡ ⟦<KindHandle<K> as Hash>⟧.hash_input second }
{}
