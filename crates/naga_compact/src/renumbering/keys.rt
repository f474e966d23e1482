//! Renaming the keys of maps.
ghost use Rattle.std.specs.Prelude.{◌≡◌, ◌≤◌, ◌<◌, ◌+◌, ◌++◌, ◌∷◌, [], None, Some, OnErr, OnOk};
ghost use Rattle.indexmap.specs.IndexMap.{IsEmpty, get, index_map_len, spare};
ghost use Rattle.naga_compact.specs.Functions.{rename_keys};

use crate::renumbering::Renumbering;
use indexmap::IndexMap;
use naga_arena::{Handle, KindName};
use std::alloc::{AllocError, Global};
use std::hash::Hash;
use std::mem;

/// A renumbering by which the keys of a map are renamed.
///
/// Differs from naga: naga has no such trait.
pub trait RenameKey<K: Eq> {
    ghost use Rattle.std.specs.Prelude.{Bool, true, if◌then◌else◌, ◌↔◌, IsTrue};

    ghost keeps_key: { Self → K → Bool };

    ghost renamed_key: { Self → K → K };

    /// Returns the key with the new handle, or `None` if the element with the old handle is not kept.
    ///
    /// Keys that are kept are renamed to different keys.
    fn new_key(&self, key: &K) -> Option<K>
        ensures value { result
            ≡ (if keeps_key self.now key.now then Some (renamed_key self.now key.now) else None) }
        ensures injective { (a b : K) → keeps_key self.now a ≡ true → keeps_key self.now b ≡ true
            → renamed_key self.now a ≡ renamed_key self.now b → a ≡ b };

    // Keys that are equal are the same.
    ghost decides: { (a b : K) → IsTrue (K.eq a b) ↔ (a ≡ b) };
}

impl<T: KindName> RenameKey<Handle<T>> for Renumbering<T> {
    ghost use Rattle.std.proofs.Common.{rules};
    ghost use Rattle.std.specs.FinSet.{contains};
    ghost use Rattle.naga_compact.specs.Kept.{new_index};

    ghost keeps_key = { λ renumbering. contains renumbering.members };

    ghost renamed_key = { new_index };

    ghost decides = { λ a b. Prim.search rules };

    fn new_key(&self, key: &Handle<T>) -> Option<Handle<T>> {
        if self.keeps(*key) {
            Some(self.handle(*key))
        } else {
            None
        }
    }
}

/// Renames the keys of a map, and removes the entries whose keys are not kept. The others are in order. If allocation
/// fails, the map is unchanged.
pub(crate) fn try_rename_keys<K: Eq + Hash + Drop, V: Drop, R: RenameKey<K>>(
    alloc: Global,
    map: &mut IndexMap<K, V>,
    renumbering: &R,
) -> Result<(), AllocError>
    ensures renamed { OnOk result (map.new.entries
        ≡ rename_keys (R.keeps_key renumbering.now) (R.renamed_key renumbering.now) map.old.entries) }
    ensures unchanged { OnErr result (map.new ≡ map.old) }
{
    let room = IndexMap::with_capacity(alloc, map.len())?;
    rename_keys(map, room, renumbering);
    Ok(())
}

/// Renames the keys of a map, and removes the entries whose keys are not kept. The others are in order. Nothing is
/// allocated: `room` is an empty map with capacity for all entries.
///
/// Differs from naga: naga has no such function.
pub fn rename_keys<K: Eq + Hash + Drop, V: Drop, R: RenameKey<K>>(
    map: &mut IndexMap<K, V>,
    room: IndexMap<K, V>,
    renumbering: &R,
)
    requires empty { IsEmpty room }
    requires spare { index_map_len map.old ≤ spare room }
    ensures { map.new.entries
        ≡ rename_keys (R.keeps_key renumbering.now) (R.renamed_key renumbering.now) map.old.entries }
{
    let old = mem::replace(map, room);
    'entries: for (key, value) in old {
        if let Some(key) = renumbering.new_key(&key) {
            append_entry(map, key, value);
        }
    }
}

/// Appends an entry whose key is not in the map.
fn append_entry<K: Eq + Hash + Drop, V: Drop>(map: &mut IndexMap<K, V>, key: K, value: V)
    requires absent { get K.eq map.old key ≡ None }
    requires spare { 0 < spare map.old }
    ensures entries { map.new.entries ≡ map.old.entries ++ (key, value) ∷ [] }
    ensures spare { spare map.old ≤ spare map.new + 1 }
{
    let Ok(_) = map.insert(key, value) else {
        unreachable!()
    };
}
