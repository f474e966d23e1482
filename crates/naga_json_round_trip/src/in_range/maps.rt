//! Maps, of which only the keys have numbers.
ghost use Rattle.std.specs.Prelude.{All};
ghost use Rattle.indexmap.specs.IndexMap.{IsUnique, keys};

use super::InRange;
use indexmap::IndexMap;
use std::hash::Hash;

/// Reads each number of each key.
pub(crate) fn keys_in_range<K: InRange + Eq + Hash, V>(entries: &IndexMap<K, V>)
    ensures each { All K.Fits (keys entries.now) }
    ensures unique { IsUnique K.eq entries.now }
{
    for key in entries.keys() {
        key.in_range();
    }
}
