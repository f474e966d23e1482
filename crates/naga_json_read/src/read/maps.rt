//! Maps, which are written as objects whose keys are numbers in decimal.
ghost use Rattle.std.specs.Prelude.{◌≡◌, ◌<◌, ◌^◌, [], IfOk, nat_eq};
ghost use Rattle.std.specs.Result.{result_ok};
ghost use Rattle.json.specs.Value.{value_view, members_view};
ghost use Rattle.naga_arena.specs.Limits.{max_len};
ghost use Rattle.naga_json.specs.Maps.{key_in, map_value, with_entry, entries_after, entries_in};
ghost use Rattle.naga_json_values.specs.Reads.{Reads};

use super::lists::FromJson;
use indexmap::IndexMap;
use json::{Value, is_number};
use naga_arena::KindHandle;
use naga_json_values::handles::index;
use naga_json_values::objects::members;
use naga_json_values::{Cause, Coded};
use std::alloc::Global;

/// Reads the index of a handle in decimal.
#[tactic(auto, unfolding(naga_json::specs::Maps::key_in))]
fn index_key(name: &str) -> Result<usize, Cause>
    ensures value { result_ok result ≡ key_in max_len name.now }
    ensures bound { IfOk result (λ index. index < max_len) }
{
    if !is_number(name) {
        return Err(Cause::Integer);
    }
    let number: Value<'_> = Value::Number(name);
    index(&number)
}

/// Reads a position in decimal.
#[tactic(auto, unfolding(naga_json::specs::Maps::key_in))]
fn position_key(name: &str) -> Result<usize, Cause>
    ensures { result_ok result ≡ key_in (2 ^ 64) name.now }
{
    if !is_number(name) {
        return Err(Cause::Integer);
    }
    let number: Value<'_> = Value::Number(name);
    Ok(u64::read_value(&number)? as usize)
}

/// The keys are handles. It is an error if a key comes twice.
impl<K, V: FromJson> FromJson for IndexMap<KindHandle<K>, V> {
    ghost use Rattle.std.specs.Prelude.{List, ℕ};

    ghost Meaning = { List (ℕ × V.Meaning) };

    ghost value_of = { map_value V.value_of };

    ghost meaning = { entries_in nat_eq (key_in max_len) V.meaning };

    fn from_json(alloc: Global, value: &Value<'_>) -> Result<Self, Cause> {
        let members = members(value).ok_or(Cause::Object)?;
        read_members::<K, V>(alloc, members)
    }
}

/// Reads a map whose keys are handles from the members of an object.
fn read_members<'a, K, V: FromJson>(
    alloc: Global,
    members: &Vec<(&'a str, Value<'a>)>,
) -> Result<IndexMap<KindHandle<K>, V>, Cause>
    ensures { Reads (map_value V.value_of) result
        (entries_after nat_eq (key_in max_len) V.meaning (members_view members.now.items) []) }
{
    let mut entries = IndexMap::new(alloc);
    'members: for member in members {
        let key = KindHandle::at(index_key(member.0)?);
        let value = V::from_json(alloc, &member.1)?;
        add_entry::<K, V>(&mut entries, key, value)?;
    }
    Ok(entries)
}

/// Adds an entry with a handle that no other entry has.
fn add_entry<K, V: FromJson>(
    entries: &mut IndexMap<KindHandle<K>, V>,
    key: KindHandle<K>,
    value: V,
) -> Result<(), Cause>
    ensures { Reads (λ _. map_value V.value_of entries.new) result
        (with_entry nat_eq (map_value V.value_of entries.old) key (V.value_of value)) }
{
    if entries.contains_key(&key) {
        return Err(Cause::UnknownField);
    }
    entries.insert(key, value)?;
    Ok(())
}

/// The keys are positions. It is an error if a key comes twice.
impl<V: FromJson> FromJson for IndexMap<usize, V> {
    ghost use Rattle.std.specs.Prelude.{List, ℕ};

    ghost Meaning = { List (ℕ × V.Meaning) };

    ghost value_of = { map_value V.value_of };

    ghost meaning = { entries_in nat_eq (key_in (2 ^ 64)) V.meaning };

    fn from_json(alloc: Global, value: &Value<'_>) -> Result<Self, Cause> {
        let members = members(value).ok_or(Cause::Object)?;
        read_positions::<V>(alloc, members)
    }
}

/// Reads a map whose keys are positions from the members of an object.
fn read_positions<'a, V: FromJson>(
    alloc: Global,
    members: &Vec<(&'a str, Value<'a>)>,
) -> Result<IndexMap<usize, V>, Cause>
    ensures { Reads (map_value V.value_of) result
        (entries_after nat_eq (key_in (2 ^ 64)) V.meaning (members_view members.now.items) []) }
{
    let mut entries = IndexMap::new(alloc);
    'members: for member in members {
        let key = position_key(member.0)?;
        let value = V::from_json(alloc, &member.1)?;
        add_position::<V>(&mut entries, key, value)?;
    }
    Ok(entries)
}

/// Adds an entry with a position that no other entry has.
fn add_position<V: FromJson>(
    entries: &mut IndexMap<usize, V>,
    key: usize,
    value: V,
) -> Result<(), Cause>
    ensures { Reads (λ _. map_value V.value_of entries.new) result
        (with_entry nat_eq (map_value V.value_of entries.old) key (V.value_of value)) }
{
    if entries.contains_key(&key) {
        return Err(Cause::UnknownField);
    }
    entries.insert(key, value)?;
    Ok(())
}
