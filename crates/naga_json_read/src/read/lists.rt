//! Lists of values of one type.
ghost use Rattle.std.specs.Prelude.{map, option_map};
ghost use Rattle.json.specs.Find.{as_str};
ghost use Rattle.json.specs.Value.{value_view, items_view};
ghost use Rattle.naga_json.specs.Lists.{each_of, each_in};
ghost use Rattle.naga_json.specs.Objects.{optional_at, required_at};
ghost use Rattle.naga_json_values.specs.Reads.{Reads};

use json::Value;
use naga_json_values::handles::items;
use naga_json_values::objects::{field, present};
use naga_json_values::text::read_text;
use naga_json_values::{Cause, Coded};
use std::alloc::Global;

/// A type whose values are read from JSON.
///
/// Each type of a part of a module implements it, but for the types of a module, which [`read_types`](crate::read_types)
/// reads, since no two of them may be equal.
///
/// Differs from naga: naga implements serde's `Deserialize`.
pub trait FromJson: Drop {
    ghost use Rattle.std.specs.Prelude.{Option};
    ghost use Rattle.json.specs.Json.{Json};

    // What a JSON represents.
    ghost Meaning: { Type 0 };

    // A value without the spare capacity of its strings and lists.
    ghost value_of: { Self → Meaning };

    // What a JSON represents, if it represents a value of this type.
    ghost meaning: { Json → Option Meaning };

    /// Reads a value.
    fn from_json(alloc: Global, value: &Value<'_>) -> Result<Self, Cause>
        ensures { Reads value_of result (meaning (value_view value.now)) };
}

/// A type that [`Coded`] reads. Each is listed, since a crate below could implement `Coded` for any other type, too.
pub(crate) trait Plain: Coded {}

/// A value that is read without an allocation is what its JSON represents.
impl<T: Plain> FromJson for T {
    ghost Meaning = { T };

    ghost value_of = { λ value. value };

    ghost meaning = { T.codec.decode };

    #[tactic(auto, using(naga_json_values::proofs::ReadsLemmas::reads_itself))]
    fn from_json(_alloc: Global, value: &Value<'_>) -> Result<Self, Cause> {
        T::read_value(value)
    }
}

impl FromJson for String {
    ghost use Rattle.std.specs.Prelude.{List, ℕ, string_bytes};

    ghost Meaning = { List ℕ };

    ghost value_of = { string_bytes };

    ghost meaning = { as_str };

    fn from_json(alloc: Global, value: &Value<'_>) -> Result<Self, Cause> {
        read_text(alloc, value)
    }
}

impl<T: FromJson> FromJson for Vec<T> {
    ghost use Rattle.std.specs.Prelude.{List};

    ghost Meaning = { List T.Meaning };

    ghost value_of = { λ list. map T.value_of list.items };

    ghost meaning = { each_in T.meaning };

    fn from_json(alloc: Global, value: &Value<'_>) -> Result<Self, Cause> {
        let items = items(value).ok_or(Cause::List)?;
        read_each(alloc, items)
    }
}

/// Reads each item of a list.
fn read_each<T: FromJson>(alloc: Global, items: &Vec<Value<'_>>) -> Result<Vec<T>, Cause>
    ensures { Reads (λ list. map T.value_of list.items) result (each_of T.meaning (items_view items.now.items)) }
{
    let mut list = Vec::new(alloc);
    for item in items {
        list.push(T::from_json(alloc, item)?)?;
    }
    Ok(list)
}

/// Reads the value in a field.
pub(crate) fn required_field<T: FromJson>(
    alloc: Global,
    value: &Value<'_>,
    name: &str,
) -> Result<T, Cause>
    ensures { Reads T.value_of result (required_at T.meaning name.now (value_view value.now)) }
{
    T::from_json(alloc, field(value, name)?)
}

/// Reads the value in a field that may be missing or null.
pub(crate) fn optional_field<T: FromJson>(
    alloc: Global,
    value: &Value<'_>,
    name: &str,
) -> Result<Option<T>, Cause>
    ensures { Reads (option_map T.value_of) result (optional_at T.meaning name.now (value_view value.now)) }
{
    match present(value, name) {
        Some(found) => Ok(Some(T::from_json(alloc, found)?)),
        None => Ok(None),
    }
}

/// Reads the list in a field.
pub(crate) fn list_field<T: FromJson>(
    alloc: Global,
    value: &Value<'_>,
    name: &str,
) -> Result<Vec<T>, Cause>
    ensures { Reads (λ list. map T.value_of list.items) result
        (required_at (each_in T.meaning) name.now (value_view value.now)) }
{
    required_field(alloc, value, name)
}
