//! Arenas, which are written as lists of their values, without spans.
ghost use Rattle.std.specs.Prelude.{◌≤◌, length};
ghost use Rattle.json.specs.Value.{value_view, items_view};
ghost use Rattle.naga_arena.specs.Limits.{max_len};
ghost use Rattle.naga_json.specs.Arenas.{arena_value, arena_in, without_span};
ghost use Rattle.naga_json.specs.Lists.{each_of};
ghost use Rattle.naga_json.specs.Objects.{required_at};
ghost use Rattle.naga_json_values.specs.Reads.{Reads};

use super::lists::{FromJson, required_field};
use json::Value;
use naga_arena::{Arena, KindName, Span};
use naga_json_types::arena_items;
use naga_json_values::Cause;
use std::alloc::Global;

/// The spans of its values are undefined.
impl<T: FromJson + KindName> FromJson for Arena<T> {
    ghost use Rattle.std.specs.Prelude.{List};
    ghost use Rattle.naga_arena.specs.declared.span.Span.{Span};

    ghost Meaning = { List (T.Meaning × Span) };

    ghost value_of = { arena_value T.value_of };

    ghost meaning = { arena_in T.meaning };

    fn from_json(alloc: Global, value: &Value<'_>) -> Result<Self, Cause> {
        let items = arena_items(value)?;
        read_values(alloc, items)
    }
}

/// Reads the values of an arena, with undefined spans.
fn read_values<T: FromJson + KindName>(
    alloc: Global,
    items: &Vec<Value<'_>>,
) -> Result<Arena<T>, Cause>
    requires { length items.now.items ≤ max_len }
    ensures { Reads (arena_value T.value_of) result
        (each_of (without_span T.meaning) (items_view items.now.items)) }
{
    let mut arena = Arena::new(alloc);
    for item in items {
        let found = T::from_json(alloc, item)?;
        arena.append(found, Span::UNDEFINED)?;
    }
    Ok(arena)
}

/// Reads the arena in a field, with undefined spans.
pub(crate) fn arena_field<T: FromJson + KindName>(
    alloc: Global,
    value: &Value<'_>,
    name: &str,
) -> Result<Arena<T>, Cause>
    ensures { Reads (arena_value T.value_of) result
        (required_at (arena_in T.meaning) name.now (value_view value.now)) }
{
    required_field(alloc, value, name)
}
