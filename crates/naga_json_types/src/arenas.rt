//! The types of a module, and lists that are no longer than an arena can be.
ghost use Rattle.std.specs.Prelude.{◌≡◌, ◌≤◌, IfOk, option_map, length};
ghost use Rattle.std.specs.Result.{result_ok};
ghost use Rattle.json.specs.Value.{value_view, items_view};
ghost use Rattle.naga_arena.specs.Limits.{max_len};
ghost use Rattle.naga_json.specs.Arenas.{arena_items_in, without_span};
ghost use Rattle.naga_json.specs.Lists.{each_of};
ghost use Rattle.naga_json.specs.Types.{type_codec};
ghost use Rattle.naga_json_types.specs.Arenas.{types_in, ReadsTypes};

use crate::types::read_type;
use json::Value;
use naga_arena::{Span, UniqueArena};
use naga_ir::Type;
use naga_json_values::Cause;
use naga_json_values::handles::items;
use std::alloc::Global;

/// Returns the items of a list that is not longer than an arena can be.
pub fn arena_items<'v, 'a>(value: &'v Value<'a>) -> Result<&'v Vec<Value<'a>>, Cause>
    ensures value { option_map (λ items. items_view items.now.items) (result_ok result)
        ≡ arena_items_in (value_view value.now) }
    ensures bound { IfOk result (λ items. length items.now.items ≤ max_len) }
{
    let Some(items) = items(value) else {
        return Err(Cause::List);
    };
    if items.len() <= u32::MAX as usize {
        Ok(items)
    } else {
        Err(Cause::List)
    }
}

/// Reads the types of a module, with undefined spans. It is an error if two of them are equal.
///
/// Differs from naga: naga drops a type that is equal to an earlier one, so that later handles refer to other types.
pub fn read_types(alloc: Global, value: &Value<'_>) -> Result<UniqueArena<Type>, Cause>
    ensures meaning { ReadsTypes result (types_in (value_view value.now)) }
{
    let items = arena_items(value)?;
    read_distinct_types(alloc, items)
}

/// Reads types of which no two are equal, with undefined spans.
fn read_distinct_types(alloc: Global, items: &Vec<Value<'_>>) -> Result<UniqueArena<Type>, Cause>
    requires { length items.now.items ≤ max_len }
    ensures { ReadsTypes result (each_of (without_span type_codec.decode) (items_view items.now.items)) }
{
    let mut types = UniqueArena::new(alloc);
    for item in items {
        let ty = read_type(alloc, item)?;
        if types.get(&ty).is_some() {
            return Err(Cause::RepeatedType(types.len()));
        }
        types.insert(ty, Span::UNDEFINED)?;
    }
    Ok(types)
}
