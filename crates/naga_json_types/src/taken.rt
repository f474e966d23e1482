//! The types of a module, which are taken one by one.
ghost use Rattle.std.specs.Prelude.{IfSome};
ghost use Rattle.naga_ir.specs.Types.{type_of};
ghost use Rattle.naga_json.specs.Arenas.{arena_value};
ghost use Rattle.naga_json.specs.Types.{type_codec};
ghost use Rattle.naga_json_types.specs.Arenas.{AreDistinct, types_in};
ghost use Rattle.naga_json_tokens.specs.Takes.{Takes, TakesField};

use crate::types::read_type;
use naga_arena::{Span, UniqueArena};
use naga_ir::Type;
use naga_json_tokens::Reader;
use naga_json_tokens::tokens::{take_begin_list, take_key};
use std::alloc::Global;

/// Takes a type as a tree, and reads it.
fn take_type(alloc: Global, reader: &mut Reader<'_>) -> Option<Type>
    ensures { IfSome result (λ found. Takes type_codec.decode (type_of found) reader.old reader.new) }
{
    let value = reader.take_tree(alloc)?;
    match read_type(alloc, &value) {
        Ok(found) => Some(found),
        Err(_) => None,
    }
}

/// Takes the types in a field, with undefined spans. No two of them are equal.
///
/// A tree is built of one type at a time.
pub fn take_types_field(
    alloc: Global,
    reader: &mut Reader<'_>,
    name: &str,
) -> Option<UniqueArena<Type>>
    ensures taken { IfSome result
        (λ found. TakesField name.now types_in (arena_value type_of found) reader.old reader.new) }
    ensures distinct { IfSome result (λ found. AreDistinct (arena_value type_of found)) }
{
    take_key(reader, name)?;
    take_begin_list(reader)?;
    let mut types = UniqueArena::new(alloc);
    'items: while !reader.take_end_array() {
        let ty = take_type(alloc, reader)?;
        if types.get(&ty).is_some() {
            return None;
        }
        let Ok(_) = types.insert(ty, Span::UNDEFINED) else {
            return None;
        };
    }
    Some(types)
}
