//! Lists of the members of structures.
ghost use Rattle.std.specs.Prelude.{map};
ghost use Rattle.json.specs.Value.{value_view, items_view};
ghost use Rattle.naga_ir.specs.Types.{member_of};
ghost use Rattle.naga_json.specs.Lists.{each_in, each_of};
ghost use Rattle.naga_json.specs.Objects.{required_at};
ghost use Rattle.naga_json.specs.derived.Types.{struct_member_codec};
ghost use Rattle.naga_json_values.specs.Reads.{Reads};

use crate::derived::types::read_struct_member;
use json::Value;
use naga_ir::StructMember;
use naga_json_values::Cause;
use naga_json_values::handles::items;
use naga_json_values::objects::field;
use std::alloc::Global;

/// Reads the members in a list.
fn read_members(alloc: Global, items: &Vec<Value<'_>>) -> Result<Vec<StructMember>, Cause>
    ensures { Reads (λ members. map member_of members.items) result
        (each_of struct_member_codec.decode (items_view items.now.items)) }
{
    let mut members = Vec::new(alloc);
    for item in items {
        members.push(read_struct_member(alloc, item)?)?;
    }
    Ok(members)
}

/// Reads the list of members in a field.
pub(crate) fn struct_members_field(
    alloc: Global,
    value: &Value<'_>,
    name: &str,
) -> Result<Vec<StructMember>, Cause>
    ensures { Reads (λ members. map member_of members.items) result
        (required_at (each_in struct_member_codec.decode) name.now (value_view value.now)) }
{
    let items = items(field(value, name)?).ok_or(Cause::List)?;
    read_members(alloc, items)
}
