//! Types that a module declares for its built-in functions.
ghost use Rattle.std.specs.Prelude.{◌≡◌, option_map};
ghost use Rattle.std.specs.Result.{result_ok};
ghost use Rattle.json.specs.Value.{value_view};
ghost use Rattle.naga_json.specs.Maps.{empty_map_codec};
ghost use Rattle.naga_json.specs.Objects.{required_at};
ghost use Rattle.naga_json.specs.SpecialTypes.{special_types_value, special_types_codec};

use indexmap::IndexMap;
use json::Value;
use naga_arena::Handle;
use naga_ir::{SpecialTypes, Type};
use naga_json_values::objects::{field, fields};
use naga_json_values::{Cause, read_struct};
use naga_kinds::PredeclaredType;
use std::alloc::Global;

/// Reads the types of results of built-in functions in a field. They have no JSON, so there are none.
fn no_types_field(
    alloc: Global,
    value: &Value<'_>,
    name: &str,
) -> Result<IndexMap<PredeclaredType, Handle<Type>>, Cause>
    ensures { option_map (λ types. types.entries) (result_ok result)
        ≡ required_at empty_map_codec.decode name.now (value_view value.now) }
{
    fields(field(value, name)?, &[])?;
    Ok(IndexMap::new(alloc))
}

/// Reads the special types of a module.
///
/// The map of the types of results of built-in functions must be empty, since naga has no JSON for its keys.
#[tactic(auto, unfolding(naga_json::specs::Fields::struct_in))]
pub fn read_special_types(alloc: Global, value: &Value<'_>) -> Result<SpecialTypes, Cause>
    ensures meaning { option_map special_types_value (result_ok result) ≡ special_types_codec.decode (value_view value.now) }
{
    read_struct! { value => SpecialTypes {
        ray_desc,
        ray_intersection,
        ray_vertex_return,
        external_texture_params,
        external_texture_transfer_function,
        predeclared_types: no_types_field(alloc),
    } }
}
