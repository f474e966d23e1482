//! Types with their names.
ghost use Rattle.json.specs.Value.{value_view};
ghost use Rattle.naga_ir.specs.Types.{inner_of, type_of};
ghost use Rattle.naga_json.specs.Objects.{required_at};
ghost use Rattle.naga_json.specs.Types.{type_codec};
ghost use Rattle.naga_json.specs.derived.Types.{type_inner_codec};
ghost use Rattle.naga_json_values.specs.Reads.{Reads};

use crate::derived::types::read_type_inner;
use json::Value;
use naga_ir::{Type, TypeInner};
use naga_json_values::objects::field;
use naga_json_values::text::optional_text_field;
use naga_json_values::{Cause, read_struct};
use std::alloc::Global;

/// Reads what a type is, but for its name, in a field.
fn type_inner_field(alloc: Global, value: &Value<'_>, name: &str) -> Result<TypeInner, Cause>
    ensures { Reads inner_of result (required_at type_inner_codec.decode name.now (value_view value.now)) }
{
    read_type_inner(alloc, field(value, name)?)
}

/// Reads a type with its name.
#[tactic(auto, unfolding(naga_json::specs::Fields::struct_in))]
pub fn read_type(alloc: Global, value: &Value<'_>) -> Result<Type, Cause>
    ensures { Reads type_of result (type_codec.decode (value_view value.now)) }
{
    read_struct! { value => Type { name: optional_text_field(alloc), inner: type_inner_field(alloc) } }
}
