// Made by tests/derive from the declarations of naga_kinds and naga_ir.
//! What naga_ir declares in types.rt.
ghost use Rattle.std.specs.Prelude.{◌≡◌};
ghost use Rattle.std.specs.Result.{result_ok};
ghost use Rattle.json.specs.Value.{value_view};
ghost use Rattle.naga_json.specs.Objects.{choose, find_row};
ghost use Rattle.naga_json.specs.derived.Types.{array_size_codec, array_size_names, array_size_rows};

use crate::objects::variant;
use crate::{Cause, Coded};
use json::Value;
use naga_ir::ArraySize;

/// Reads an `ArraySize` that is a name alone.
pub(crate) fn read_named_array_size(name: &str) -> Result<ArraySize, Cause>
    ensures { result_ok result ≡ find_row array_size_names name.now }
{
    match name {
        "Dynamic" => Ok(ArraySize::Dynamic),
        _ => Err(Cause::UnknownVariant),
    }
}

/// Reads an `ArraySize` that contains data.
pub(crate) fn read_held_array_size(name: &str, held: &Value<'_>) -> Result<ArraySize, Cause>
    ensures { result_ok result ≡ choose (array_size_rows (value_view held.now)) name.now }
{
    match name {
        "Constant" => Ok(ArraySize::Constant(Coded::read_value(held)?)),
        "Pending" => Ok(ArraySize::Pending(Coded::read_value(held)?)),
        _ => Err(Cause::UnknownVariant),
    }
}

impl Coded for ArraySize {
    ghost codec = { array_size_codec };

    fn read_value(value: &Value<'_>) -> Result<Self, Cause> {
        match variant(value)? {
            (name, None) => read_named_array_size(name),
            (name, Some(held)) => read_held_array_size(name, held),
        }
    }
}
