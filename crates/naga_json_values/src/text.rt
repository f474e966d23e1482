//! Strings.
ghost use Rattle.std.specs.Prelude.{option_map, string_bytes};
ghost use Rattle.json.specs.Find.{as_str};
ghost use Rattle.json.specs.Value.{value_view};
ghost use Rattle.naga_json.specs.Objects.{optional_at, required_at};
ghost use Rattle.naga_json_values.specs.Reads.{Reads};

use crate::cause::Cause;
use crate::objects::{field, present};
use json::Value;
use std::alloc::Global;

/// Reads a string.
pub fn read_text(alloc: Global, value: &Value<'_>) -> Result<String, Cause>
    ensures { Reads string_bytes result (as_str (value_view value.now)) }
{
    let text = value.as_str().ok_or(Cause::Text)?;
    Ok(String::from_str(alloc, text)?)
}

/// Reads the string in a field.
pub fn text_field(alloc: Global, value: &Value<'_>, name: &str) -> Result<String, Cause>
    ensures { Reads string_bytes result (required_at as_str name.now (value_view value.now)) }
{
    read_text(alloc, field(value, name)?)
}

/// Reads the string in a field that may be missing or null.
pub fn optional_text_field(
    alloc: Global,
    value: &Value<'_>,
    name: &str,
) -> Result<Option<String>, Cause>
    ensures { Reads (option_map string_bytes) result (optional_at as_str name.now (value_view value.now)) }
{
    match present(value, name) {
        Some(found) => Ok(Some(read_text(alloc, found)?)),
        None => Ok(None),
    }
}
