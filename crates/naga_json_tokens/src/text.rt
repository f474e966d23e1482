//! Strings.
ghost use Rattle.std.specs.Prelude.{◌≡◌, IfSome, Some, option_map, string_bytes};
ghost use Rattle.json.specs.Find.{as_str};
ghost use Rattle.json.specs.Value.{value_view};
ghost use Rattle.naga_json.specs.Objects.{nullable_in};

use crate::reader::Reader;
use crate::tokens::take_scalar;
use crate::values::Take;
use json::Value;
use std::alloc::Global;

impl Take for String {
    ghost use Rattle.std.specs.Prelude.{List, ℕ};

    ghost Meaning = { List ℕ };

    ghost value_of = { string_bytes };

    ghost meaning = { as_str };

    fn take(alloc: Global, reader: &mut Reader<'_>) -> Option<Self> {
        let value = take_scalar(reader)?;
        let Ok(text) = String::from_str(alloc, value.as_str()?) else {
            return None;
        };
        Some(text)
    }
}

/// Returns the text of a string, unless the value is null.
fn nullable_text(alloc: Global, value: &Value<'_>) -> Option<Option<String>>
    ensures { IfSome result
        (λ found. nullable_in as_str (value_view value.now) ≡ Some (option_map string_bytes found)) }
{
    if value.is_null() {
        return Some(None);
    }
    let Ok(text) = String::from_str(alloc, value.as_str()?) else {
        return None;
    };
    Some(Some(text))
}

/// A string that may be null.
impl Take for Option<String> {
    ghost use Rattle.std.specs.Prelude.{List, Option, ℕ};

    ghost Meaning = { Option (List ℕ) };

    ghost value_of = { option_map string_bytes };

    ghost meaning = { nullable_in as_str };

    fn take(alloc: Global, reader: &mut Reader<'_>) -> Option<Self> {
        let value = take_scalar(reader)?;
        nullable_text(alloc, &value)
    }
}
