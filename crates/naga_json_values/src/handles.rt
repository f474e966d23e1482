//! Handles, and the items of lists.
ghost use Rattle.std.specs.Prelude.{◌≡◌, ◌<◌, option_map, IfOk};
ghost use Rattle.std.specs.Result.{result_ok};
ghost use Rattle.json.specs.Find.{as_array};
ghost use Rattle.json.specs.Value.{value_view, items_view};
ghost use Rattle.naga_arena.specs.Limits.{max_len};
ghost use Rattle.naga_json_values.specs.Items.{items_in};
ghost use Rattle.naga_json.specs.Codec.{handle_codec};

use crate::cause::Cause;
use crate::numbers::natural_below;
use crate::parts::Coded;
use json::Value;
use naga_arena::KindHandle;

/// Reads the index of a handle.
pub fn index(value: &Value<'_>) -> Result<usize, Cause>
    ensures value { result_ok result ≡ handle_codec.decode (value_view value.now) }
    ensures bound { IfOk result (λ index. index < max_len) }
{
    let number = natural_below(value, u64::from(u32::MAX))?;
    Ok(number as usize)
}

impl<K> Coded for KindHandle<K> {
    ghost codec = { handle_codec };

    fn read_value(value: &Value<'_>) -> Result<Self, Cause> {
        Ok(KindHandle::at(index(value)?))
    }
}

/// Returns the items of a list.
pub fn items<'v, 'a>(value: &'v Value<'a>) -> Option<&'v Vec<Value<'a>>>
    ensures { option_map (λ items. items_view items.now.items) result ≡ as_array (value_view value.now) }
{
    if let Value::Array(items) = value {
        Some(items)
    } else {
        None
    }
}

/// Returns the value itself if it is a list with this number of items.
pub fn items_of_length<'v, 'a>(value: &'v Value<'a>, count: usize) -> Result<&'v Value<'a>, Cause>
    ensures { option_map (λ v. value_view v.now) (result_ok result) ≡ items_in count (value_view value.now) }
{
    let Some(items) = items(value) else {
        return Err(Cause::List);
    };
    if items.len() == count {
        Ok(value)
    } else {
        Err(Cause::List)
    }
}
