//! Lists of values that are read without an allocation.
ghost use Rattle.json.specs.Value.{value_view, items_view};
ghost use Rattle.naga_json.specs.Lists.{each_of, list_codec};
ghost use Rattle.naga_json.specs.Objects.{required_at};
ghost use Rattle.naga_json_values.specs.Reads.{Reads};

use crate::cause::Cause;
use crate::handles::items;
use crate::objects::field;
use crate::parts::Coded;
use json::Value;
use std::alloc::Global;

/// Reads each item of a list, without an allocation but that of the list.
fn read_each_coded<T: Coded>(alloc: Global, items: &Vec<Value<'_>>) -> Result<Vec<T>, Cause>
    ensures { Reads (λ list. list.items) result (each_of T.codec.decode (items_view items.now.items)) }
{
    let mut list = Vec::new(alloc);
    for item in items {
        list.push(T::read_value(item)?)?;
    }
    Ok(list)
}

/// Reads the list in a field whose items are what their JSON represents.
pub fn coded_list_field<T: Coded>(
    alloc: Global,
    value: &Value<'_>,
    name: &str,
) -> Result<Vec<T>, Cause>
    ensures { Reads (λ list. list.items) result
        (required_at (list_codec T.codec).decode name.now (value_view value.now)) }
{
    let items = items(field(value, name)?).ok_or(Cause::List)?;
    read_each_coded(alloc, items)
}
