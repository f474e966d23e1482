//! Arrays, which are written as lists of their items.
ghost use Rattle.std.specs.Prelude.{◌≡◌};
ghost use Rattle.std.specs.Result.{result_ok};
ghost use Rattle.json.specs.Value.{value_view};
ghost use Rattle.naga_json.specs.Codec.{handle_codec, option_codec, word_codec};
ghost use Rattle.naga_json.specs.derived.Kinds.{swizzle_component_codec};
ghost use Rattle.naga_json.specs.Lists.{array_codec};
ghost use Rattle.naga_json_values.specs.Items.{item_at};

use crate::cause::Cause;
use crate::handles::items_of_length;
use crate::parts::Coded;
use json::Value;
use naga_arena::Handle;
use naga_ir::Expression;
use naga_kinds::SwizzleComponent;

/// Reads the item at a position of a list.
fn read_item<T: Coded>(value: &Value<'_>, position: usize) -> Result<T, Cause>
    ensures { result_ok result ≡ item_at T.codec.decode position (value_view value.now) }
{
    T::read_value(value.at(position).ok_or(Cause::List)?)
}

/// The pattern of a swizzle.
impl Coded for [SwizzleComponent; 4] {
    ghost codec = { array_codec 4 swizzle_component_codec };

    fn read_value(value: &Value<'_>) -> Result<Self, Cause> {
        let items = items_of_length(value, 4)?;
        let first = read_item(items, 0)?;
        let second = read_item(items, 1)?;
        let third = read_item(items, 2)?;
        let fourth = read_item(items, 3)?;
        Ok([first, second, third, fourth])
    }
}

/// The number of invocations of a workgroup in each dimension.
impl Coded for [u32; 3] {
    ghost codec = { array_codec 3 word_codec };

    fn read_value(value: &Value<'_>) -> Result<Self, Cause> {
        let items = items_of_length(value, 3)?;
        let x = read_item(items, 0)?;
        let y = read_item(items, 1)?;
        let z = read_item(items, 2)?;
        Ok([x, y, z])
    }
}

/// Reads the expression at a position of a list, or `None` from null.
fn override_at(value: &Value<'_>, position: usize) -> Result<Option<Handle<Expression>>, Cause>
    ensures { result_ok result ≡ item_at (option_codec handle_codec).decode position (value_view value.now) }
{
    let found = value.at(position).ok_or(Cause::List)?;
    if found.is_null() {
        return Ok(None);
    }
    Ok(Some(Coded::read_value(found)?))
}

/// The expressions that replace the numbers of invocations of a workgroup.
impl Coded for [Option<Handle<Expression>>; 3] {
    ghost codec = { array_codec 3 (option_codec handle_codec) };

    fn read_value(value: &Value<'_>) -> Result<Self, Cause> {
        let items = items_of_length(value, 3)?;
        let first = override_at(items, 0)?;
        let second = override_at(items, 1)?;
        let third = override_at(items, 2)?;
        Ok([first, second, third])
    }
}
