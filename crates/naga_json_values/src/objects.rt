//! Objects: structs with named fields, and variants that hold a value.
ghost use Rattle.std.specs.Prelude.{◌≡◌, map, is_some, option_map, count_by};
ghost use Rattle.std.specs.Result.{result_ok};
ghost use Rattle.json.specs.Find.{get, as_bool, as_object};
ghost use Rattle.json.specs.Value.{value_view, members_view};
ghost use Rattle.naga_json.specs.Objects.{fields_in, present_at, required_at, only_member, variant_in, holder_in};
ghost use Rattle.naga_json.specs.Codec.{boolean_codec};

use crate::cause::Cause;
use crate::parts::Coded;
use json::Value;

/// Returns the number of these names of which the object has a member.
fn count_fields(value: &Value<'_>, names: &[&str]) -> usize
    ensures { result ≡ count_by (λ n. is_some (get n.now (value_view value.now))) names.now }
{
    names
        .iter()
        .filter(|name| value.get(**name).is_some())
        .count()
}

/// Returns the members of an object.
pub fn members<'v, 'a>(value: &'v Value<'a>) -> Option<&'v Vec<(&'a str, Value<'a>)>>
    ensures { option_map (λ ms. members_view ms.now.items) result ≡ as_object (value_view value.now) }
{
    if let Value::Object(members) = value {
        Some(members)
    } else {
        None
    }
}

/// Returns the value itself if it is an object without other members than these, and none of them twice.
pub fn fields<'v, 'a>(value: &'v Value<'a>, names: &[&str]) -> Result<&'v Value<'a>, Cause>
    ensures { option_map (λ v. value_view v.now) (result_ok result)
        ≡ fields_in (map (λ n. n.now) names.now) (value_view value.now) }
{
    let Some(members) = members(value) else {
        return Err(Cause::Object);
    };
    if count_fields(value, names) == members.len() {
        Ok(value)
    } else {
        Err(Cause::UnknownField)
    }
}

/// Returns the name and the value of the only member.
fn only_member<'v, 'a>(members: &'v Vec<(&'a str, Value<'a>)>) -> Option<(&'a str, &'v Value<'a>)>
    ensures { option_map (λ p. (p.0.now, value_view p.1.now)) result ≡ only_member (members_view members.now.items) }
{
    if members.len() == 1 {
        let member = &members[0];
        Some((member.0, &member.1))
    } else {
        None
    }
}

/// Returns the name of a variant, and the value that it holds.
pub fn holder<'v, 'a>(value: &'v Value<'a>) -> Result<(&'a str, &'v Value<'a>), Cause>
    ensures { option_map (λ p. (p.0.now, value_view p.1.now)) (result_ok result) ≡ holder_in (value_view value.now) }
{
    let members = members(value).ok_or(Cause::Variant)?;
    only_member(members).ok_or(Cause::Variant)
}

/// Returns the name of a variant, and the value that it holds.
pub fn variant<'v, 'a>(value: &'v Value<'a>) -> Result<(&'a str, Option<&'v Value<'a>>), Cause>
    ensures { option_map (λ p. (p.0.now, option_map (λ v. value_view v.now) p.1)) (result_ok result)
        ≡ variant_in (value_view value.now) }
{
    if let Some(name) = value.as_str() {
        return Ok((name, None));
    }
    let (name, held) = holder(value)?;
    Ok((name, Some(held)))
}

/// Returns the value of a field.
pub fn field<'v, 'a>(value: &'v Value<'a>, name: &str) -> Result<&'v Value<'a>, Cause>
    ensures { option_map (λ v. value_view v.now) (result_ok result) ≡ get name.now (value_view value.now) }
{
    value.get(name).ok_or(Cause::MissingField)
}

/// Returns the value of a field, or `None` if it is missing or null.
pub fn present<'v, 'a>(value: &'v Value<'a>, name: &str) -> Option<&'v Value<'a>>
    ensures { option_map (λ v. value_view v.now) result ≡ present_at name.now (value_view value.now) }
{
    let found = value.get(name)?;
    if found.is_null() { None } else { Some(found) }
}

/// Reads a boolean.
fn boolean(value: &Value<'_>) -> Result<bool, Cause>
    ensures { result_ok result ≡ as_bool (value_view value.now) }
{
    value.as_bool().ok_or(Cause::Boolean)
}

impl Coded for bool {
    ghost codec = { boolean_codec };

    fn read_value(value: &Value<'_>) -> Result<Self, Cause> {
        boolean(value)
    }
}
