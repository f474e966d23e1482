//! What a value and the tables of a schema have.
ghost use Rattle.std.specs.Prelude.{◌≡◌, ◌+◌, map, option_map, slice_get};
ghost use Rattle.json.specs.Find.{as_str};
ghost use Rattle.json.specs.Value.{value_view, members_view};
ghost use Rattle.naga_json.specs.Maps.{key_in};
ghost use Rattle.naga_json.specs.Objects.{find_row};
ghost use Rattle.naga_schema.specs.Fault.{find_field, fits_length, has_name, in_order, leaf_blame, missing_field, number_at, without_bound};
ghost use Rattle.naga_schema.specs.Path.{blame_of};
ghost use Rattle.naga_schema.specs.Shape.{field_view, variant_view};

use crate::allowed::Allowed;
use crate::derived::type_name::TypeName;
use crate::leaf::Leaf;
use crate::mismatch::Mismatch;
use crate::numbers::natural_up_to;
use crate::schema::{Field, Length, Presence, Variant};
use json::{Value, is_number};
use naga_json::numbers::natural;
use naga_kinds::PlainKind;

/// Returns the name of the variant of a kind at a position, in the order of declaration.
#[tactic(auto, using(crate::proofs::AllowedLemmas::mapped))]
pub(crate) fn name_at<K: PlainKind>(position: usize) -> Option<&'static str>
    ensures { option_map (λ name. name.now) result ≡ slice_get (map K.name_of K.in_order) position }
{
    match K::variants().get(position) {
        Some(kind) => Some(kind.name()),
        None => None,
    }
}

/// Returns the reason why a value is not one of these, if it is none.
pub(crate) fn leaf_cause<'a>(leaf: Leaf, value: &Value<'a>) -> Mismatch<'a>
    ensures { blame_of result ≡ leaf_blame leaf (as_str (value_view value.now)) }
{
    match leaf {
        Leaf::Kind(kind) => match value.as_str() {
            Some(name) => Mismatch::UnknownVariant(name, Allowed::Kind(kind)),
            None => Mismatch::Leaf(leaf),
        },
        _ => Mismatch::Leaf(leaf),
    }
}

/// Returns `true` if a list may have this number of items.
pub(crate) fn fits(length: Length, count: usize) -> bool
    ensures { result ≡ fits_length length count }
{
    match length {
        Length::Any => true,
        Length::AtMost(greatest) => count <= greatest,
        Length::Exactly(exact) => count == exact,
    }
}

/// Returns what is said of the length of a list that is expected where there is none: not its greatest length.
pub(crate) fn without_bound(length: Length) -> Length
    ensures { result ≡ without_bound length }
{
    match length {
        Length::AtMost(_) => Length::Any,
        Length::Any | Length::Exactly(_) => length,
    }
}

/// Returns `true` if one of the names is this one.
pub(crate) fn has_name(names: &[&str], name: &str) -> bool
    ensures { result ≡ has_name (map (λ n. n.now) names.now) name.now }
{
    for other in names {
        if *other == name {
            return true;
        }
    }
    false
}

/// Returns `true` if one of the members has this name.
pub(crate) fn has_member<'a>(members: &[(&'a str, Value<'a>)], name: &str) -> bool
    ensures { result ≡ has_name (map (λ m. m.0.now) members.now) name.now }
{
    for member in members {
        if member.0 == name {
            return true;
        }
    }
    false
}

/// Returns the field with this name.
pub(crate) fn field_named(fields: &[Field], name: &str) -> Option<(Presence, TypeName)>
    ensures { result ≡ find_field (map field_view fields.now) name.now }
{
    for field in fields {
        if field.0 == name {
            return Some((field.1, field.2));
        }
    }
    None
}

/// Returns the type of what the variant with this name holds.
pub(crate) fn find_variant(variants: &[Variant], name: &str) -> Option<TypeName>
    ensures { result ≡ find_row (map variant_view variants.now) name.now }
{
    for variant in variants {
        if variant.0 == name {
            return Some(variant.1);
        }
    }
    None
}

/// Returns the name of the first field that must be there and is missing.
pub(crate) fn missing<'a>(
    fields: &'static [Field],
    members: &[(&'a str, Value<'a>)],
) -> Option<&'static str>
    ensures { option_map (λ name. name.now) result
        ≡ missing_field (map field_view fields.now) (map (λ m. m.0.now) members.now) }
{
    for field in fields {
        if field.1 == Presence::Required && !has_member(members, field.0) {
            return Some(field.0);
        }
    }
    None
}

/// Returns the natural number below 2^greatest that a key represents, if it represents one that is at most `greatest`.
#[tactic(auto, unfolding(naga_json::specs::Maps::key_in))]
pub(crate) fn key(name: &str, greatest: u64) -> Option<u64>
    ensures { result ≡ key_in (greatest + 1) name.now }
{
    if !is_number(name) {
        return None;
    }
    let number: Value<'_> = Value::Number(name);
    natural_up_to(&number, greatest)
}

/// Returns the number of 64 bits in a field.
fn number_at(value: &Value<'_>, name: &str) -> Option<u64>
    ensures { result ≡ number_at name.now (value_view value.now) }
{
    natural(value.get(name)?)
}

/// Returns `true` if the start of a range is at most its end.
pub(crate) fn is_in_order(value: &Value<'_>) -> bool
    ensures { result ≡ in_order (value_view value.now) }
{
    match number_at(value, "start") {
        None => false,
        Some(start) => match number_at(value, "end") {
            None => false,
            Some(end) => start <= end,
        },
    }
}
