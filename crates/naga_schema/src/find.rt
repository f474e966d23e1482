//! The search for the first fault of a value.
ghost use Rattle.std.specs.Prelude.{◌≡◌, ◌∷◌, [], IfOk, IfSome, Some, None, option_map, map, take, is_some};
ghost use Rattle.json.specs.Find.{as_array, as_object};
ghost use Rattle.json.specs.Json.{object};
ghost use Rattle.json.specs.Value.{value_view, items_view, members_view};
ghost use Rattle.naga_json.specs.Lists.{item_count};
ghost use Rattle.naga_json.specs.Maps.{key_in};
ghost use Rattle.naga_json.specs.Objects.{variant_in, find_row};
ghost use Rattle.naga_json.specs.declared.nesting.TheConstants.{MAX_NESTING};
ghost use Rattle.naga_schema.specs.Path.{found_of, here, into_of, within, or_later};
ghost use Rattle.naga_schema.specs.Fault.{fault, field_fault, fits_length, find_field, has_key, has_name, in_order, items_fault, leaf_fault, members_fault, entries_fault, missing_fault, name_fault, range_fault, shape_fault, inside};
ghost use Rattle.naga_schema.specs.Shape.{field_view, shape_view, variant_view};
ghost use Rattle.naga_schema.specs.Shape as shape;
ghost use Rattle.naga_schema.specs.Finds.{Finds};
ghost use Rattle.naga_schema.specs.Leads.{LeadsToFault};

use crate::allowed::Allowed;
use crate::derived::type_name::TypeName;
use crate::fault::{Fault, Found, Step, here, within};
use crate::leaf::Leaf;
use crate::look::{
    field_named, find_variant, fits, has_member, has_name, is_in_order, key, leaf_cause, missing,
    without_bound,
};
use crate::mismatch::Mismatch;
use crate::schema::{Field, Length, Presence, Schema, Variant};
use indexmap::IndexSet;
use json::Value;
use naga_json::MAX_NESTING;
use std::alloc::{AllocError, Global};

/// Returns the first fault of a value as the JSON of a type, or `None` if it has none.
///
/// Faults come in the order of the text; a field that is missing comes after all members that are there.
pub fn find_fault<'a>(
    alloc: Global,
    value: &Value<'a>,
    of: TypeName,
) -> Result<Option<Fault<'a>>, AllocError>
    ensures first { Finds result (fault (value_view value.now) MAX_NESTING of) }
    ensures leads { IfOk result (λ found. IfSome found (λ one. LeadsToFault (value_view value.now) (found_of one))) }
{
    find(alloc, value, MAX_NESTING, of)
}

/// Returns the first fault of a value in which blocks are nested no deeper than `depth`.
#[cycle(find)]
fn find<'a>(alloc: Global, value: &Value<'a>, depth: usize, of: TypeName) -> Found<'a>
    ensures { Finds result (fault (value_view value.now) depth of) }
{
    match of.schema() {
        Schema::Leaf(leaf) => find_in_leaf(alloc, value, leaf),
        Schema::List(length, of) => find_in_list(alloc, value, depth, length, of),
        Schema::Block(of) => find_in_block(alloc, value, depth, of),
        Schema::Map(greatest, of) => find_in_map(alloc, value, depth, greatest, of),
        Schema::Struct(fields) => find_in_struct(alloc, value, depth, fields),
        Schema::Range(fields) => find_in_range(alloc, value, depth, fields),
        Schema::Enum(names, variants) => find_in_enum(alloc, value, depth, names, variants),
    }
}

/// Returns the fault of a value that contains no other value.
fn find_in_leaf<'a>(alloc: Global, value: &Value<'a>, leaf: Leaf) -> Found<'a>
    ensures { Finds result (leaf_fault leaf (value_view value.now)) }
{
    if leaf.accepts(value) {
        Ok(None)
    } else {
        here(alloc, leaf_cause(leaf, value))
    }
}

/// Returns the first fault of a list.
#[cycle(find)]
#[tactic(auto, unfolding(crate::specs::Fault::inside))]
fn find_in_list<'a>(
    alloc: Global,
    value: &Value<'a>,
    depth: usize,
    length: Length,
    of: TypeName,
) -> Found<'a>
    ensures { Finds result
        (shape_fault (value_view value.now) (inside (value_view value.now)) depth (shape.list length of)) }
{
    match value {
        Value::Array(items) => {
            if fits(length, items.len()) {
                find_in_items(alloc, items, depth, of)
            } else {
                here(alloc, Mismatch::List(length))
            }
        }
        _ => here(alloc, Mismatch::List(without_bound(length))),
    }
}

/// Returns the first fault of a block.
#[cycle(find)]
#[tactic(auto, unfolding(crate::specs::Fault::inside))]
fn find_in_block<'a>(alloc: Global, value: &Value<'a>, depth: usize, of: TypeName) -> Found<'a>
    ensures { Finds result
        (shape_fault (value_view value.now) (inside (value_view value.now)) depth (shape.block of)) }
{
    if depth == 0 {
        return here(alloc, Mismatch::Nesting);
    }
    match value {
        Value::Array(items) => find_in_items(alloc, items, depth - 1, of),
        _ => here(alloc, Mismatch::List(Length::Any)),
    }
}

/// Returns the first fault in the items of a list.
#[cycle(find)]
fn find_in_items<'a>(alloc: Global, items: &Vec<Value<'a>>, depth: usize, of: TypeName) -> Found<'a>
    ensures { Finds result (items_fault (items_view items.now.items) 0 depth of) }
{
    'items: for (position, item) in items.iter().enumerate() {
        let found = within(Step::Item(position), find(alloc, item, depth, of)?)?;
        if found.is_some() {
            return Ok(found);
        }
    }
    Ok(None)
}

/// Returns the first fault of a map.
#[cycle(find)]
#[tactic(auto, unfolding(crate::specs::Fault::inside))]
fn find_in_map<'a>(
    alloc: Global,
    value: &Value<'a>,
    depth: usize,
    greatest: u64,
    of: TypeName,
) -> Found<'a>
    ensures { Finds result
        (shape_fault (value_view value.now) (inside (value_view value.now)) depth (shape.keyed greatest of)) }
{
    match value {
        Value::Object(members) => find_in_entries(alloc, members, depth, greatest, of),
        _ => here(alloc, Mismatch::Object),
    }
}

/// Returns the first fault in the entries of a map.
#[cycle(find)]
fn find_in_entries<'a>(
    alloc: Global,
    members: &Vec<(&'a str, Value<'a>)>,
    depth: usize,
    greatest: u64,
    of: TypeName,
) -> Found<'a>
    ensures { Finds result (entries_fault (members_view members.now.items) greatest [] depth of) }
{
    let mut keys: IndexSet<u64> = IndexSet::new(alloc);
    'entries: for member in members {
        let Some(key) = key(member.0, greatest) else {
            return here(alloc, Mismatch::Key(member.0));
        };
        if !keys.insert(key)? {
            return here(alloc, Mismatch::RepeatedKey(member.0));
        }
        let found = within(Step::Entry(member.0), find(alloc, &member.1, depth, of)?)?;
        if found.is_some() {
            return Ok(found);
        }
    }
    Ok(None)
}

/// Returns the first fault of a struct.
#[cycle(find)]
#[tactic(auto, unfolding(crate::specs::Fault::inside))]
fn find_in_struct<'a>(
    alloc: Global,
    value: &Value<'a>,
    depth: usize,
    fields: &'static [Field],
) -> Found<'a>
    ensures { Finds result (shape_fault (value_view value.now) (inside (value_view value.now)) depth
        (shape.struct (map field_view fields.now))) }
{
    match value {
        Value::Object(members) => find_in_members(alloc, members, depth, fields),
        _ => here(alloc, Mismatch::Object),
    }
}

/// Returns the first fault of a range.
#[cycle(find)]
fn find_in_range<'a>(
    alloc: Global,
    value: &Value<'a>,
    depth: usize,
    fields: &'static [Field],
) -> Found<'a>
    ensures { Finds result (shape_fault (value_view value.now) (inside (value_view value.now)) depth
        (shape.range (map field_view fields.now))) }
{
    let found = find_in_struct(alloc, value, depth, fields)?;
    if found.is_some() || is_in_order(value) {
        return Ok(found);
    }
    here(alloc, Mismatch::Range)
}

/// Returns the first fault in the members of a struct.
#[cycle(find)]
fn find_in_members<'a>(
    alloc: Global,
    members: &Vec<(&'a str, Value<'a>)>,
    depth: usize,
    fields: &'static [Field],
) -> Found<'a>
    ensures { Finds result (members_fault (members_view members.now.items) (map field_view fields.now) [] depth) }
{
    'members: for (position, member) in members.iter().enumerate() {
        let Some((presence, of)) = field_named(fields, member.0) else {
            return here(
                alloc,
                Mismatch::UnknownField(member.0, Allowed::Fields(fields)),
            );
        };
        if has_member(&members[..position], member.0) {
            return here(alloc, Mismatch::RepeatedField(member.0));
        }
        let found = within(
            Step::Field(member.0),
            find_in_field(alloc, &member.1, depth, presence, of)?,
        )?;
        if found.is_some() {
            return Ok(found);
        }
    }
    match missing(fields, members) {
        Some(name) => here(alloc, Mismatch::MissingField(name)),
        None => Ok(None),
    }
}

/// Returns the first fault of the value of a field.
#[cycle(find)]
fn find_in_field<'a>(
    alloc: Global,
    value: &Value<'a>,
    depth: usize,
    presence: Presence,
    of: TypeName,
) -> Found<'a>
    ensures { Finds result (field_fault presence (value_view value.now) (fault (value_view value.now) depth of)) }
{
    if presence == Presence::Optional && value.is_null() {
        return Ok(None);
    }
    find(alloc, value, depth, of)
}

/// Returns the first fault of a value of an enum.
#[cycle(find)]
fn find_in_enum<'a>(
    alloc: Global,
    value: &Value<'a>,
    depth: usize,
    names: &'static [&'static str],
    variants: &'static [Variant],
) -> Found<'a>
    ensures { Finds result (shape_fault (value_view value.now) (inside (value_view value.now)) depth
        (shape.enum (map (λ name. name.now) names.now) (map variant_view variants.now))) }
{
    match value {
        Value::String(name) => find_in_name(alloc, name, names, variants),
        Value::Object(members) => find_in_holder(alloc, members, depth, names, variants),
        _ => here(alloc, Mismatch::Variant),
    }
}

/// Returns the fault of the name of a variant.
fn find_in_name<'a>(
    alloc: Global,
    name: &'a str,
    names: &'static [&'static str],
    variants: &'static [Variant],
) -> Found<'a>
    ensures { Finds result (name_fault (map (λ name. name.now) names.now) (map variant_view variants.now) name.now) }
{
    if has_name(names, name) {
        return Ok(None);
    }
    match find_variant(variants, name) {
        Some(_) => here(alloc, Mismatch::WithoutValue(name)),
        None => {
            let allowed = Allowed::Variants(names, variants);
            here(alloc, Mismatch::UnknownVariant(name, allowed))
        }
    }
}

/// Returns the first fault of an object that is a variant.
#[cycle(find)]
#[tactic(auto, unfolding(crate::specs::Fault::inside))]
fn find_in_holder<'a>(
    alloc: Global,
    members: &Vec<(&'a str, Value<'a>)>,
    depth: usize,
    names: &'static [&'static str],
    variants: &'static [Variant],
) -> Found<'a>
    ensures { Finds result (shape_fault (object (members_view members.now.items))
        (inside (object (members_view members.now.items))) depth
        (shape.enum (map (λ name. name.now) names.now) (map variant_view variants.now))) }
{
    if members.len() != 1 {
        return here(alloc, Mismatch::Variant);
    }
    let member = &members[0];
    match find_variant(variants, member.0) {
        Some(of) => within(Step::Variant(member.0), find(alloc, &member.1, depth, of)?),
        None => {
            if has_name(names, member.0) {
                here(alloc, Mismatch::WithValue(member.0))
            } else {
                let allowed = Allowed::Variants(names, variants);
                here(alloc, Mismatch::UnknownVariant(member.0, allowed))
            }
        }
    }
}
