//! Doc comments.
ghost use Rattle.json.specs.Value.{value_view};
ghost use Rattle.naga_json.specs.DocComments.{comments_value, doc_comments_codec, handle_comments_codec, lines_of, position_comments_codec};
ghost use Rattle.naga_json.specs.Objects.{required_at};
ghost use Rattle.naga_json.specs.Maps.{empty_map_codec, map_value};
ghost use Rattle.naga_json_read.specs.Parts.{comments_in, first_comments_in, first_comments_value, last_comments_in, last_comments_value};
ghost use Rattle.naga_json_values.specs.Reads.{Reads};

use super::lists::{FromJson, list_field, required_field};
use crate::parts::{FirstComments, LastComments};
use indexmap::IndexMap;
use json::Value;
use naga_arena::{Handle, KindName};
use naga_ir::{Constant, DocComments, Function, GlobalVariable, Type};
use naga_json_values::Cause;
use naga_json_values::objects::{field, fields};
use std::alloc::Global;

/// Reads the comments in a field. The keys are handles.
fn comments_field<T: KindName>(
    alloc: Global,
    value: &Value<'_>,
    name: &str,
) -> Result<IndexMap<Handle<T>, Vec<String>>, Cause>
    ensures { Reads (map_value lines_of) result
        (required_at handle_comments_codec.decode name.now (value_view value.now)) }
{
    required_field(alloc, value, name)
}

/// Reads the comments in a field. The keys are positions.
fn comments_by_position_field(
    alloc: Global,
    value: &Value<'_>,
    name: &str,
) -> Result<IndexMap<usize, Vec<String>>, Cause>
    ensures { Reads (map_value lines_of) result
        (required_at position_comments_codec.decode name.now (value_view value.now)) }
{
    required_field(alloc, value, name)
}

/// Reads the comments on members of structures in a field. They have no JSON, so there are none.
fn member_comments_field(
    alloc: Global,
    value: &Value<'_>,
    name: &str,
) -> Result<IndexMap<(Handle<Type>, usize), Vec<String>>, Cause>
    ensures { Reads (map_value lines_of) result
        (required_at empty_map_codec.decode name.now (value_view value.now)) }
{
    fields(field(value, name)?, &[])?;
    Ok(IndexMap::new(alloc))
}

/// Reads the doc comments of a module. Comments on members of structures have no JSON, so there are none.
///
/// Differs from naga: naga writes no module with comments on members, and has no JSON for their keys either.
pub(crate) fn read_doc_comments(alloc: Global, value: &Value<'_>) -> Result<DocComments, Cause>
    ensures meaning { Reads comments_value result (doc_comments_codec.decode (value_view value.now)) }
{
    let object = fields(
        value,
        &[
            "types",
            "struct_members",
            "entry_points",
            "functions",
            "constants",
            "global_variables",
            "module",
        ],
    )?;
    read_fields(alloc, object)
}

/// Reads the fields of doc comments.
#[tactic(auto, unfolding(crate::specs::Parts::comments_in))]
fn read_fields(alloc: Global, value: &Value<'_>) -> Result<DocComments, Cause>
    ensures { Reads comments_value result (comments_in (value_view value.now)) }
{
    let first = read_first(alloc, value)?;
    let LastComments {
        functions,
        constants,
        global_variables,
        module,
    } = read_last(alloc, value)?;
    Ok(DocComments {
        types: first.types,
        struct_members: first.struct_members,
        entry_points: first.entry_points,
        functions,
        constants,
        global_variables,
        module,
    })
}

/// Reads the fields of doc comments before those of functions.
#[tactic(auto, unfolding(crate::specs::Parts::first_comments_in))]
fn read_first(alloc: Global, value: &Value<'_>) -> Result<FirstComments, Cause>
    ensures { Reads first_comments_value result (first_comments_in (value_view value.now)) }
{
    let types = comments_field::<Type>(alloc, value, "types")?;
    let struct_members = member_comments_field(alloc, value, "struct_members")?;
    let entry_points = comments_by_position_field(alloc, value, "entry_points")?;
    Ok(FirstComments {
        types,
        struct_members,
        entry_points,
    })
}

/// Reads the other fields of doc comments.
#[tactic(auto, unfolding(crate::specs::Parts::last_comments_in))]
fn read_last(alloc: Global, value: &Value<'_>) -> Result<LastComments, Cause>
    ensures { Reads last_comments_value result (last_comments_in (value_view value.now)) }
{
    let functions = comments_field::<Function>(alloc, value, "functions")?;
    let constants = comments_field::<Constant>(alloc, value, "constants")?;
    let global_variables = comments_field::<GlobalVariable>(alloc, value, "global_variables")?;
    let module = list_field(alloc, value, "module")?;
    Ok(LastComments {
        functions,
        constants,
        global_variables,
        module,
    })
}

/// Comments on members of structures have no JSON, so there are none.
impl FromJson for DocComments {
    ghost use Rattle.naga_json.specs.DocComments.{DocCommentsValue};

    ghost Meaning = { DocCommentsValue };

    ghost value_of = { comments_value };

    ghost meaning = { doc_comments_codec.decode };

    fn from_json(alloc: Global, value: &Value<'_>) -> Result<Self, Cause> {
        read_doc_comments(alloc, value)
    }
}
