//! Modules.
ghost use Rattle.std.specs.Prelude.{IfOk, option_map};
ghost use Rattle.json.specs.Value.{value_view};
ghost use Rattle.naga_json_types.specs.Arenas.{types_in, ReadsTypes};
ghost use Rattle.naga_json.specs.DocComments.{comments_value, doc_comments_codec};
ghost use Rattle.naga_json.specs.Module.{module_form};
ghost use Rattle.naga_json.specs.Objects.{required_at, optional_at};
ghost use Rattle.naga_json_read.specs.Module.{rest_in, rest_value, Parses, ReadsModule, ReadsParts};
ghost use Rattle.naga_json_read.specs.Parts.{declarations_in, declarations_value, definitions_in, definitions_value};
ghost use Rattle.naga_json_values.specs.Reads.{Reads};
ghost use Rattle.naga_json.specs.Text.{document};
ghost use Rattle.naga_valid.specs.Valid.{HandlesAreValid};

use super::arenas::arena_field;
use super::lists::{FromJson, list_field, required_field};
use crate::parts::{Declarations, Definitions};
use crate::read_error::ReadError;
use crate::take::take_module;
use json::{Error, Reader, Scratch, Value};
use naga_arena::UniqueArena;
use naga_ir::{
    Constant, DocComments, EntryPoint, Expression, Function, GlobalVariable, Module, Override,
    SpecialTypes, Type,
};
use naga_json::MAX_NESTING;
use naga_json_types::read_types;
use naga_json_values::Cause;
use naga_json_values::objects::{field, fields, present};
use naga_json_values::parts::Field;
use naga_kinds::DiagnosticFilterNode;
use naga_valid::check_handles;
use std::alloc::Global;

/// Parses a text. The value borrows from the text, and from `scratch` where a string of the text has escapes.
///
/// Returns `Err` if the text is not JSON, if its lists and objects are nested more than 127 deep, or if an allocation
/// fails.
pub fn parse<'a>(
    alloc: Global,
    text: &'a str,
    scratch: &'a mut Scratch,
) -> Result<Value<'a>, ReadError>
    ensures parsed { Parses result (document text.now) }
{
    let Ok(mut reader) = Reader::new(text, scratch) else {
        return Err(ReadError::Memory);
    };
    let value = match Value::read(alloc, &mut reader, MAX_NESTING) {
        Ok(value) => value,
        Err(Error::OutOfMemory) => return Err(ReadError::Memory),
        Err(_) => {
            return Err(ReadError::Text {
                offset: reader.offset(),
            });
        }
    };
    if reader.next().is_some() {
        return Err(ReadError::Text {
            offset: reader.offset(),
        });
    }
    Ok(value)
}

/// Reads the types in a field.
fn types_field(alloc: Global, value: &Value<'_>, name: &str) -> Result<UniqueArena<Type>, Cause>
    ensures { ReadsTypes result (required_at types_in name.now (value_view value.now)) }
{
    read_types(alloc, field(value, name)?)
}

/// Reads the doc comments in a field that may be missing or null, into a box.
fn optional_comments(
    alloc: Global,
    value: &Value<'_>,
    name: &str,
) -> Result<Option<Box<DocComments>>, Cause>
    ensures { Reads (option_map (λ comments. comments_value comments.value)) result
        (optional_at doc_comments_codec.decode name.now (value_view value.now)) }
{
    let Some(found) = present(value, name) else {
        return Ok(None);
    };
    let comments = DocComments::from_json(alloc, found)?;
    Ok(Some(Box::new(alloc, comments)?))
}

/// A module without its types.
struct Rest {
    declarations: Declarations,
    definitions: Definitions,
}

/// Reads all fields of a module but its types.
#[tactic(auto, unfolding(crate::specs::Module::rest_in))]
fn read_rest(alloc: Global, value: &Value<'_>) -> Result<Rest, Cause>
    ensures { Reads rest_value result (rest_in (value_view value.now)) }
{
    let declarations = read_declarations(alloc, value)?;
    let definitions = read_definitions(alloc, value)?;
    Ok(Rest {
        declarations,
        definitions,
    })
}

/// Reads the fields of a module between its types and its functions.
#[tactic(auto, unfolding(crate::specs::Parts::declarations_in))]
fn read_declarations(alloc: Global, value: &Value<'_>) -> Result<Declarations, Cause>
    ensures { Reads declarations_value result (declarations_in (value_view value.now)) }
{
    let special_types = required_field::<SpecialTypes>(alloc, value, "special_types")?;
    let constants = arena_field::<Constant>(alloc, value, "constants")?;
    let overrides = arena_field::<Override>(alloc, value, "overrides")?;
    let global_variables = arena_field::<GlobalVariable>(alloc, value, "global_variables")?;
    let global_expressions = arena_field::<Expression>(alloc, value, "global_expressions")?;
    Ok(Declarations {
        special_types,
        constants,
        overrides,
        global_variables,
        global_expressions,
    })
}

/// Reads the fields of a module from its functions on.
#[tactic(auto, unfolding(crate::specs::Parts::definitions_in))]
fn read_definitions(alloc: Global, value: &Value<'_>) -> Result<Definitions, Cause>
    ensures { Reads definitions_value result (definitions_in (value_view value.now)) }
{
    let functions = arena_field::<Function>(alloc, value, "functions")?;
    let entry_points = list_field::<EntryPoint>(alloc, value, "entry_points")?;
    let diagnostic_filters = arena_field::<DiagnosticFilterNode>(
        alloc,
        value,
        "diagnostic_filters",
    )?;
    let diagnostic_filter_leaf = Field::read_field(value, "diagnostic_filter_leaf")?;
    let doc_comments = optional_comments(alloc, value, "doc_comments")?;
    Ok(Definitions {
        functions,
        entry_points,
        diagnostic_filters,
        diagnostic_filter_leaf,
        doc_comments,
    })
}

/// Reads a module, and does not check its handles.
///
/// All spans of the module are undefined. It has no comments on members of structures, and no types of the results of
/// built-in functions, since both have no JSON.
///
/// Returns `Err` if the value is not what naga writes for a module, if two types are equal
/// ([`Cause::RepeatedType`]), or if an allocation fails. No part of the module is returned then.
///
/// Differs from naga: naga drops a type that is equal to an earlier one.
#[tactic(auto, unfolding(naga_json::specs::FormFields::form_struct_in))]
pub fn read_module_value(alloc: Global, value: &Value<'_>) -> Result<Module, Cause>
    ensures meaning { ReadsParts result (module_form.decode (value_view value.now)) }
{
    let value = fields(
        value,
        &[
            "types",
            "special_types",
            "constants",
            "overrides",
            "global_variables",
            "global_expressions",
            "functions",
            "entry_points",
            "diagnostic_filters",
            "diagnostic_filter_leaf",
            "doc_comments",
        ],
    )?;
    let types = types_field(alloc, value, "types")?;
    let Rest {
        declarations,
        definitions,
    } = read_rest(alloc, value)?;
    let Definitions {
        functions,
        entry_points,
        diagnostic_filters,
        diagnostic_filter_leaf,
        doc_comments,
    } = definitions;
    Ok(Module {
        types,
        special_types: declarations.special_types,
        constants: declarations.constants,
        overrides: declarations.overrides,
        global_variables: declarations.global_variables,
        global_expressions: declarations.global_expressions,
        functions,
        entry_points,
        diagnostic_filters,
        diagnostic_filter_leaf,
        doc_comments,
    })
}

/// Reads the module that a text represents, and does not check its handles.
///
/// The module is taken from the tokens of the text if all fields are in the order in which naga writes them. Otherwise
/// the text is parsed, and the module is read from the value.
fn module_of_text(alloc: Global, text: &str) -> Result<Module, ReadError>
    ensures { ReadsModule result (document text.now) }
{
    if let Some(module) = take_module(alloc, text) {
        return Ok(module);
    }
    let mut scratch = Scratch::new(alloc);
    let value = parse(alloc, text, &mut scratch)?;
    let module = read_module_value(alloc, &value)?;
    Ok(module)
}

/// Reads a module from the JSON that naga writes, and checks its handles by [`check_handles`].
///
/// All spans of the module are undefined. It has no comments on members of structures, and no types of the results of
/// built-in functions, since both have no JSON.
///
/// Returns `Err` if the text is not JSON, if its lists and objects are nested more than 127 deep, if the JSON is not
/// what naga writes for a module, if two types are equal, if a handle is not valid, or if an allocation fails. No part
/// of the module is returned then.
///
/// Differs from naga: naga drops a type that is equal to an earlier one, and does not compare handles with their
/// arenas.
pub fn read_module(alloc: Global, text: &str) -> Result<Module, ReadError>
    ensures handles { IfOk result HandlesAreValid }
    ensures meaning { ReadsModule result (document text.now) }
{
    let module = module_of_text(alloc, text)?;
    if let Err(invalid) = check_handles(&module) {
        return Err(ReadError::Handle(invalid));
    }
    Ok(module)
}
