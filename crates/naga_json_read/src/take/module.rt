//! Modules.
ghost use Rattle.std.specs.Prelude.{[], IfSome, Ok};
ghost use Rattle.naga_json.specs.Module.{module_form, module_value};
ghost use Rattle.naga_json.specs.Text.{document};
ghost use Rattle.naga_json_types.specs.Arenas.{AreDistinct};
ghost use Rattle.naga_json_read.specs.Module.{ReadsModule};
ghost use Rattle.naga_json_read.specs.Taken.{TakesDeclarations, TakesDefinitions};
ghost use Rattle.naga_json_tokens.specs.Takes.{Takes};

use super::lists::{take_arena_field, take_list_field};
use super::trees::{take_comments_field, take_tree_field};
use crate::parts::{Declarations, Definitions};
use json::Scratch;
use naga_ir::{
    Constant, EntryPoint, Expression, Function, GlobalVariable, Module, Override, SpecialTypes,
};
use naga_json_tokens::tokens::{take_begin, take_end};
use naga_json_tokens::{Reader, take_field};
use naga_json_types::take_types_field;
use naga_kinds::DiagnosticFilterNode;
use std::alloc::Global;

/// Takes a module, and does not check its handles.
fn take_fields(alloc: Global, reader: &mut Reader<'_>) -> Option<Module>
    ensures taken { IfSome result
        (λ found. Takes module_form.decode (module_value found) reader.old reader.new) }
    ensures distinct { IfSome result (λ found. AreDistinct (module_value found).types) }
{
    take_begin(reader)?;
    let types = take_types_field(alloc, reader, "types")?;
    let declarations = take_declarations(alloc, reader)?;
    let Definitions {
        functions,
        entry_points,
        diagnostic_filters,
        diagnostic_filter_leaf,
        doc_comments,
    } = take_definitions(alloc, reader)?;
    Some(Module {
        types,
        special_types: declarations.special_types,
        constants: declarations.constants,
        overrides: declarations.overrides,
        global_variables: declarations.global_variables,
        global_expressions: declarations.global_expressions,
        functions,
        entry_points,
        diagnostic_filters,
        diagnostic_filter_leaf,
        doc_comments,
    })
}

/// Takes the fields of a module between its types and its functions.
fn take_declarations(alloc: Global, reader: &mut Reader<'_>) -> Option<Declarations>
    ensures { IfSome result (λ found. TakesDeclarations found reader.old reader.new) }
{
    let special_types = take_tree_field::<SpecialTypes>(alloc, reader, "special_types")?;
    let constants = take_arena_field::<Constant>(alloc, reader, "constants")?;
    let overrides = take_arena_field::<Override>(alloc, reader, "overrides")?;
    let global_variables = take_arena_field::<GlobalVariable>(alloc, reader, "global_variables")?;
    let global_expressions = take_arena_field::<Expression>(alloc, reader, "global_expressions")?;
    Some(Declarations {
        special_types,
        constants,
        overrides,
        global_variables,
        global_expressions,
    })
}

/// Takes the fields of a module from its functions on, and the end of it.
fn take_definitions(alloc: Global, reader: &mut Reader<'_>) -> Option<Definitions>
    ensures { IfSome result (λ found. TakesDefinitions found reader.old reader.new) }
{
    let functions = take_arena_field::<Function>(alloc, reader, "functions")?;
    let entry_points = take_list_field::<EntryPoint>(alloc, reader, "entry_points")?;
    let diagnostic_filters = take_arena_field::<DiagnosticFilterNode>(
        alloc,
        reader,
        "diagnostic_filters",
    )?;
    let diagnostic_filter_leaf = take_field(alloc, reader, "diagnostic_filter_leaf")?;
    let doc_comments = take_comments_field(alloc, reader, "doc_comments")?;
    take_end(reader)?;
    Some(Definitions {
        functions,
        entry_points,
        diagnostic_filters,
        diagnostic_filter_leaf,
        doc_comments,
    })
}

/// Takes a module that the text ends with, and does not check its handles.
fn take_last(alloc: Global, reader: &mut Reader<'_>) -> Option<Module>
    ensures taken { IfSome result
        (λ found. Takes module_form.decode (module_value found) reader.old []) }
    ensures distinct { IfSome result (λ found. AreDistinct (module_value found).types) }
{
    let module = take_fields(alloc, reader)?;
    if reader.next().is_some() {
        return None;
    }
    Some(module)
}

/// Takes a module from a text whose fields are all in the order in which naga writes them, and does not check its
/// handles.
///
/// All spans of the module are undefined. No tree of the JSON is built, except for one type at a time, for maps and for small values.
///
/// `None` says nothing of the text: a field may be in another place or missing, the text may represent no module or one
/// with two equal types, it may be nested too deep, or an allocation may have failed. [`read_module`](crate::read_module)
/// then parses the text.
pub fn take_module(alloc: Global, text: &str) -> Option<Module>
    ensures { IfSome result (λ found. ReadsModule (Ok found) (document text.now)) }
{
    let mut scratch = Scratch::new(alloc);
    let Ok(mut reader) = Reader::new(text, &mut scratch) else {
        return None;
    };
    take_last(alloc, &mut reader)
}
