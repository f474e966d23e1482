//! The JSON of a module, and the debug text of a part of it. The text of a module is as naga writes it if the module is
//! taken from its tokens, which builds no tree of the JSON, and is written as the same text.
use anyhow::Result;
use naga_ir::{EntryPoint, Function, Module};
use naga_json_read::take_module;
use naga_json_write::write_module;
use std::alloc::Global;
use std::fmt::Debug;

/// Prints whether the text of a module is as naga writes it, and the debug text of the part that the question names.
pub(crate) fn answer(
    rt: &impl Print,
    alloc: Global,
    part: &str,
    text: &str,
    module: &Module,
) -> Result<()> {
    let is_kept = take_module(alloc, text).is_some() && is_written_as(alloc, module, text);
    print!(rt; "{}", if is_kept { "kept: " } else { "changed: " })?;
    show_declarations(rt, part, module)
}

/// Returns whether the JSON of a module is `text`.
fn is_written_as(alloc: Global, module: &Module, text: &str) -> bool {
    let mut written = String::new(alloc);
    match write_module(&mut written, module) {
        Ok(()) => written.as_str() == text,
        Err(_) => false,
    }
}

/// Prints the debug text of a value, or nothing.
fn show<T: Debug>(rt: &impl Print, value: Option<&T>) -> Result<()> {
    match value {
        Some(value) => println!(rt; "{value:?}")?,
        None => println!(rt; "nothing")?,
    }
    Ok(())
}

/// Prints the debug text of the last type of a module.
fn show_last_type(rt: &impl Print, module: &Module) -> Result<()> {
    match module.types.iter().last() {
        Some((_, ty)) => show(rt, Some(ty)),
        None => show::<EntryPoint>(rt, None),
    }
}

/// Prints the debug text of the last element of an arena of a module.
fn show_declarations(rt: &impl Print, part: &str, module: &Module) -> Result<()> {
    match part {
        "types" => show_last_type(rt, module),
        "special_types" => show(rt, Some(&module.special_types)),
        "constants" => show(rt, module.constants.as_slice().last()),
        "overrides" => show(rt, module.overrides.as_slice().last()),
        "global_variables" => show(rt, module.global_variables.as_slice().last()),
        "global_expressions" => show(rt, module.global_expressions.as_slice().last()),
        "diagnostic_filters" => show(rt, module.diagnostic_filters.as_slice().last()),
        _ => show_others(rt, part, module),
    }
}

/// Prints the debug text of another part of a module.
fn show_others(rt: &impl Print, part: &str, module: &Module) -> Result<()> {
    match part {
        "doc_comments" => show(rt, Some(&module.doc_comments)),
        "diagnostic_filter_leaf" => show(rt, Some(&module.diagnostic_filter_leaf)),
        "functions" => show(rt, module.functions.as_slice().last()),
        "entry_points" => show(rt, module.entry_points.last()),
        "list_of_types" => show(rt, Some(&module.types)),
        "list_of_constants" => show(rt, Some(&module.constants)),
        "module" => show(rt, Some(module)),
        _ => match module.functions.as_slice().last() {
            Some(function) => show_part(rt, part, function),
            None => show::<EntryPoint>(rt, None),
        },
    }
}

/// Prints the debug text of a part of a function.
fn show_part(rt: &impl Print, part: &str, function: &Function) -> Result<()> {
    match part {
        "arguments" => show(rt, function.arguments.last()),
        "result" => show(rt, Some(&function.result)),
        "local_variables" => show(rt, function.local_variables.as_slice().last()),
        "expressions" => show(rt, function.expressions.as_slice().last()),
        "named_expressions" => show(rt, Some(&function.named_expressions)),
        "body" => show(rt, function.body.last()),
        "block" => show(rt, Some(&function.body)),
        _ => show::<EntryPoint>(rt, None),
    }
}
