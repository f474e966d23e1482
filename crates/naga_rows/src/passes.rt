//! What passes make of bodies.
use anyhow::Result;
use naga_arena::Span;
use naga_ir::{Block, Expression, Function, Literal, Module};
use naga_json_read::read_module;
use naga_notation::{read_block, write_block};
use naga_passes::{Pass, passes_from_names, run_passes};
use naga_valid::check_handles;
use std::alloc::Global;

/// The JSON of a module of an entry point that has two expressions. A branch, a switch or the end of a loop in the
/// notation uses the first.
const MODULE: &str =
    r#"{"types":[],"special_types":{"predeclared_types":{}},"constants":[],"overrides":[],"global_variables":[],"global_expressions":[],"functions":[],"entry_points":[{"name":"","stage":"Compute","early_depth_test":null,"workgroup_size":[1,1,1],"workgroup_size_overrides":null,"function":{"name":null,"arguments":[],"result":null,"local_variables":[],"expressions":[{"Literal":{"Bool":true}},{"Literal":{"Bool":false}}],"named_expressions":{},"body":[],"diagnostic_filter_leaf":null},"mesh_info":null,"task_payload":null,"incoming_ray_payload":null}],"diagnostic_filters":[],"diagnostic_filter_leaf":null,"doc_comments":null}"#;

/// Prints the answer to a question about a list of names of passes and a body in the notation.
pub(crate) fn answer(rt: &impl Print, alloc: Global, question: &str, text: &str) -> Result<()> {
    let (names, body) = text.split_once(' ').unwrap_or((text, ""));
    match question {
        "bodies" => run_named(rt, alloc, names, body),
        _ => {
            println!(rt; "unknown question")?;
            Ok(())
        }
    }
}

/// Prints what the passes with these names make of a body.
fn run_named(rt: &impl Print, alloc: Global, names: &str, body: &str) -> Result<()> {
    match passes_from_names(alloc, names) {
        Ok(passes) => run_listed(rt, alloc, passes.as_slice(), body),
        Err(error) => {
            println!(rt; "{error}")?;
            Ok(())
        }
    }
}

/// Prints what passes make of a body.
fn run_listed(rt: &impl Print, alloc: Global, passes: &[Pass], body: &str) -> Result<()> {
    match module_of(alloc, body) {
        Some(mut module) => run(rt, alloc, passes, &mut module),
        None => {
            println!(rt; "unread")?;
            Ok(())
        }
    }
}

/// Gives the entry point of a module this body. Returns whether there is an entry point.
fn set_body(module: &mut Module, body: Block) -> bool {
    match module.entry_points.first_mut() {
        Some(entry_point) => {
            entry_point.function.body = body;
            true
        }
        None => false,
    }
}

/// Returns a module of an entry point and a function that both have this body, or `None` if it is not in the notation,
/// or an allocation fails.
fn module_of(alloc: Global, body: &str) -> Option<Module> {
    let mut module = read_module(alloc, MODULE).ok()?;
    let function = function_of(alloc, body)?;
    if module.functions.append(function, Span::UNDEFINED).is_err() {
        return None;
    }
    let body = read_block(alloc, body.as_bytes()).ok()?;
    if set_body(&mut module, body) {
        Some(module)
    } else {
        None
    }
}

/// Returns a function that has this body and two expressions.
fn function_of(alloc: Global, body: &str) -> Option<Function> {
    let mut function = Function::new(alloc);
    function.body = read_block(alloc, body.as_bytes()).ok()?;
    for value in [true, false] {
        let literal = Expression::Literal(Literal::Bool(value));
        function.expressions.append(literal, Span::UNDEFINED).ok()?;
    }
    Some(function)
}

/// Runs passes on a module, and prints its bodies.
fn run(rt: &impl Print, alloc: Global, passes: &[Pass], module: &mut Module) -> Result<()> {
    if check_handles(module).is_err() {
        println!(rt; "invalid")?;
        return Ok(());
    }
    match run_passes(alloc, module, passes) {
        Ok(()) => show(rt, alloc, module),
        Err(error) => {
            println!(rt; "{error}")?;
            Ok(())
        }
    }
}

/// Prints the bodies of the functions and of the entry point of a module, and the number of its expressions.
fn show(rt: &impl Print, alloc: Global, module: &Module) -> Result<()> {
    for (_, function) in module.functions.iter() {
        show_body(rt, alloc, function)?;
    }
    match module.entry_points.first() {
        Some(entry_point) => {
            show_body(rt, alloc, &entry_point.function)?;
            println!(rt; "{}", entry_point.function.expressions.len())?;
        }
        None => println!(rt; "no entry point")?,
    }
    Ok(())
}

/// Prints the body of a function, and a blank.
fn show_body(rt: &impl Print, alloc: Global, function: &Function) -> Result<()> {
    let mut text = String::new(alloc);
    write_block(&mut text, &function.body)?;
    print!(rt; "{text} ")?;
    Ok(())
}
