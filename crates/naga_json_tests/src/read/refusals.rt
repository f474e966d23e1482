//! Tests of the reader in which any allocation may fail. Each call must either succeed as usual, or report that it is
//! out of memory.
use super::{read_text, types_of_text};
use crate::doubling::{DOUBLING, is_doubling};
use naga_arena::{Arena, KindHandle};
use naga_ir::{
    Block, Constant, DocComments, Expression, Function, GlobalVariable, Module, Statement,
};
use naga_json_read::{Cause, ReadError, read_module, take_module};
use naga_kinds::DiagnosticFilterNode;
use std::alloc::Global;

/// Returns whether this is a `Compose` with this number of components.
fn has_components(expression: &Expression, count: usize) -> bool {
    match expression {
        Expression::Compose { components, .. } => components.len() == count,
        _ => false,
    }
}

/// Returns whether a `Compose` of nine components is read, or allocation failed.
fn is_read_or_refused(alloc: Global) -> bool {
    let text = "{\"Compose\":{\"ty\":1,\"components\":[0,1,2,3,4,5,6,7,8]}}";
    match read_text::<Expression>(alloc, text) {
        Some(Ok(found)) => has_components(&found, 9),
        Some(Err(cause)) => cause == Cause::Memory,
        None => true,
    }
}

/// Returns whether two types with names are read, or allocation failed.
fn types_are_read_or_refused(alloc: Global) -> bool {
    let text =
        r#"[{"name":"a","inner":{"Struct":{"members":[{"name":"b","ty":0,"offset":0},{"ty":0,"offset":4}],"span":8}}},{"inner":{"Sampler":{"comparison":true}}}]"#;
    match types_of_text(alloc, text) {
        Some(Ok(found)) => found.len() == 2,
        Some(Err(cause)) => cause == Cause::Memory,
        None => true,
    }
}

/// Returns whether five constants are read, or allocation failed.
fn constants_are_read_or_refused(alloc: Global) -> bool {
    let text =
        r#"[{"name":"a","ty":0,"init":0},{"ty":0,"init":1},{"ty":0,"init":2},{"ty":0,"init":3},{"name":"b","ty":0,"init":4}]"#;
    match read_text::<Arena<Constant>>(alloc, text) {
        Some(Ok(found)) => found.len() == 5,
        Some(Err(cause)) => cause == Cause::Memory,
        None => true,
    }
}

/// Returns whether a global variable with a name is read, or allocation failed.
fn variable_is_read_or_refused(alloc: Global) -> bool {
    let text = r#"{"name":"v","space":"Private","ty":0,"memory_decorations":""}"#;
    match read_text::<GlobalVariable>(alloc, text) {
        Some(Ok(found)) => found.name.is_some(),
        Some(Err(cause)) => cause == Cause::Memory,
        None => true,
    }
}

/// Returns whether a node with the rule of a tool is read, or allocation failed.
fn node_is_read_or_refused(alloc: Global) -> bool {
    let text =
        r#"{"inner":{"new_severity":"Info","triggering_rule":{"User":["tool","rule"]}},"parent":1}"#;
    match read_text::<DiagnosticFilterNode>(alloc, text) {
        Some(Ok(found)) => found.parent.is_some(),
        Some(Err(cause)) => cause == Cause::Memory,
        None => true,
    }
}

/// Returns whether doc comments on two types are read, or allocation failed.
fn comments_are_read_or_refused(alloc: Global) -> bool {
    let text =
        r#"{"types":{"0":["a","b"],"1":["c"]},"struct_members":{},"entry_points":{"0":["d"]},"functions":{},"constants":{},"global_variables":{},"module":["e"]}"#;
    match read_text::<DocComments>(alloc, text) {
        Some(Ok(found)) => found.types.len() == 2,
        Some(Err(cause)) => cause == Cause::Memory,
        None => true,
    }
}

/// A block whose reading allocates lists of statements, of cases and of arguments.
const NESTED: &'static str =
    r#"[{"If":{"condition":0,"accept":[{"Call":{"function":0,"arguments":[1,2],"result":null}}],"reject":["Kill"]}},{"Switch":{"selector":0,"cases":[{"value":{"U32":1},"body":["Break"],"fall_through":false},{"value":"Default","body":[],"fall_through":false}]}},{"Loop":{"body":["Break"],"continuing":[{"Block":["Kill"]}],"break_if":null}},"Kill","Break"]"#;

/// Returns whether a block of five statements is read, or allocation failed.
fn is_block_read_or_refused(alloc: Global) -> bool {
    match read_text::<Block>(alloc, NESTED) {
        Some(Ok(block)) => block.len() == 5,
        Some(Err(cause)) => cause == Cause::Memory,
        None => true,
    }
}

/// A function with lists of each kind.
const LISTS: &'static str =
    r#"{"name":"everything","arguments":[{"name":"x","ty":0,"binding":null}],"result":null,"local_variables":[{"name":"l","ty":0,"init":null}],"expressions":[{"Compose":{"ty":1,"components":[0,1]}}],"named_expressions":{"0":"zero"},"body":["Kill"],"diagnostic_filter_leaf":null}"#;

/// Returns whether a function is read, or allocation failed.
fn is_function_read_or_refused(alloc: Global) -> bool {
    match read_text::<Function>(alloc, LISTS) {
        Some(Ok(function)) => function.body.len() == 1 && function.expressions.len() == 1,
        Some(Err(cause)) => cause == Cause::Memory,
        None => true,
    }
}

/// Returns whether a call with nine arguments is read, or allocation failed.
fn is_call_read_or_refused(alloc: Global) -> bool {
    let text = r#"{"Call":{"function":1,"arguments":[0,1,2,3,4,5,6,7,8],"result":null}}"#;
    match read_text::<Statement>(alloc, text) {
        Some(Ok(Statement::Call { arguments, .. })) => arguments.len() == 9,
        Some(Ok(_)) => false,
        Some(Err(cause)) => cause == Cause::Memory,
        None => true,
    }
}

/// A module with a function whose body has two statements, as naga writes it.
const BODY: &'static str =
    r#"{"types":[],"special_types":{"ray_desc":null,"ray_intersection":null,"ray_vertex_return":null,"external_texture_params":null,"external_texture_transfer_function":null,"predeclared_types":{}},"constants":[],"overrides":[],"global_variables":[],"global_expressions":[],"functions":[{"name":null,"arguments":[],"result":null,"local_variables":[],"expressions":[],"named_expressions":{},"body":[{"Call":{"function":0,"arguments":[1,2],"result":null}},{"Block":["Kill"]}],"diagnostic_filter_leaf":null}],"entry_points":[],"diagnostic_filters":[],"diagnostic_filter_leaf":null,"doc_comments":null}"#;

/// Returns the number of statements in the body of the first function of a module.
fn body_length(module: &Module) -> Option<usize> {
    match module.functions.try_get(KindHandle::at(0)) {
        Ok(function) => Some(function.body.len()),
        Err(_) => None,
    }
}

/// Returns whether a body of two statements is taken, or nothing is, as where an allocation fails.
fn body_is_taken_or_nothing(alloc: Global) -> bool {
    match take_module(alloc, BODY) {
        Some(module) => body_length(&module) == Some(2),
        None => true,
    }
}

/// Returns whether a module is read, or allocation failed.
fn module_is_read_or_refused(alloc: Global) -> bool {
    match read_module(alloc, DOUBLING) {
        Ok(module) => is_doubling(&module),
        Err(error) => error == ReadError::Memory,
    }
}

#[test]
fn components_are_read_or_refused(rt: HostRuntime) {
    assert!(rt; is_read_or_refused(rt.alloc()));
}

#[test]
fn types_and_constants_are_read_or_refused(rt: HostRuntime) {
    let alloc = rt.alloc();
    assert!(rt; types_are_read_or_refused(alloc));
    assert!(rt; constants_are_read_or_refused(alloc));
}

#[test]
fn variables_and_nodes_are_read_or_refused(rt: HostRuntime) {
    let alloc = rt.alloc();
    assert!(rt; variable_is_read_or_refused(alloc));
    assert!(rt; node_is_read_or_refused(alloc));
    assert!(rt; comments_are_read_or_refused(alloc));
}

#[test]
fn calls_are_read_or_refused(rt: HostRuntime) {
    assert!(rt; is_call_read_or_refused(rt.alloc()));
}

#[test]
fn nested_blocks_are_read_or_refused(rt: HostRuntime) {
    assert!(rt; is_block_read_or_refused(rt.alloc()));
}

#[test]
fn bodies_are_taken_unless_an_allocation_fails(rt: HostRuntime) {
    assert!(rt; body_is_taken_or_nothing(rt.alloc()));
}

#[test]
fn functions_are_read_or_refused(rt: HostRuntime) {
    assert!(rt; is_function_read_or_refused(rt.alloc()));
}

#[test]
fn modules_are_read_or_refused(rt: HostRuntime) {
    assert!(rt; module_is_read_or_refused(rt.alloc()));
}
