//! Tests of passes. `tests/rows/tables/naga_passes` and `tests/rows/naga_opt` have what passes make of modules, and
//! lists of names.
mod refusals;

use naga_compact::KeepUnused;
use naga_ir::Module;
use naga_json_read::{ReadError, read_module};
use naga_passes::{
    NamesError, PASS_NAMES, Pass, PassError, PassFault, cull_module, passes_from_names, run_pass,
    run_passes,
};
use naga_proc::Rule;
use std::alloc::Global;

/// A module of a function that stores at an index of an array of four elements, which is its argument.
const PLACE: &str =
    r#"{"types":[{"name":null,"inner":{"Scalar":{"kind":"Uint","width":4}}},{"name":null,"inner":{"Array":{"base":0,"size":{"Constant":4},"stride":4}}}],"special_types":{"ray_desc":null,"ray_intersection":null,"ray_vertex_return":null,"external_texture_params":null,"external_texture_transfer_function":null,"predeclared_types":{}},"constants":[],"overrides":[],"global_variables":[],"global_expressions":[],"functions":[{"name":"place","arguments":[{"name":null,"ty":0,"binding":null}],"result":null,"local_variables":[{"name":null,"ty":1,"init":null}],"expressions":[{"LocalVariable":0},{"FunctionArgument":0},{"Access":{"base":0,"index":1}},{"Literal":{"U32":7}}],"named_expressions":{},"body":[{"Emit":{"start":2,"end":3}},{"Store":{"pointer":2,"value":3}},{"Return":{"value":null}}],"diagnostic_filter_leaf":null}],"entry_points":[],"diagnostic_filters":[],"diagnostic_filter_leaf":null,"doc_comments":null}"#;

/// A module of the first function, and of one that stores at an index that is past the end of the array.
const PAST: &str =
    r#"{"types":[{"name":null,"inner":{"Scalar":{"kind":"Uint","width":4}}},{"name":null,"inner":{"Array":{"base":0,"size":{"Constant":4},"stride":4}}}],"special_types":{"ray_desc":null,"ray_intersection":null,"ray_vertex_return":null,"external_texture_params":null,"external_texture_transfer_function":null,"predeclared_types":{}},"constants":[],"overrides":[],"global_variables":[],"global_expressions":[],"functions":[{"name":"place","arguments":[{"name":null,"ty":0,"binding":null}],"result":null,"local_variables":[{"name":null,"ty":1,"init":null}],"expressions":[{"LocalVariable":0},{"FunctionArgument":0},{"Access":{"base":0,"index":1}},{"Literal":{"U32":7}}],"named_expressions":{},"body":[{"Emit":{"start":2,"end":3}},{"Store":{"pointer":2,"value":3}},{"Return":{"value":null}}],"diagnostic_filter_leaf":null},{"name":"past","arguments":[{"name":null,"ty":0,"binding":null}],"result":null,"local_variables":[{"name":null,"ty":1,"init":null}],"expressions":[{"LocalVariable":0},{"Literal":{"U32":7}},{"Access":{"base":0,"index":1}}],"named_expressions":{},"body":[{"Emit":{"start":2,"end":3}},{"Store":{"pointer":2,"value":1}},{"Return":{"value":null}}],"diagnostic_filter_leaf":null}],"entry_points":[],"diagnostic_filters":[],"diagnostic_filter_leaf":null,"doc_comments":null}"#;

/// A module of a function that stores at an index without an `Emit` of the access.
const UNEMITTED: &str =
    r#"{"types":[{"name":null,"inner":{"Scalar":{"kind":"Uint","width":4}}},{"name":null,"inner":{"Array":{"base":0,"size":{"Constant":4},"stride":4}}}],"special_types":{"ray_desc":null,"ray_intersection":null,"ray_vertex_return":null,"external_texture_params":null,"external_texture_transfer_function":null,"predeclared_types":{}},"constants":[],"overrides":[],"global_variables":[],"global_expressions":[],"functions":[{"name":"place","arguments":[{"name":null,"ty":0,"binding":null}],"result":null,"local_variables":[{"name":null,"ty":1,"init":null}],"expressions":[{"LocalVariable":0},{"FunctionArgument":0},{"Access":{"base":0,"index":1}},{"Literal":{"U32":7}}],"named_expressions":{},"body":[{"Store":{"pointer":2,"value":3}},{"Return":{"value":null}}],"diagnostic_filter_leaf":null}],"entry_points":[],"diagnostic_filters":[],"diagnostic_filter_leaf":null,"doc_comments":null}"#;

/// A module of a function that stores past the end of an array, behind a return.
const DEAD: &str =
    r#"{"types":[{"name":null,"inner":{"Scalar":{"kind":"Uint","width":4}}},{"name":null,"inner":{"Array":{"base":0,"size":{"Constant":4},"stride":4}}}],"special_types":{"ray_desc":null,"ray_intersection":null,"ray_vertex_return":null,"external_texture_params":null,"external_texture_transfer_function":null,"predeclared_types":{}},"constants":[],"overrides":[],"global_variables":[],"global_expressions":[],"functions":[{"name":"past","arguments":[{"name":null,"ty":0,"binding":null}],"result":null,"local_variables":[{"name":null,"ty":1,"init":null}],"expressions":[{"LocalVariable":0},{"Literal":{"U32":7}},{"Access":{"base":0,"index":1}}],"named_expressions":{},"body":[{"Return":{"value":null}},{"Emit":{"start":2,"end":3}},{"Store":{"pointer":2,"value":1}},{"Return":{"value":null}}],"diagnostic_filter_leaf":null}],"entry_points":[],"diagnostic_filters":[],"diagnostic_filter_leaf":null,"doc_comments":null}"#;

const CULL: Pass = Pass::Cull;

const CLOSE: Pass = Pass::Close(Rule::New);

const RESTRICT: Pass = Pass::Restrict;

/// Returns whether a text lists these passes, or `None` if an allocation fails.
fn is_read(alloc: Global, text: &str, listed: &[Pass]) -> Option<bool> {
    match passes_from_names(alloc, text) {
        Ok(passes) => Some(passes.as_slice() == listed),
        Err(NamesError::Memory) => None,
        Err(_) => Some(false),
    }
}

/// Returns whether this is the first name in a text that is not that of a pass, or an allocation fails.
fn is_unknown(alloc: Global, text: &str, name: &str) -> bool {
    match passes_from_names(alloc, text) {
        Ok(_) => false,
        Err(NamesError::Memory) => true,
        Err(NamesError::Unknown(unknown)) => unknown.as_str() == name,
    }
}

#[test]
fn names_and_passes_belong_together(rt: HostRuntime) {
    let keep = Pass::Compact(KeepUnused::Yes);
    assert!(rt; keep.name() == "compact-keep-unused");
    assert!(rt; Pass::from_name("compact-keep-unused") == Some(keep));
    // white space is part of a name, but not of one in a list
    assert!(rt; Pass::from_name("cull ").is_none());
    assert!(rt; is_read(rt.alloc(), "cull , close", &[CULL, CLOSE]) == Some(true));
    assert!(rt; is_read(rt.alloc(), PASS_NAMES, &Pass::ALL) == Some(true));
    assert!(rt; is_unknown(rt.alloc(), "cull, shrink", "shrink"));
}

/// Returns the numbers of expressions and of statements of the function at an index, or `None` if there is none.
fn sizes(module: &Module, index: usize) -> Option<(usize, usize)> {
    let function = module.functions.as_slice().get(index)?;
    Some((function.expressions.len(), function.body.len()))
}

/// Returns whether what follows the return of a function is culled, by itself or as a pass.
fn is_culled(alloc: Global, as_pass: bool) -> bool {
    let Ok(mut module) = read_module(alloc, DEAD) else {
        return false;
    };
    if !as_pass {
        cull_module(&mut module);
    } else if run_pass(alloc, &mut module, CULL).is_err() {
        return false;
    }
    sizes(&module, 0) == Some((3, 1))
}

#[test]
fn each_body_is_culled(rt: HostRuntime) {
    assert!(rt; is_culled(rt.alloc(), false));
    assert!(rt; is_culled(rt.alloc(), true));
}

/// Passes on a module, and what is said of the one that stops.
type Stopped = (&'static [Pass], &'static str, &'static str);

/// Passes that stop. The program does not say at which position.
const STOPPED: &[Stopped] = &[
    (
        &[RESTRICT],
        PAST,
        "pass 0: function 1: expression 2 has the index 7, which may be out of bounds, and cannot be clamped",
    ),
    (
        &[CULL, RESTRICT, CLOSE],
        PAST,
        "pass 1: function 1: expression 2 has the index 7, which may be out of bounds, and cannot be clamped",
    ),
    (
        &[RESTRICT],
        UNEMITTED,
        "pass 0: function 0: statement 0: expression 2 is used and may not have been evaluated",
    ),
    (
        &[CLOSE, CLOSE, RESTRICT],
        UNEMITTED,
        "pass 2: function 0: statement 0: expression 2 is used and may not have been evaluated",
    ),
];

/// Returns whether an error is the lack of memory, or has this message.
fn says(alloc: Global, error: &PassError, message: &str) -> bool {
    match format!(in alloc; "{error}") {
        Ok(shown) => error.fault == PassFault::Memory || shown.as_str() == message,
        Err(_) => true,
    }
}

/// Returns whether passes stop with the message of a row, or for lack of memory.
fn is_stopped(alloc: Global, row: &Stopped) -> bool {
    let mut module = match read_module(alloc, row.1) {
        Ok(module) => module,
        Err(error) => return error == ReadError::Memory,
    };
    match run_passes(alloc, &mut module, row.0) {
        Ok(()) => false,
        Err(error) => says(alloc, &error, row.2),
    }
}

/// Returns whether the first function is restricted, and the one whose access cannot be clamped is not. Returns `None`
/// if an allocation fails.
fn restricts_the_first(alloc: Global) -> Option<bool> {
    let Ok(mut module) = read_module(alloc, PAST) else {
        return None;
    };
    match run_passes(alloc, &mut module, &[RESTRICT, CULL]) {
        Ok(()) => Some(false),
        Err(error) if error.fault == PassFault::Memory => None,
        Err(_) => Some(sizes(&module, 0) == Some((6, 3)) && sizes(&module, 1) == Some((3, 3))),
    }
}

#[test]
fn what_cannot_be_clamped_is_named(rt: HostRuntime) {
    for row in STOPPED {
        assert!(rt; is_stopped(rt.alloc(), row), "{}", row.2);
    }
    assert!(rt; restricts_the_first(rt.alloc()) == Some(true));
}
