//! Tests in which an allocation may fail. `tests/refused_growths` lets each allocation fail once.
use super::*;
use naga_ir::Statement;

/// A module of a function and an entry point that have the same body, a block of one statement, and two expressions.
const NESTED: &str =
    r#"{"types":[],"special_types":{"predeclared_types":{}},"constants":[],"overrides":[],"global_variables":[],"global_expressions":[],"functions":[{"name":null,"arguments":[],"result":null,"local_variables":[],"expressions":[{"Literal":{"Bool":true}},{"Literal":{"Bool":false}}],"named_expressions":{},"body":[{"Block":[{"ControlBarrier":""}]}],"diagnostic_filter_leaf":null}],"entry_points":[{"name":"","stage":"Compute","early_depth_test":null,"workgroup_size":[1,1,1],"workgroup_size_overrides":null,"function":{"name":null,"arguments":[],"result":null,"local_variables":[],"expressions":[{"Literal":{"Bool":true}},{"Literal":{"Bool":false}}],"named_expressions":{},"body":[{"Block":[{"ControlBarrier":""}]}],"diagnostic_filter_leaf":null},"mesh_info":null,"task_payload":null,"incoming_ray_payload":null}],"diagnostic_filters":[],"diagnostic_filter_leaf":null,"doc_comments":null}"#;

/// A module of a function that stores at an index of an array in a buffer, which is its argument.
const BUFFER: &str =
    r#"{"types":[{"name":null,"inner":{"Scalar":{"kind":"Uint","width":4}}},{"name":null,"inner":{"Array":{"base":0,"size":"Dynamic","stride":4}}}],"special_types":{"ray_desc":null,"ray_intersection":null,"ray_vertex_return":null,"external_texture_params":null,"external_texture_transfer_function":null,"predeclared_types":{}},"constants":[],"overrides":[],"global_variables":[{"name":null,"space":{"Storage":{"access":"LOAD | STORE"}},"binding":{"group":0,"binding":0},"ty":1,"init":null,"memory_decorations":""}],"global_expressions":[],"functions":[{"name":"buffer","arguments":[{"name":null,"ty":0,"binding":null}],"result":null,"local_variables":[],"expressions":[{"GlobalVariable":0},{"FunctionArgument":0},{"Access":{"base":0,"index":1}},{"Literal":{"U32":7}}],"named_expressions":{},"body":[{"Emit":{"start":2,"end":3}},{"Store":{"pointer":2,"value":3}},{"Return":{"value":null}}],"diagnostic_filter_leaf":null}],"entry_points":[],"diagnostic_filters":[],"diagnostic_filter_leaf":null,"doc_comments":null}"#;

const PASSES: &[Pass] = &[
    CULL,
    CLOSE,
    Pass::Compact(KeepUnused::Yes),
    Pass::Close(Rule::Old),
];

/// Returns the numbers of functions, of expressions of the entry point, and of statements of the block in its body.
fn seen(module: &Module) -> Option<(usize, usize, usize)> {
    let function = &module.entry_points.first()?.function;
    match function.body.get(0)? {
        Statement::Block(block) => {
            Some((
                module.functions.len(),
                function.expressions.len(),
                block.len(),
            ))
        }
        _ => None,
    }
}

/// Returns whether a module is as it must be after an allocation failed in the pass at a position.
fn is_left(module: &Module, position: usize) -> bool {
    match position {
        1 => seen(module) == Some((1, 2, 1)),
        2 => module.functions.is_empty() && module.entry_points.is_empty(),
        _ => false,
    }
}

/// Returns whether passes are run, or leave what they must leave if an allocation fails.
fn runs_or_leaves(alloc: Global) -> bool {
    let mut module = match read_module(alloc, NESTED) {
        Ok(module) => module,
        Err(error) => return error == ReadError::Memory,
    };
    match run_passes(alloc, &mut module, PASSES) {
        Ok(()) => seen(&module) == Some((1, 0, 2)),
        Err(error) => is_left(&module, error.position),
    }
}

/// Returns whether a function is restricted to this number of expressions, or is left with four if an allocation fails.
fn restricts_or_leaves(alloc: Global, text: &str, expressions: usize) -> bool {
    let mut module = match read_module(alloc, text) {
        Ok(module) => module,
        Err(error) => return error == ReadError::Memory,
    };
    match run_passes(alloc, &mut module, &[RESTRICT]) {
        Ok(()) => sizes(&module, 0) == Some((expressions, 3)),
        Err(error) => error.fault == PassFault::Memory && sizes(&module, 0) == Some((4, 3)),
    }
}

#[test]
fn a_refused_allocation_leaves_what_its_pass_leaves(rt: HostRuntime) {
    assert!(rt; runs_or_leaves(rt.alloc()));
    assert!(rt; restricts_or_leaves(rt.alloc(), PLACE, 6));
    assert!(rt; restricts_or_leaves(rt.alloc(), BUFFER, 8));
    assert!(rt; restricts_the_first(rt.alloc()) != Some(false));
    for row in STOPPED {
        assert!(rt; is_stopped(rt.alloc(), row), "{}", row.2);
    }
}

#[test]
fn names_are_read_or_memory_is_out(rt: HostRuntime) {
    assert!(rt; is_read(rt.alloc(), PASS_NAMES, &Pass::ALL) != Some(false));
    assert!(rt; is_unknown(rt.alloc(), "cull, shrink", "shrink"));
}
