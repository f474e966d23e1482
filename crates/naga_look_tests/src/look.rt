//! Tests of graphs, of reports, and of what passes do in numbers. `tests/rows/naga_opt` has those of modules.
mod refusals;

use crate::compared::{GRAPH, NEW, OLD, SMALL};
use naga_compact::KeepUnused;
use naga_fixtures::module_of;
use naga_ir::Module;
use naga_json_read::read_module;
use naga_look::{
    Account, Contents, Detail, Extent, Format, PassCounts, TransformError, Transformed, View,
    counts_text, fault_count, findings, findings_json, module_dot, module_dot_compared,
    run_counted, transform_json,
};
use naga_passes::{Pass, PassFault};
use naga_proc::Rule;
use std::alloc::{AllocError, Global};

const CULL: Pass = Pass::Cull;

const CLOSE: Pass = Pass::Close(Rule::New);

const COMPACT: Pass = Pass::Compact(KeepUnused::No);

/// The graph of [`SMALL`].
const SMALL_GRAPH: &str = r#"digraph module {
    ranksep=0.3
    nodesep=0.15
    node [shape=box, height=0.3, margin="0.1,0.02"]
    subgraph cluster_function0 {
        label="function 0 \"f\""
        function0_body_0 [style=rounded, label="break"]
    }
}
"#;

/// Returns whether a text was made, and is the expected one, or `None` if an allocation failed.
fn is(made: Result<String, AllocError>, expected: &str) -> Option<bool> {
    match made {
        Ok(text) => Some(text.as_str() == expected),
        Err(AllocError) => None,
    }
}

/// Returns whether a module is [`SMALL`] by its graph, also if it is compared with itself. Returns `None` if an
/// allocation failed.
fn is_small(alloc: Global, module: &Module) -> Option<bool> {
    let alone = is(module_dot(alloc, module), SMALL_GRAPH)?;
    let compared = is(module_dot_compared(alloc, module, module), SMALL_GRAPH)?;
    Some(alone && compared)
}

/// Returns whether [`SMALL`] has its graph, or `None` if an allocation failed.
fn is_drawn(alloc: Global) -> Option<bool> {
    let module = module_of(alloc, SMALL)?;
    is_small(alloc, &module)
}

/// Returns whether [`NEW`] has its graph if it is compared with an old module, or `None` if an allocation failed.
fn is_marked(alloc: Global, old: &Module) -> Option<bool> {
    let new = module_of(alloc, NEW)?;
    is(module_dot_compared(alloc, old, &new), GRAPH)
}

/// Returns whether [`NEW`] has its graph if it is compared with [`OLD`], or `None` if an allocation failed.
fn is_compared(alloc: Global) -> Option<bool> {
    let old = module_of(alloc, OLD)?;
    is_marked(alloc, &old)
}

#[test]
fn modules_are_drawn(rt: HostRuntime) {
    assert!(rt; is_drawn(rt.alloc()) == Some(true));
    assert!(rt; is_compared(rt.alloc()) == Some(true));
}

/// A module of three functions that nothing calls, two of which return nothing, and an entry point with a statement
/// that is not reached and an expression that is not used. Of its declarations, only the first type is used.
const UNUSED: &str =
    r#"{"types":[{"name":null,"inner":{"Scalar":{"kind":"Float","width":4}}},{"name":null,"inner":{"Scalar":{"kind":"Uint","width":4}}}],"special_types":{"ray_desc":null,"ray_intersection":null,"ray_vertex_return":null,"external_texture_params":null,"external_texture_transfer_function":null,"predeclared_types":{}},"constants":[{"name":null,"ty":1,"init":0}],"overrides":[{"name":"size","id":1,"ty":1,"init":1}],"global_variables":[{"name":"v","space":"Private","binding":null,"ty":1,"init":null,"memory_decorations":""}],"global_expressions":[{"Literal":{"U32":1}},{"Literal":{"U32":2}}],"functions":[{"name":"value","arguments":[],"result":{"ty":0,"binding":null},"local_variables":[],"expressions":[{"Literal":{"F32":1.0}}],"named_expressions":{},"body":[],"diagnostic_filter_leaf":null},{"name":"kill","arguments":[],"result":{"ty":0,"binding":null},"local_variables":[],"expressions":[],"named_expressions":{},"body":["Kill"],"diagnostic_filter_leaf":null},{"name":null,"arguments":[],"result":{"ty":0,"binding":null},"local_variables":[],"expressions":[],"named_expressions":{},"body":[],"diagnostic_filter_leaf":null}],"entry_points":[{"name":"main","stage":"Fragment","early_depth_test":null,"workgroup_size":[0,0,0],"workgroup_size_overrides":null,"function":{"name":"main","arguments":[],"result":{"ty":0,"binding":{"Location":{"location":0,"interpolation":"Perspective","sampling":"Center","blend_src":null,"per_primitive":false}}},"local_variables":[],"expressions":[{"Literal":{"F32":1.0}},{"Literal":{"F32":2.0}}],"named_expressions":{},"body":[{"Return":{"value":0}},"Kill"],"diagnostic_filter_leaf":null},"mesh_info":null,"task_payload":null,"incoming_ray_payload":null}],"diagnostic_filters":[],"diagnostic_filter_leaf":null,"doc_comments":null}"#;

/// The lines on culling, closing and compacting that module.
const UNUSED_LINES: &str =
    "cull: 1 statement removed\nclose: 2 returns inserted\ncompact: 1 type, 1 constant, 1 override, 1 global variable, 2 global expressions, 3 statements, 3 functions, 2 expressions removed\n";

/// The notes on closing it.
const UNUSED_NOTES: &str =
    "note: function 0 \"value\": the function has a result, but an inserted return has no value\nnote: function 2: the function has a result, but an inserted return has no value\n";

/// A module of a function that stores at an index of an array of four elements, which is its argument.
const UNCLAMPED: &str =
    r#"{"types":[{"name":null,"inner":{"Scalar":{"kind":"Uint","width":4}}},{"name":null,"inner":{"Array":{"base":0,"size":{"Constant":4},"stride":4}}}],"special_types":{"ray_desc":null,"ray_intersection":null,"ray_vertex_return":null,"external_texture_params":null,"external_texture_transfer_function":null,"predeclared_types":{}},"constants":[],"overrides":[],"global_variables":[],"global_expressions":[],"functions":[{"name":"place","arguments":[{"name":null,"ty":0,"binding":null}],"result":null,"local_variables":[{"name":null,"ty":1,"init":null}],"expressions":[{"LocalVariable":0},{"FunctionArgument":0},{"Access":{"base":0,"index":1}},{"Literal":{"U32":7}}],"named_expressions":{},"body":[{"Emit":{"start":2,"end":3}},{"Store":{"pointer":2,"value":3}},{"Return":{"value":null}}],"diagnostic_filter_leaf":null}],"entry_points":[],"diagnostic_filters":[],"diagnostic_filter_leaf":null,"doc_comments":null}"#;

/// That module with the index clamped.
const CLAMPED: &str =
    r#"{"types":[{"name":null,"inner":{"Scalar":{"kind":"Uint","width":4}}},{"name":null,"inner":{"Array":{"base":0,"size":{"Constant":4},"stride":4}}}],"special_types":{"ray_desc":null,"ray_intersection":null,"ray_vertex_return":null,"external_texture_params":null,"external_texture_transfer_function":null,"predeclared_types":{}},"constants":[],"overrides":[],"global_variables":[],"global_expressions":[],"functions":[{"name":"place","arguments":[{"name":null,"ty":0,"binding":null}],"result":null,"local_variables":[{"name":null,"ty":1,"init":null}],"expressions":[{"Literal":{"U32":3}},{"LocalVariable":0},{"FunctionArgument":0},{"Math":{"fun":"Min","arg":2,"arg1":0,"arg2":null,"arg3":null}},{"Access":{"base":1,"index":3}},{"Literal":{"U32":7}}],"named_expressions":{},"body":[{"Emit":{"start":3,"end":5}},{"Store":{"pointer":4,"value":5}},{"Return":{"value":null}}],"diagnostic_filter_leaf":null}],"entry_points":[],"diagnostic_filters":[],"diagnostic_filter_leaf":null,"doc_comments":null}"#;

/// The lines on restricting that module twice.
const UNCLAMPED_LINES: &str = "restrict: 2 expressions inserted\nrestrict: nothing\n";

/// A text, the passes that run on it, their lines, and the notes.
type Row = (&'static str, &'static [Pass], &'static str, &'static str);

const ROWS: &[Row] = &[
    (UNUSED, &[CULL, CLOSE, COMPACT], UNUSED_LINES, UNUSED_NOTES),
    (
        UNCLAMPED,
        &[Pass::Restrict, Pass::Restrict],
        UNCLAMPED_LINES,
        "",
    ),
];

/// Returns the lines and the notes of an account of the passes of a row.
fn said_in(detail: Detail, row: &Row) -> (&'static str, &'static str) {
    match detail {
        Detail::Nothing => ("", ""),
        Detail::Notes => ("", row.3),
        Detail::Counts => (row.2, row.3),
    }
}

/// Returns whether an account of the passes of a row says as much as this, or `None` if an allocation failed.
fn is_account(alloc: Global, account: &Account, detail: Detail, row: &Row) -> Option<bool> {
    let (lines, notes) = said_in(detail, row);
    let has_lines = is(counts_text(alloc, account.counts.as_slice()), lines)?;
    Some(has_lines && account.notes.as_str() == notes)
}

/// Returns whether the passes of a row are counted, or `None` if an allocation failed.
fn is_counted(alloc: Global, detail: Detail, row: &Row) -> Option<bool> {
    let Ok(mut module) = read_module(alloc, row.0) else {
        return None;
    };
    match run_counted(alloc, &mut module, row.1, detail) {
        Ok(account) => is_account(alloc, &account, detail, row),
        Err(error) if error.fault == PassFault::Memory => None,
        Err(_) => Some(false),
    }
}

/// Returns whether JSON was made with the account of a row, or `None` if an allocation failed.
fn has_account(alloc: Global, made: &Transformed, detail: Detail, row: &Row) -> Option<bool> {
    let has_account = is_account(alloc, &made.account, detail, row)?;
    Some(has_account && made.shown.text.as_str().ends_with("}"))
}

/// Returns whether transforming the text of a row gives JSON and the account, or `None` if an allocation failed.
fn is_transformed(alloc: Global, detail: Detail, row: &Row) -> Option<bool> {
    match transform_json(alloc, row.0, row.1, detail, None) {
        Ok(made) => has_account(alloc, &made, detail, row),
        Err(TransformError::Memory) => None,
        Err(_) => Some(false),
    }
}

/// Returns whether what passes did is said in each detail, or `None` if an allocation failed.
fn is_said(alloc: Global, row: &Row) -> Option<bool> {
    for detail in [Detail::Nothing, Detail::Notes, Detail::Counts] {
        let is_counted = is_counted(alloc, detail, row)?;
        let is_transformed = is_transformed(alloc, detail, row)?;
        if !is_counted || !is_transformed {
            return Some(false);
        }
    }
    Some(true)
}

#[test]
fn passes_are_counted(rt: HostRuntime) {
    for row in ROWS {
        assert!(rt; is_said(rt.alloc(), row) == Some(true), "{}", row.2);
    }
}

/// No contents.
const NONE: Contents = Contents {
    statements: 0,
    types: 0,
    constants: 0,
    overrides: 0,
    global_variables: 0,
    global_expressions: 0,
    functions: 0,
    expressions: 0,
};

/// What closing [`UNUSED`] does, in numbers.
const CLOSED: PassCounts = PassCounts {
    pass: CLOSE,
    removed: NONE,
    returns_inserted: 2,
    expressions_inserted: 0,
};

/// Returns whether closing [`UNUSED`] gives JSON and the numbers.
fn is_closed(alloc: Global) -> bool {
    match transform_json(alloc, UNUSED, &[CLOSE], Detail::Counts, None) {
        Ok(made) => {
            made.account.counts.first() == Some(&CLOSED)
                && made.shown.faults == 0
                && made.shown.text.as_str().starts_with("{\"types\":[")
        }
        Err(_) => false,
    }
}

/// Returns whether passes make this text of a module, or `None` if an allocation failed.
fn becomes(
    alloc: Global,
    text: &str,
    passes: &[Pass],
    view: Option<View>,
    expected: &str,
) -> Option<bool> {
    match transform_json(alloc, text, passes, Detail::Nothing, view) {
        Ok(made) => Some(made.shown.text.as_str() == expected && made.shown.faults == 0),
        Err(TransformError::Memory) => None,
        Err(_) => Some(false),
    }
}

/// Returns whether a text that is not JSON is not read, whatever is to be shown.
fn is_unread(alloc: Global, view: Option<View>) -> bool {
    matches!(
        transform_json(alloc, "x", &[CULL], Detail::Notes, view),
        Err(TransformError::Read(_))
    )
}

#[test]
fn texts_are_transformed(rt: HostRuntime) {
    assert!(rt; is_closed(rt.alloc()));
    // Nothing falls off the end of the function.
    assert!(rt; becomes(rt.alloc(), SMALL, &[], Some(View::Dot), SMALL_GRAPH) == Some(true));
    assert!(rt; becomes(rt.alloc(), SMALL, &[CLOSE], Some(View::Dot), SMALL_GRAPH) == Some(true));
    // No pass changes nothing.
    assert!(rt; becomes(rt.alloc(), UNCLAMPED, &[], None, UNCLAMPED) == Some(true));
    assert!(rt; becomes(rt.alloc(), UNCLAMPED, &[Pass::Restrict], None, CLAMPED) == Some(true));
    assert!(rt; is_unread(rt.alloc(), None));
    assert!(rt; is_unread(rt.alloc(), Some(View::Report(Extent::Short, Format::Lines))));
}

/// A module of a function that stores into an element of an array without an `Emit` of the access, and of an entry
/// point that does so by a constant index.
const LACKING: &str =
    r#"{"types":[{"name":null,"inner":{"Scalar":{"kind":"Uint","width":4}}},{"name":null,"inner":{"Array":{"base":0,"size":{"Constant":4},"stride":4}}}],"special_types":{"predeclared_types":{}},"constants":[],"overrides":[],"global_variables":[],"global_expressions":[],"functions":[{"name":"place","arguments":[{"name":null,"ty":0,"binding":null}],"result":null,"local_variables":[{"name":null,"ty":1,"init":null}],"expressions":[{"LocalVariable":0},{"FunctionArgument":0},{"Access":{"base":0,"index":1}},{"Literal":{"U32":7}}],"named_expressions":{},"body":[{"Store":{"pointer":2,"value":3}},{"Return":{"value":null}}],"diagnostic_filter_leaf":null}],"entry_points":[{"name":"main","stage":"Compute","early_depth_test":null,"workgroup_size":[1,1,1],"workgroup_size_overrides":null,"function":{"name":null,"arguments":[],"result":null,"local_variables":[{"name":null,"ty":1,"init":null}],"expressions":[{"LocalVariable":0},{"AccessIndex":{"base":0,"index":1}},{"Literal":{"U32":7}}],"named_expressions":{},"body":[{"Store":{"pointer":1,"value":2}},{"Return":{"value":null}}],"diagnostic_filter_leaf":null},"mesh_info":null,"task_payload":null,"incoming_ray_payload":null}],"diagnostic_filters":[],"diagnostic_filter_leaf":null,"doc_comments":null}"#;

/// The report on that module, which has no fault.
const LACKING_REPORT: &str =
    "no faults\ntypes: 2\nfunctions: 1\nentry points: 1\nstatements: 4\naccesses that may be out of bounds: 1\nan access without its own Emit: function 0 \"place\"\nnote: function 0 \"place\": expression 2 has the index of expression 1, which may be out of bounds";

/// A module with a fault in a constant, in a function and in an entry point.
const FAULTY: &str =
    r#"{"types":[{"name":null,"inner":{"Scalar":{"kind":"Uint","width":4}}},{"name":null,"inner":{"Scalar":{"kind":"Float","width":4}}}],"special_types":{"predeclared_types":{}},"constants":[{"name":"two","ty":1,"init":0}],"overrides":[],"global_variables":[],"global_expressions":[{"Literal":{"U32":2}}],"functions":[{"name":"store","arguments":[],"result":null,"local_variables":[{"name":"v","ty":0,"init":null}],"expressions":[{"LocalVariable":0},{"Literal":{"F32":1.0}}],"named_expressions":{},"body":[{"Block":[{"Store":{"pointer":0,"value":1}}]},{"Return":{"value":null}}],"diagnostic_filter_leaf":null}],"entry_points":[{"name":"main","stage":"Compute","early_depth_test":null,"workgroup_size":[1,1,1],"workgroup_size_overrides":null,"function":{"name":null,"arguments":[],"result":null,"local_variables":[],"expressions":[{"Literal":{"U32":1}}],"named_expressions":{},"body":[{"If":{"condition":0,"accept":[],"reject":[{"Return":{"value":null}}]}},{"Return":{"value":null}}],"diagnostic_filter_leaf":null},"mesh_info":null,"task_payload":null,"incoming_ray_payload":null}],"diagnostic_filters":[],"diagnostic_filter_leaf":null,"doc_comments":null}"#;

/// The report on that module.
const FAULTY_REPORT: &str =
    "constant 0: expression 0 must be of the declared type, type 1, found u32\nfunction 0 \"store\": body[0].block[0]: expression 1 must be of the type behind expression 0, found f32\nentry point 0 \"main\": body[0]: expression 0 must be of the type bool, found u32\ntypes: 2\nfunctions: 1\nentry points: 1\nstatements: 6";

/// What is found in [`LACKING`], none of which is a fault.
const LACKING_FINDINGS: &str =
    r#"[{"kind":"emit","owner":"function","index":0,"name":"place","path":null,"expression":null,"message":"an access without its own Emit"},{"kind":"access","owner":"function","index":0,"name":"place","path":null,"expression":2,"message":"expression 2 has the index of expression 1, which may be out of bounds"}]"#;

/// What is found in [`FAULTY`].
const FAULTY_FINDINGS: &str =
    r#"[{"kind":"fault","owner":"constant","index":0,"name":null,"path":null,"expression":null,"message":"constant 0: expression 0 must be of the declared type, type 1, found u32"},{"kind":"fault","owner":"function","index":0,"name":"store","path":"body[0].block[0]","expression":null,"message":"expression 1 must be of the type behind expression 0, found f32"},{"kind":"fault","owner":"entry point","index":0,"name":"main","path":"body[0]","expression":null,"message":"expression 0 must be of the type bool, found u32"}]"#;

/// A module with a type whose layout does not fit.
const UNEVEN: &str =
    r#"{"types":[{"name":null,"inner":{"Scalar":{"kind":"Uint","width":4}}},{"name":"Uneven","inner":{"Array":{"base":0,"size":{"Constant":2},"stride":2}}}],"special_types":{"predeclared_types":{}},"constants":[],"overrides":[],"global_variables":[],"global_expressions":[],"functions":[],"entry_points":[],"diagnostic_filters":[],"diagnostic_filter_leaf":null,"doc_comments":null}"#;

/// The report on that module, which has no fault.
const UNEVEN_REPORT: &str =
    "no faults\ntypes: 2\nnote: type 1 \"Uneven\": the stride 2 is not a multiple of 4, the alignment of the elements";

/// What is found in [`UNEVEN`].
const UNEVEN_FINDINGS: &str =
    r#"[{"kind":"layout","owner":"type","index":1,"name":"Uneven","path":null,"expression":null,"message":"the stride 2 is not a multiple of 4, the alignment of the elements"}]"#;

/// Returns whether the JSON of what is found in a module is this one, with this number of faults. Returns `None` if an
/// allocation failed.
fn is_found(alloc: Global, text: &str, expected: &str, faults: usize) -> Option<bool> {
    let module = module_of(alloc, text)?;
    let Ok(found) = findings(alloc, &module, Extent::Short) else {
        return None;
    };
    let same = is(findings_json(alloc, &found), expected)?;
    Some(same && fault_count(found.as_slice()) == faults)
}

/// Returns whether the report on a text in a format is this one and a newline, with this number of faults. Returns `None`
/// if an allocation failed.
fn is_reported(
    alloc: Global,
    text: &str,
    format: Format,
    report: &str,
    faults: usize,
) -> Option<bool> {
    let view = Some(View::Report(Extent::Short, format));
    match transform_json(alloc, text, &[], Detail::Nothing, view) {
        Ok(Transformed { shown, .. }) => {
            let same = shown.text.strip_suffix("\n") == Some(report);
            Some(same && shown.faults == faults)
        }
        Err(TransformError::Memory) => None,
        Err(_) => Some(false),
    }
}

/// The message about restricting [`LACKING`].
const LACKING_MESSAGE: &str =
    "restrict: function 0 \"place\": body[0]: expression 2 is used and may not have been evaluated";

/// Returns whether a text cannot be restricted, and the error has this message. Returns `None` if an allocation failed.
fn is_not_restricted(alloc: Global, text: &str, message: &str) -> Option<bool> {
    match transform_json(alloc, text, &[CULL, Pass::Restrict], Detail::Notes, None) {
        Err(TransformError::Restrict(said)) => Some(said.as_str() == message),
        Err(TransformError::Memory) => None,
        _ => Some(false),
    }
}

#[test]
fn what_cannot_be_restricted_is_named(rt: HostRuntime) {
    assert!(rt; is_not_restricted(rt.alloc(), LACKING, LACKING_MESSAGE) == Some(true));
}

#[test]
fn faults_are_reported(rt: HostRuntime) {
    assert!(rt; is_reported(rt.alloc(), LACKING, Format::Lines, LACKING_REPORT, 0) == Some(true));
    assert!(rt; is_reported(rt.alloc(), FAULTY, Format::Lines, FAULTY_REPORT, 3) == Some(true));
    assert!(rt; is_reported(rt.alloc(), FAULTY, Format::Json, FAULTY_FINDINGS, 3) == Some(true));
    assert!(rt; is_reported(rt.alloc(), UNEVEN, Format::Lines, UNEVEN_REPORT, 0) == Some(true));
    assert!(rt; is_reported(rt.alloc(), UNEVEN, Format::Json, UNEVEN_FINDINGS, 0) == Some(true));
}

#[test]
fn findings_are_data(rt: HostRuntime) {
    assert!(rt; is_found(rt.alloc(), LACKING, LACKING_FINDINGS, 0) == Some(true));
    assert!(rt; is_found(rt.alloc(), FAULTY, FAULTY_FINDINGS, 3) == Some(true));
}
