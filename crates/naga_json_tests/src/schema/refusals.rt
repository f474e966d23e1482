//! Tests in which an allocation may fail. `tests/refused_growths` lets each allocation fail once.
use json::{Scratch, Value};
use naga_schema::{Fault, TypeName, find_fault};
use std::alloc::Global;

/// A text with a mistake, and the message for its fault.
type Row = (&'static str, &'static str);

/// Modules with a mistake.
const MODULES: &[Row] = &[
    ("{}", "missing field \"types\""),
    (
        "{\"types\":[],\"special_types\":{\"predeclared_types\":{}},\"constants\":[],\"overrides\":[],\"global_variables\":[],\"global_expressions\":[],\"functions\":[{\"arguments\":[],\"local_variables\":[],\"expressions\":[{\"Literal\":{\"Bool\":true}},{\"Literal\":{\"Bool\":true}},{\"Binary\":{\"op\":\"Nand\",\"left\":0,\"right\":1}}],\"named_expressions\":{},\"body\":[]}],\"entry_points\":[],\"diagnostic_filters\":[]}",
        "functions[0].expressions[2].Binary.op: unknown variant \"Nand\"",
    ),
    (
        "{\"types\":[],\"special_types\":{\"predeclared_types\":{\"a\":0}},\"constants\":[],\"overrides\":[],\"global_variables\":[],\"global_expressions\":[],\"functions\":[],\"entry_points\":[],\"diagnostic_filters\":[]}",
        "special_types.predeclared_types: unknown field \"a\"",
    ),
];

/// Returns whether the message for a fault is `want`, or an allocation fails.
fn is_shown(alloc: Global, fault: &Fault<'_>, want: &str) -> bool {
    match format!(in alloc; "{fault}") {
        Ok(text) => text.as_str() == want,
        Err(_) => true,
    }
}

/// Returns whether a row's text has the fault with the message of the row, or an allocation fails.
fn is_found(alloc: Global, row: &Row) -> bool {
    let mut scratch = Scratch::new(alloc);
    let Ok(value) = Value::parse(alloc, row.0, &mut scratch) else {
        return true;
    };
    match find_fault(alloc, &value, TypeName::Module) {
        Ok(Some(fault)) => is_shown(alloc, &fault, row.1),
        Ok(None) => false,
        Err(_) => true,
    }
}

/// Returns whether the fault of each row's text is found, or an allocation fails.
fn are_found(alloc: Global) -> bool {
    for row in MODULES {
        if !is_found(alloc, row) {
            return false;
        }
    }
    true
}

#[test]
fn faults_are_found_unless_an_allocation_fails(rt: HostRuntime) {
    assert!(rt; are_found(rt.alloc()));
}
