//! Tests in which an allocation may fail. `tests/refused_growths` lets each allocation fail once.
use naga_explain::message_of;
use naga_json_read::{ReadError, read_module};
use std::alloc::Global;

/// A text, and the message for it.
type Row = (&'static str, &'static str);

/// Texts that are no module: one that is not JSON, two whose JSON is no module, one with a type twice, and one with a
/// handle that is not in its arena.
const ROWS: &[Row] = &[
    (
        "[1,]",
        "invalid JSON at byte 3, line 1, column 4: expected a value",
    ),
    ("{\"types\":[3]}", "types[0]: expected an object"),
    (
        "{\"functions\":[{\"other\":0}]}",
        "functions[0]: unknown field \"other\", expected name, arguments, result, local_variables, expressions, named_expressions, body or diagnostic_filter_leaf",
    ),
    (
        r#"{"types":[{"inner":{"Sampler":{"comparison":true}}},{"inner":{"Sampler":{"comparison":true}}}],"special_types":{"predeclared_types":{}},"constants":[],"overrides":[],"global_variables":[],"global_expressions":[],"functions":[],"entry_points":[],"diagnostic_filters":[]}"#,
        "types[1]: the same type twice",
    ),
    (
        r#"{"types":[],"special_types":{"predeclared_types":{}},"constants":[{"name":"FACTOR","ty":7,"init":0}],"overrides":[],"global_variables":[],"global_expressions":[],"functions":[],"entry_points":[],"diagnostic_filters":[]}"#,
        "constant 0 \"FACTOR\": type 7 is not in its arena",
    ),
];

/// Returns whether a text has this message, or an allocation fails.
fn is_message(alloc: Global, text: &str, want: &str) -> bool {
    let Err(error) = read_module(alloc, text) else {
        return false;
    };
    if error == ReadError::Memory {
        return true;
    }
    match message_of(alloc, text, 0, error) {
        Ok(message) => message.as_str() == want,
        Err(_) => true,
    }
}

/// Returns whether each text has its message, or an allocation fails.
fn have_messages(alloc: Global) -> bool {
    for row in ROWS {
        if !is_message(alloc, row.0, row.1) {
            return false;
        }
    }
    true
}

#[test]
fn messages_are_shown_unless_an_allocation_fails(rt: HostRuntime) {
    assert!(rt; have_messages(rt.alloc()));
}
