//! Tests in which an allocation may fail. `tests/refused_growths` lets each allocation fail once.
use json_fault::find_text_fault;
use std::alloc::Global;

/// A text that is not JSON, and the message for its fault.
type Row = (&'static str, &'static str);

/// Texts that are not JSON.
const FAULTS: &[Row] = &[
    (
        "",
        "invalid JSON at byte 0: the text ends, expected a value",
    ),
    ("[1}", "invalid JSON at byte 2: expected a comma or \"]\""),
    (
        "{\"a\":[]],\"b\":1}",
        "invalid JSON at byte 7: expected a comma or \"}\"",
    ),
    (
        "\"\\ud800x\"",
        "invalid JSON at byte 7: expected the second half of a surrogate pair",
    ),
];

/// Returns whether a row's text has the fault with the message of the row, or an allocation fails.
fn is_found(alloc: Global, row: &Row) -> bool {
    match find_text_fault(alloc, row.0) {
        Ok(Some(fault)) => match format!(in alloc; "{fault}") {
            Ok(text) => text.as_str() == row.1,
            Err(_) => true,
        },
        Ok(None) => false,
        Err(_) => true,
    }
}

/// Returns whether the fault of each row's text is found, or an allocation fails.
fn are_found(alloc: Global) -> bool {
    for row in FAULTS {
        if !is_found(alloc, row) {
            return false;
        }
    }
    true
}

#[test]
fn faults_are_found_unless_an_allocation_fails(rt: HostRuntime) {
    assert!(rt; are_found(rt.alloc()));
}
