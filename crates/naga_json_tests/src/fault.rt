//! Tests of the faults of texts that are not JSON, on texts of several lines.
mod refusals;

use json_fault::{TextFault, find_text_fault};
use std::alloc::Global;

/// Returns whether the message for a fault is `want`.
fn is_shown(alloc: Global, fault: TextFault, want: &str) -> bool {
    format!(in alloc; "{fault}").is_ok_and(|text| text.as_str() == want)
}

/// Returns whether a text has the fault with this message.
fn has_fault(alloc: Global, text: &str, want: &str) -> bool {
    match find_text_fault(alloc, text) {
        Ok(Some(fault)) => is_shown(alloc, fault, want),
        _ => false,
    }
}

/// Returns whether a text has no fault.
fn has_none(alloc: Global, text: &str) -> bool {
    match find_text_fault(alloc, text) {
        Ok(None) => true,
        _ => false,
    }
}

#[test]
fn a_newline_in_a_string_is_a_fault(rt: HostRuntime) {
    assert!(rt;
        has_fault(
            rt.alloc(),
            "\"a\nb\"",
            "invalid JSON at byte 2: a control character in a string is not escaped",
        )
    );
}

#[test]
fn a_newline_after_a_value_is_none(rt: HostRuntime) {
    assert!(rt; has_none(rt.alloc(), "\t{ \"a\" : 1 , \"a\" : 2 }\r\n"));
}
