//! Tests of the search for faults: in a part of a module, and how the lengths of lists are named.
mod refusals;

use json::{Scratch, Value};
use naga_schema::{Fault, Length, Mismatch, TypeName, find_fault};
use std::alloc::Global;

/// Returns whether the message for a fault is `want`.
fn is_shown(alloc: Global, fault: &Fault<'_>, want: &str) -> bool {
    format!(in alloc; "{fault}").is_ok_and(|text| text.as_str() == want)
}

/// Returns whether a text has, as an expression, the fault with this message.
fn has_fault(alloc: Global, text: &str, want: &str) -> bool {
    let mut scratch = Scratch::new(alloc);
    let Ok(value) = Value::parse(alloc, text, &mut scratch) else {
        return false;
    };
    match find_fault(alloc, &value, TypeName::Expression) {
        Ok(Some(fault)) => is_shown(alloc, &fault, want),
        _ => false,
    }
}

/// Returns whether a text has no fault as an expression.
fn has_none(alloc: Global, text: &str) -> bool {
    let mut scratch = Scratch::new(alloc);
    let Ok(value) = Value::parse(alloc, text, &mut scratch) else {
        return false;
    };
    match find_fault(alloc, &value, TypeName::Expression) {
        Ok(None) => true,
        _ => false,
    }
}

/// Returns whether the message for a list of another length is `want`.
fn is_shown_length(alloc: Global, length: Length, want: &str) -> bool {
    let cause = Mismatch::List(length);
    format!(in alloc; "{cause}").is_ok_and(|text| text.as_str() == want)
}

#[test]
fn faults_of_expressions(rt: HostRuntime) {
    let alloc = rt.alloc();
    let nand = r#"{"Binary":{"op":"Nand","left":0,"right":1}}"#;
    assert!(rt; has_fault(alloc, nand, "Binary.op: unknown variant \"Nand\""));
    assert!(rt; has_none(alloc, r#"{"Binary":{"op":"Add","left":0,"right":1}}"#));
}

#[test]
fn lengths_are_named(rt: HostRuntime) {
    assert!(rt; is_shown_length(rt.alloc(), Length::Any, "expected a list"));
    assert!(rt;
        is_shown_length(
            rt.alloc(),
            Length::AtMost(7),
            "expected a list of at most 7 items"
        )
    );
    assert!(rt; is_shown_length(rt.alloc(), Length::Exactly(3), "expected a list of 3 items"));
}
