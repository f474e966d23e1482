//! Tests of calls in which any allocation may fail. Each call must either succeed as usual, or fail.
use super::literals::{LITERALS, is_written_as};
use super::types::are_written;
use super::*;

#[test]
fn functions_have_texts_or_memory_is_out(rt: HostRuntime) {
    assert!(rt; is_written_out(rt.alloc()) != Some(false));
}

#[test]
fn literals_are_written_or_memory_is_out(rt: HostRuntime) {
    for (literal, expected) in LITERALS {
        assert!(rt;
            is_written_as(rt.alloc(), *literal, expected) != Some(false),
            "{expected}"
        );
    }
}

#[test]
fn types_are_written_or_memory_is_out(rt: HostRuntime) {
    assert!(rt; are_written(rt.alloc()) != Some(false));
}
