//! Tests of calls in which any allocation may fail. Each call must either succeed as usual, or fail.
use super::pieces::{MESSAGES, NAMES, escaped, visible};
use super::*;
use crate::compared::SHADER;

/// Returns whether [`SHADER`] has a text of its length, or `None` if an allocation failed.
fn is_whole(alloc: Global) -> Option<bool> {
    let module = module_of(alloc, SHADER)?;
    match module_text(alloc, &module) {
        Ok(text) => Some(text.len() == 1234),
        Err(AllocError) => None,
    }
}

#[test]
fn modules_are_written_or_memory_is_out(rt: HostRuntime) {
    assert!(rt; is_whole(rt.alloc()) != Some(false));
    assert!(rt; is_compared(rt.alloc()) != Some(false));
}

#[test]
fn names_and_messages_are_written_or_memory_is_out(rt: HostRuntime) {
    for (name, written) in NAMES {
        assert!(rt;
            is(escaped(rt.alloc(), name), written) != Some(false),
            "{written}"
        );
    }
    for (message, written) in MESSAGES {
        assert!(rt;
            is(visible(rt.alloc(), message), written) != Some(false),
            "{written}"
        );
    }
}
