//! Tests of messages and positions.
mod refusals;

use naga_explain::{Position, message_of};
use naga_json_read::{Cause, ReadError, read_module};
use std::alloc::Global;

/// Returns whether a text after this number of bytes has this message.
fn is_message(alloc: Global, text: &str, skipped: usize, want: &str) -> bool {
    let Err(error) = read_module(alloc, text) else {
        return false;
    };
    message_of(alloc, text, skipped, error).is_ok_and(|message| message.as_str() == want)
}

/// Returns whether an error is shown as it is, if the text does not have it.
fn is_error_kept(alloc: Global, error: ReadError, want: &str) -> bool {
    message_of(alloc, "{", 0, error).is_ok_and(|message| message.as_str() == want)
}

/// Returns whether the byte of a text after `offset` others has this line and column.
fn is_at(text: &str, offset: usize, line: usize, column: usize) -> bool {
    Position::new(text, 0, offset)
        == Position {
            byte: offset,
            line,
            column,
        }
}

#[test]
fn bytes_in_front_of_a_text_count(rt: HostRuntime) {
    assert!(rt;
        is_message(
            rt.alloc(),
            "[1,]",
            usize::MAX,
            "invalid JSON at byte 18446744073709551615, line 1, column 4: expected a value",
        )
    );
}

#[test]
fn errors_of_another_text_are_kept(rt: HostRuntime) {
    assert!(rt; is_error_kept(rt.alloc(), ReadError::Memory, "out of memory"));
    assert!(rt;
        is_error_kept(
            rt.alloc(),
            ReadError::Value(Cause::Object),
            "expected an object"
        )
    );
}

#[test]
fn positions_count_from_one(rt: HostRuntime) {
    assert!(rt; is_at("", 0, 1, 1));
    assert!(rt; is_at("ab\ncd", 2, 1, 3));
    assert!(rt; is_at("ab\ncd", 3, 2, 1));
    assert!(rt; is_at("ab\ncd", 5, 2, 3));
    // Past the end of the text, the line and the column are those of the end.
    assert!(rt; is_at("ab\ncd", 9, 2, 3));
}
