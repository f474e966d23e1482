//! Tests of calls in which any allocation may fail. Each must either answer, or report that it is out of memory.
use super::{EMPTY, MISPLACED, NONE, REPORT, begins_with, is_filled};
use crate::{Answer, naga_opt_check, naga_opt_run, naga_opt_run_new, naga_opt_text};
use std::alloc::Global;

/// The message if an allocation failed.
const OUT_OF_MEMORY: &[u8] = b"out of memory";

/// Returns whether the empty module is written, or allocation failed and only this is reported.
fn is_written_or_refused(alloc: Global) -> bool {
    let (mut out, mut message) = ([b'-'; 374], [b'-'; 20]);
    match naga_opt_run(alloc, EMPTY, b"cull,close,compact", &mut out, &mut message) {
        374 => out.as_slice() == EMPTY && is_filled(&message),
        -7 => is_filled(&out) && begins_with(&message, OUT_OF_MEMORY),
        _ => false,
    }
}

/// Returns whether the empty module is given, or allocation failed and only this is reported.
fn is_given_or_refused(alloc: Global) -> bool {
    let (mut answer, mut message) = (Answer { text: NONE }, [b'-'; 20]);
    match naga_opt_run_new(
        alloc,
        EMPTY,
        b"cull,close,compact",
        &mut answer,
        &mut message,
    ) {
        374 => answer.text == EMPTY && is_filled(&message),
        -7 => answer.text == NONE && begins_with(&message, OUT_OF_MEMORY),
        _ => false,
    }
}

/// Returns whether a list of passes is unknown, or allocation failed and only this is reported.
fn is_unknown_or_refused(alloc: Global) -> bool {
    let (mut out, mut message) = ([b'-'; 9], [b'-'; 22]);
    match naga_opt_run(alloc, EMPTY, b"shrink", &mut out, &mut message) {
        -1 => is_filled(&out) && begins_with(&message, b"unknown pass: \"shrink\""),
        -7 => is_filled(&out) && begins_with(&message, OUT_OF_MEMORY),
        _ => false,
    }
}

/// Returns whether a break outside of a loop is reported, or allocation failed and only this is reported.
fn is_misplaced_or_refused(alloc: Global) -> bool {
    let (mut out, mut message, mut faults) = ([b'-'; 100], [b'-'; 40], 7);
    match naga_opt_check(alloc, MISPLACED, &mut out, &mut faults, &mut message) {
        -7 => is_filled(&out) && faults == 7 && begins_with(&message, OUT_OF_MEMORY),
        length => {
            length == REPORT.len() as isize
                && begins_with(&out, REPORT)
                && faults == 1
                && is_filled(&message)
        }
    }
}

/// Returns whether the length of a readable text is returned, or allocation failed and only this is reported.
fn is_shown_or_refused(alloc: Global) -> bool {
    let mut message = [b'-'; 20];
    match naga_opt_text(alloc, MISPLACED, &mut [], &mut message) {
        -7 => begins_with(&message, OUT_OF_MEMORY),
        length => length > 0 && is_filled(&message),
    }
}

#[test]
fn calls_answer_or_report_that_they_are_out_of_memory(rt: HostRuntime) {
    assert!(rt; is_written_or_refused(rt.alloc()));
    assert!(rt; is_given_or_refused(rt.alloc()));
    assert!(rt; is_unknown_or_refused(rt.alloc()));
    assert!(rt; is_misplaced_or_refused(rt.alloc()));
    assert!(rt; is_shown_or_refused(rt.alloc()));
}
