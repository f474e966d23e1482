//! Tests of what the calls return and write.
mod refusals;

use crate::{
    Answer, naga_opt_check, naga_opt_run, naga_opt_run_new, naga_opt_text, naga_opt_version,
};
use std::alloc::Global;

/// The JSON that naga writes for the empty module.
const EMPTY: &[u8] =
    b"{\"types\":[],\"special_types\":{\"ray_desc\":null,\"ray_intersection\":null,\"ray_vertex_return\":null,\"external_texture_params\":null,\"external_texture_transfer_function\":null,\"predeclared_types\":{}},\"constants\":[],\"overrides\":[],\"global_variables\":[],\"global_expressions\":[],\"functions\":[],\"entry_points\":[],\"diagnostic_filters\":[],\"diagnostic_filter_leaf\":null,\"doc_comments\":null}";

/// The JSON of a module whose innermost diagnostic filter does not exist.
const INVALID: &[u8] =
    b"{\"types\":[],\"special_types\":{\"predeclared_types\":{}},\"constants\":[],\"overrides\":[],\"global_variables\":[],\"global_expressions\":[],\"functions\":[],\"entry_points\":[],\"diagnostic_filters\":[],\"diagnostic_filter_leaf\":0}";

/// The JSON of a module with a function whose body is a `Break`.
const MISPLACED: &[u8] =
    b"{\"types\":[],\"special_types\":{\"predeclared_types\":{}},\"constants\":[],\"overrides\":[],\"global_variables\":[],\"global_expressions\":[],\"functions\":[{\"name\":\"f\",\"arguments\":[],\"result\":null,\"local_variables\":[],\"expressions\":[],\"named_expressions\":{},\"body\":[\"Break\"],\"diagnostic_filter_leaf\":null}],\"entry_points\":[],\"diagnostic_filters\":[],\"diagnostic_filter_leaf\":null}";

/// A module of a function that stores at an index without an `Emit` of the access.
const UNEMITTED: &[u8] =
    b"{\"types\":[{\"name\":null,\"inner\":{\"Scalar\":{\"kind\":\"Uint\",\"width\":4}}},{\"name\":null,\"inner\":{\"Array\":{\"base\":0,\"size\":{\"Constant\":4},\"stride\":4}}}],\"special_types\":{\"ray_desc\":null,\"ray_intersection\":null,\"ray_vertex_return\":null,\"external_texture_params\":null,\"external_texture_transfer_function\":null,\"predeclared_types\":{}},\"constants\":[],\"overrides\":[],\"global_variables\":[],\"global_expressions\":[],\"functions\":[{\"name\":\"place\",\"arguments\":[{\"name\":null,\"ty\":0,\"binding\":null}],\"result\":null,\"local_variables\":[{\"name\":null,\"ty\":1,\"init\":null}],\"expressions\":[{\"LocalVariable\":0},{\"FunctionArgument\":0},{\"Access\":{\"base\":0,\"index\":1}},{\"Literal\":{\"U32\":7}}],\"named_expressions\":{},\"body\":[{\"Store\":{\"pointer\":2,\"value\":3}},{\"Return\":{\"value\":null}}],\"diagnostic_filter_leaf\":null}],\"entry_points\":[],\"diagnostic_filters\":[],\"diagnostic_filter_leaf\":null,\"doc_comments\":null}";

/// The text of an answer before the call.
const NONE: &[u8] = b"none";

/// Returns whether all bytes are dashes, with which each buffer is filled before the call.
fn is_filled(bytes: &[u8]) -> bool {
    bytes.iter().all(|byte| *byte == b'-')
}

/// Returns whether a buffer begins with a text, and all other bytes are dashes.
fn begins_with(buffer: &[u8], text: &[u8]) -> bool {
    match buffer.strip_prefix(text) {
        Some(rest) => is_filled(rest),
        None => false,
    }
}

/// Lists of passes, each of which leaves the empty module unchanged.
const LISTS: &[&[u8]] = &[
    b"close",
    b"close-naga",
    b"cull,close,compact",
    b"compact-keep-unused,cull",
    b" cull ,\tclose",
    b"restrict",
];

/// Lengths of a buffer, and whether the empty module is written into it.
const LENGTHS: &[(usize, bool)] = &[
    (374, true),
    (375, true),
    (400, true),
    (0, false),
    (373, false),
];

/// Returns whether passes leave the empty module as it is, and it is written if it is to be, and no message.
fn is_written(alloc: Global, passes: &[u8], length: usize, is_whole: bool) -> bool {
    let Ok(mut out) = Vec::from_elem(alloc, b'-', length) else {
        return false;
    };
    let mut message = [b'-'; 9];
    naga_opt_run(alloc, EMPTY, passes, &mut out, &mut message) == 374
        && begins_with(&out, if is_whole { EMPTY } else { b"" })
        && is_filled(&message)
}

/// Returns whether passes leave the empty module as it is, and it is given, and no message.
fn is_given(alloc: Global, passes: &[u8], message: &mut [u8]) -> bool {
    let mut answer = Answer { text: NONE };
    naga_opt_run_new(alloc, EMPTY, passes, &mut answer, message) == 374
        && answer.text == EMPTY
        && is_filled(message)
}

#[test]
fn the_empty_module_is_written_if_there_is_space(rt: HostRuntime) {
    for passes in LISTS {
        for (length, is_whole) in LENGTHS {
            assert!(rt; is_written(rt.alloc(), passes, *length, *is_whole));
        }
    }
}

#[test]
fn the_empty_module_is_given(rt: HostRuntime) {
    for passes in LISTS {
        assert!(rt; is_given(rt.alloc(), passes, &mut []));
        assert!(rt; is_given(rt.alloc(), passes, &mut [b'-'; 9]));
    }
}

/// A call that has a fault: the text, the passes, the length of the buffer for the message, the code, and the message
/// as it is written.
type Fails = (&'static [u8], &'static [u8], usize, isize, &'static [u8]);

/// Calls that have a fault.
const FAILS: &[Fails] = &[
    // the list of passes comes first
    (
        b"\xff",
        b"cull, shrink",
        100,
        -1,
        b"unknown pass: \"shrink\" (passes: cull, close, close-naga, compact, compact-keep-unused, restrict)",
    ),
    (b"\xff", b"", 25, -1, b"unknown pass: \"\" (passes:"),
    (b"\xff", b"cull,", 25, -1, b"unknown pass: \"\" (passes:"),
    (b"\xff", b"\x1b", 22, -1, b"unknown pass: \"\\u{1b}\""),
    (b"{", b"\xff", 40, -2, b"not UTF-8"),
    // the text is at fault
    (b"\xff", b"cull", 9, -2, b"not UTF-8"),
    (b"\"\xe2\x82\"", b"cull", 20, -2, b"not UTF-8"),
    (
        b"",
        b"cull",
        80,
        -3,
        b"invalid JSON at byte 0, line 1, column 1: the text ends, expected a value",
    ),
    (
        b"{} {}",
        b"cull",
        80,
        -3,
        b"invalid JSON at byte 3, line 1, column 4: expected the end of the text",
    ),
    (b"{}", b"cull", 40, -4, b"missing field \"types\""),
    (INVALID, b"cull", 0, -5, b""),
    (
        UNEMITTED,
        b"cull,restrict",
        100,
        -9,
        b"restrict: function 0 \"place\": body[0]: expression 2 is used and may not have been evaluated",
    ),
    // the message is cut, and not inside of a character
    (b"\xff", b"cull", 8, -2, b"not UTF-"),
    (b"\xff", b"cull", 1, -2, b"n"),
    (b"", b"\xc3\xa9", 17, -1, b"unknown pass: \"\xc3\xa9"),
    (b"", b"\xc3\xa9", 16, -1, b"unknown pass: \""),
];

/// Returns whether running passes has the fault of a row, writes its message and leaves the buffer as it is.
fn is_refused(alloc: Global, row: &Fails) -> bool {
    let (text, passes, length, code, wanted) = *row;
    let Ok(mut message) = Vec::from_elem(alloc, b'-', length) else {
        return false;
    };
    let mut out = [b'-'; 9];
    naga_opt_run(alloc, text, passes, &mut out, &mut message) == code
        && is_filled(&out)
        && begins_with(&message, wanted)
}

/// Returns whether running passes has the fault of a row, writes its message and gives nothing.
fn is_withheld(alloc: Global, row: &Fails) -> bool {
    let (text, passes, length, code, wanted) = *row;
    let Ok(mut message) = Vec::from_elem(alloc, b'-', length) else {
        return false;
    };
    let mut answer = Answer { text: NONE };
    naga_opt_run_new(alloc, text, passes, &mut answer, &mut message) == code
        && answer.text == NONE
        && begins_with(&message, wanted)
}

#[test]
fn faults_write_their_message_and_nothing_else(rt: HostRuntime) {
    for row in FAILS {
        assert!(rt; is_refused(rt.alloc(), row), "{} {}", row.3, row.2);
        assert!(rt; is_withheld(rt.alloc(), row), "{} {}", row.3, row.2);
    }
}

/// The report on [`MISPLACED`].
const REPORT: &[u8] =
    b"function 0 \"f\": body[0]: a break outside of a loop and of a switch\nfunctions: 1\nstatements: 1\n";

/// The report on [`EMPTY`].
const NO_FAULTS: &[u8] = b"no faults\n";

/// What is said of a text that ends too soon.
const UNREAD: &[u8] =
    b"invalid JSON at byte 1, line 1, column 2: the text ends, expected a key or \"}\"";

/// Returns whether a report is written if it fits, and the number of faults, and no message.
fn is_checked(alloc: Global, text: &[u8], out: &mut [u8], report: &[u8], number: usize) -> bool {
    let (mut message, mut faults) = ([b'-'; 9], 7);
    let fits = report.len() <= out.len();
    naga_opt_check(alloc, text, out, &mut faults, &mut message) == report.len() as isize
        && begins_with(out, if fits { report } else { b"" })
        && faults == number
        && is_filled(&message)
}

/// Returns whether no report is written for a text that is not read, and this is said.
fn is_not_checked(alloc: Global) -> bool {
    let (mut out, mut message, mut faults) = ([b'-'; 30], [b'-'; 100], 7);
    naga_opt_check(alloc, b"{", &mut out, &mut faults, &mut message) == -3
        && is_filled(&out)
        && faults == 7
        && begins_with(&message, UNREAD)
}

#[test]
fn modules_are_checked(rt: HostRuntime) {
    assert!(rt; is_checked(rt.alloc(), EMPTY, &mut [b'-'; 40], NO_FAULTS, 0));
    assert!(rt; is_checked(rt.alloc(), MISPLACED, &mut [b'-'; 100], REPORT, 1));
    assert!(rt; is_checked(rt.alloc(), MISPLACED, &mut [b'-'; 30], REPORT, 1));
    assert!(rt; is_checked(rt.alloc(), MISPLACED, &mut [], REPORT, 1));
    assert!(rt; is_not_checked(rt.alloc()));
}

/// The readable text of [`MISPLACED`], which has 29 bytes.
const TEXT: &[u8] = b"function 0 \"f\" {\n    break\n}\n";

/// Returns whether the readable text of [`MISPLACED`] is written into a buffer if it fits.
fn is_shown(alloc: Global, out: &mut [u8], wanted: &[u8]) -> bool {
    naga_opt_text(alloc, MISPLACED, out, &mut []) == 29 && begins_with(out, wanted)
}

/// Returns whether no readable text is written for a text that is not UTF-8, and this is said.
fn is_not_shown(alloc: Global) -> bool {
    let (mut out, mut message) = ([b'-'; 30], [b'-'; 30]);
    naga_opt_text(alloc, b"\xff", &mut out, &mut message) == -2
        && is_filled(&out)
        && begins_with(&message, b"not UTF-8")
}

#[test]
fn a_module_is_written_as_readable_text(rt: HostRuntime) {
    assert!(rt; is_shown(rt.alloc(), &mut [b'-'; 40], TEXT));
    assert!(rt; is_shown(rt.alloc(), &mut [], b""));
    assert!(rt; is_not_shown(rt.alloc()));
}

#[test]
fn the_version_is_three(rt: HostRuntime) {
    assert!(rt; naga_opt_version() == 3);
}
