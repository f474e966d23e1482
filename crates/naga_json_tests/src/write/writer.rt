//! Tests of the writer of tokens: the text of each token, and the count of levels.
use naga_json_write::Writer;
use std::alloc::{AllocError, Global};

/// Appends an object that has a member for each kind of token.
fn write_each(out: &mut Writer) -> Result<(), AllocError> {
    out.begin_object()?;
    out.key("a \"b\"")?;
    out.begin_array()?;
    out.u64(18_446_744_073_709_551_615)?;
    out.i64(-1)?;
    out.boolean(true)?;
    out.null()?;
    out.string("c\n")?;
    out.end_array()?;
    out.end_object()
}

/// Returns whether the text of each token is written after what was there before.
fn is_each_written(alloc: Global) -> bool {
    let Ok(before) = Vec::from_slice(alloc, b"x") else {
        return false;
    };
    let mut out = Writer::new(before);
    let written = write_each(&mut out).is_ok() && out.is_shallow();
    let want = r#"x{"a \"b\"":[18446744073709551615,-1,true,null,"c\n"]}"#;
    written && out.into_inner().as_slice() == want.as_bytes()
}

/// Returns whether a writer counts no more levels than there may be, in lists that are nested this deep.
fn is_shallow_in(alloc: Global, depth: usize) -> Option<bool> {
    let mut out = Writer::new(Vec::new(alloc));
    for _ in 0..depth {
        out.begin_array().ok()?;
        out.begin_object().ok()?;
        out.end_object().ok()?;
    }
    out.end_array().ok()?;
    Some(out.is_shallow())
}

#[test]
fn tokens_are_written(rt: HostRuntime) {
    assert!(rt; is_each_written(rt.alloc()));
}

#[test]
fn levels_are_counted(rt: HostRuntime) {
    let alloc = rt.alloc();
    assert!(rt; is_shallow_in(alloc, 126) == Some(true));
    assert!(rt; is_shallow_in(alloc, 127) == Some(false));
}
