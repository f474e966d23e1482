//! Tests of calls in which any allocation may fail. Each call must either succeed as usual, or fail.
use super::*;
use crate::compared::SHADER;

/// Returns whether [`SHADER`] has a graph of its length, or `None` if an allocation failed.
fn is_whole(alloc: Global) -> Option<bool> {
    let module = module_of(alloc, SHADER)?;
    match module_dot(alloc, &module) {
        Ok(graph) => Some(graph.len() == 3247),
        Err(AllocError) => None,
    }
}

#[test]
fn modules_are_drawn_or_memory_is_out(rt: HostRuntime) {
    assert!(rt; is_whole(rt.alloc()) != Some(false));
    assert!(rt; is_compared(rt.alloc()) != Some(false));
}

#[test]
fn texts_are_transformed_or_memory_is_out(rt: HostRuntime) {
    assert!(rt; becomes(rt.alloc(), UNCLAMPED, &[Pass::Restrict], None, CLAMPED) != Some(false));
    assert!(rt; is_not_restricted(rt.alloc(), LACKING, LACKING_MESSAGE) != Some(false));
    for row in ROWS {
        assert!(rt; is_said(rt.alloc(), row) != Some(false), "{}", row.2);
    }
}

#[test]
fn reports_are_written_or_memory_is_out(rt: HostRuntime) {
    assert!(rt; is_reported(rt.alloc(), LACKING, Format::Lines, LACKING_REPORT, 0) != Some(false));
    assert!(rt; is_reported(rt.alloc(), FAULTY, Format::Lines, FAULTY_REPORT, 3) != Some(false));
    assert!(rt; is_reported(rt.alloc(), FAULTY, Format::Json, FAULTY_FINDINGS, 3) != Some(false));
    assert!(rt; is_reported(rt.alloc(), UNEVEN, Format::Lines, UNEVEN_REPORT, 0) != Some(false));
    assert!(rt; is_reported(rt.alloc(), UNEVEN, Format::Json, UNEVEN_FINDINGS, 0) != Some(false));
}

#[test]
fn findings_are_written_or_memory_is_out(rt: HostRuntime) {
    assert!(rt; is_found(rt.alloc(), LACKING, LACKING_FINDINGS, 0) != Some(false));
    assert!(rt; is_found(rt.alloc(), FAULTY, FAULTY_FINDINGS, 3) != Some(false));
}
