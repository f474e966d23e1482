//! Tests of the state after an allocation fails. Each test passes whichever allocation fails, also in its set-up.
use super::{arena_of, handle, is_set, set_for};
use naga_arena::{Arena, Handle};
use naga_sets::{HandleSet, HandleVec};
use std::alloc::{AllocError, Global};

/// Creates a set for two bytes that contains the second one.
fn second_of_two(alloc: Global) -> Option<HandleSet<u8>> {
    let mut handles = set_for(alloc, 2)?;
    if handles.insert(handle(1)).is_err() {
        return None;
    }
    Some(handles)
}

#[test]
fn a_refused_set_for_an_arena_is_none(rt: HostRuntime) {
    let Some(arena) = arena_of(rt.alloc(), 3) else {
        return;
    };
    if let Ok(handles) = HandleSet::<u8>::for_arena(rt.alloc(), &arena) {
        assert!(rt; is_set(&handles, &[], 3));
    }
}

#[test]
fn a_refused_clear_for_an_arena_keeps_the_set(rt: HostRuntime) {
    let Some(arena) = arena_of(rt.alloc(), 70) else {
        return;
    };
    let Some(mut handles) = second_of_two(rt.alloc()) else {
        return;
    };
    match handles.clear_for_arena(&arena) {
        Ok(()) => assert!(rt; is_set(&handles, &[], 70)),
        Err(AllocError) => assert!(rt; is_set(&handles, &[1], 2)),
    }
}

#[test]
fn a_refused_insert_keeps_the_set(rt: HostRuntime) {
    let Some(mut handles) = second_of_two(rt.alloc()) else {
        return;
    };
    match handles.insert(handle(200)) {
        Ok(is_new) => assert!(rt; is_new && is_set(&handles, &[1, 200], 201)),
        Err(AllocError) => assert!(rt; is_set(&handles, &[1], 2)),
    }
}

/// Returns whether a set for two bytes that contains the second one takes both. None of these calls allocates.
fn takes_both(handles: &mut HandleSet<u8>) -> bool {
    let are_inserted = handles.insert(handle(0)) == Ok(true)
        && handles.insert(handle(1)) == Ok(false);
    handles.add_all();
    are_inserted && handles.pop() == Some(handle(1))
}

#[test]
fn an_insert_below_the_bound_is_not_refused(rt: HostRuntime) {
    if let Some(mut handles) = second_of_two(rt.alloc()) {
        assert!(rt; takes_both(&mut handles));
    }
}

/// Returns whether a set for 130 bytes has all of them after `add_all`, also after pops have removed its words, and is
/// cleared for a smaller arena of two bytes. None of these calls allocates.
fn is_refilled_and_cleared(handles: &mut HandleSet<u8>, smaller: &Arena<u8>) -> bool {
    handles.add_all();
    if handles.iter().count() != 130 || handles.pop() != Some(handle(129)) {
        return false;
    }
    for _ in 0..130u8 {
        handles.pop();
    }
    let is_new = handles.insert(handle(129)) == Ok(true);
    handles.add_all();
    is_new
        && handles.iter().count() == 130
        && handles.clear_for_arena(smaller).is_ok()
        && is_set(handles, &[], 2)
}

#[test]
fn calls_below_the_bound_are_not_refused(rt: HostRuntime) {
    let Some(smaller) = arena_of(rt.alloc(), 2) else {
        return;
    };
    if let Some(mut handles) = set_for(rt.alloc(), 130) {
        assert!(rt; is_refilled_and_cleared(&mut handles, &smaller));
    }
}

/// Returns whether five handles are inserted into a set for two bytes that contains the second one or, if allocation
/// fails for one of them, those before it.
fn takes_items_or_some(handles: &mut HandleSet<u8>) -> bool {
    let items = [handle(0), handle(70), handle(5), handle(1000), handle(6)];
    match handles.insert_iter(items) {
        Ok(()) => is_set(handles, &[0, 1, 5, 6, 70, 1000], 1001),
        Err(AllocError) => is_set(handles, &[0, 1], 2) || is_set(handles, &[0, 1, 5, 70], 71),
    }
}

#[test]
fn refused_items_leave_those_before_them_in(rt: HostRuntime) {
    if let Some(mut handles) = second_of_two(rt.alloc()) {
        assert!(rt; takes_items_or_some(&mut handles));
    }
}

/// Appends a value, and returns whether it is then found at its handle. If `may_be_refused`, allocation may also fail;
/// the length must then be unchanged.
fn is_appended(values: &mut HandleVec<u8, u32>, value: u32, may_be_refused: bool) -> bool {
    let len = values.len();
    let Some(handle) = Handle::<u8>::from_usize(len) else {
        return false;
    };
    match values.insert(handle, value) {
        Ok(()) => values.get(handle) == Some(&value),
        Err(AllocError) => may_be_refused && values.len() == len,
    }
}

#[test]
fn a_refused_vector_with_capacity_is_none(rt: HostRuntime) {
    let Ok(mut values) = HandleVec::<u8, u32>::with_capacity(rt.alloc(), 5) else {
        return;
    };
    // There is capacity for five values, so no allocation can fail here.
    for value in 0..5 {
        assert!(rt; is_appended(&mut values, value, false));
    }
    assert!(rt; values.len() == 5);
}

#[test]
fn a_refused_value_leaves_the_vector(rt: HostRuntime) {
    let mut values = HandleVec::<u8, u32>::new(rt.alloc());
    // Some of the allocations happen late.
    for value in 0..40 {
        assert!(rt; is_appended(&mut values, value, true));
    }
}

/// Returns whether a vector of the values 11 and 11 is lengthened with 12 or, if allocation fails, is unchanged.
fn is_resized_or_stays(values: &mut HandleVec<u8, u32>) -> bool {
    let len = match values.resize(100, 12) {
        Ok(()) => 100,
        Err(AllocError) => 2,
    };
    values.len() == len && values.get(handle(1)) == Some(&11)
}

#[test]
fn a_refused_resize_leaves_the_vector(rt: HostRuntime) {
    let mut values = HandleVec::<u8, u32>::new(rt.alloc());
    assert!(rt; values.resize(2, 11).is_err() || is_resized_or_stays(&mut values));
}
