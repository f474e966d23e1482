//! Tests of calls in which any allocation may fail. Each call must either succeed as usual, or leave the arena
//! unchanged.
use super::arenas::{is_cloned, retains};
use super::{LETTERS, are_equal, drained, fills, holds, is_at, is_b};
use naga_arena::{Arena, ArenaError, Handle, Span};

/// Returns whether a value was appended to `len` elements, or allocation failed and there are still `len` elements.
fn is_last_or_refused(
    arena: &Arena<u8>,
    len: usize,
    given: Result<Handle<u8>, ArenaError>,
) -> bool {
    match given {
        Ok(handle) => handle.index() == len,
        Err(error) => error == ArenaError::Memory && arena.len() == len,
    }
}

/// Returns whether each of thirty appends adds its value or, if allocation fails, leaves the arena unchanged. The
/// elements outgrow the capacity that the first append allocates, so there are further allocations, here and in the
/// next two functions.
fn appends_or_stays(arena: &mut Arena<u8>) -> bool {
    for value in 0..30u8 {
        let len = arena.len();
        let given = arena.append(value, Span::new(5, 6));
        if !is_last_or_refused(arena, len, given) {
            return false;
        }
    }
    is_at(arena.fetch_if(is_b), 1)
}

/// Returns whether each of thirty fetches of values that are not in the arena appends its value or, if allocation
/// fails, leaves the arena unchanged.
fn fetches_or_stays(arena: &mut Arena<u8>) -> bool {
    for value in 0..30u8 {
        let len = arena.len();
        let given = arena.fetch_or_append(value, Span::new(5, 6));
        if !is_last_or_refused(arena, len, given) {
            return false;
        }
    }
    is_at(arena.fetch_if(is_b), 1)
}

/// Returns whether each of thirty fetches with a test, of values that are not in the arena, appends its value or, if
/// allocation fails, leaves the arena unchanged.
fn fetches_by_test_or_stays(arena: &mut Arena<u8>) -> bool {
    for value in 0..30u8 {
        let len = arena.len();
        let given = arena.fetch_if_or_append(value, Span::new(5, 6), are_equal);
        if !is_last_or_refused(arena, len, given) {
            return false;
        }
    }
    is_at(arena.fetch_if(is_b), 1)
}

/// Returns whether the letters a and b are found in their arena. Finding them allocates nothing.
fn finds_both(arena: &mut Arena<u8>) -> bool {
    let span = Span::new(7, 8);
    is_at(arena.fetch_or_append(b'b', span).ok(), 1)
        && is_at(arena.fetch_if_or_append(b'a', span, are_equal).ok(), 0)
        && holds(arena, LETTERS)
}

/// Returns whether the three letters can be taken out of an arena, and then be drained from both ends.
fn are_handed_on(arena: &mut Arena<u8>) -> bool {
    let mut taken = arena.take();
    let mut drain = taken.drain();
    arena.is_empty()
        && taken.is_empty()
        && drain.len() == 3
        && drained(drain.next_back(), 2, (b'c', 5, 6))
        && drained(drain.next(), 0, (b'a', 1, 2))
        && drained(drain.next_back(), 1, (b'b', 3, 4))
}

/// Returns whether a clone of the arena has the three letters or cloning fails, and the arena still has them.
fn is_cloned_or_refused(arena: &Arena<u8>) -> bool {
    is_cloned(arena, true) && holds(arena, LETTERS)
}

#[test]
fn refused_appends_and_fetches_change_nothing(rt: HostRuntime) {
    let mut arena = Arena::<u8>::new(rt.alloc());
    assert!(rt; !fills(&mut arena) || appends_or_stays(&mut arena));
    assert!(rt; !fills(&mut arena) || fetches_or_stays(&mut arena));
    assert!(rt; !fills(&mut arena) || fetches_by_test_or_stays(&mut arena));
}

#[test]
fn a_refused_retain_mut_never_calls_and_a_refused_clone_leaves_its_source(rt: HostRuntime) {
    let mut arena = Arena::<u8>::new(rt.alloc());
    assert!(rt; !fills(&mut arena) || retains(&mut arena, true));
    assert!(rt; !fills(&mut arena) || is_cloned_or_refused(&arena));
}

#[test]
fn what_is_found_or_handed_on_takes_no_memory_to_be_refused(rt: HostRuntime) {
    let mut arena = Arena::<u8>::new(rt.alloc());
    assert!(rt; !fills(&mut arena) || finds_both(&mut arena));
    assert!(rt; !fills(&mut arena) || are_handed_on(&mut arena));
}
