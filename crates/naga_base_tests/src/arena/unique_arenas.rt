use super::{Letter, are_letters, drained, is_at, is_shown};
use naga_arena::{ArenaError, ArenaType, BadHandle, Handle, Span, TryClone, UniqueArena};
use std::alloc::AllocError;

/// The letters a and b.
const A_AND_B: &[Letter] = &[(b'a', 1, 2), (b'b', 3, 4)];

/// Returns whether the arena has exactly these letters, in this order.
fn holds(arena: &UniqueArena<u8>, letters: &[Letter]) -> bool {
    are_letters(arena, arena.iter(), letters)
}

/// Returns whether, after inserting `a`, `b` and `a` again into an arena that was emptied and has no capacity, it has
/// exactly the first two.
fn takes_equal_values_once(arena: &mut UniqueArena<u8>) -> bool {
    arena.take();
    is_at(arena.insert(b'a', Span::new(1, 2)).ok(), 0)
        && is_at(arena.insert(b'b', Span::new(3, 4)).ok(), 1)
        && is_at(arena.insert(b'a', Span::new(5, 6)).ok(), 0)
        && holds(arena, A_AND_B)
}

/// Returns whether the second of two values is found, and the handle after it is not in the arena.
fn finds_two(arena: &UniqueArena<u8>) -> bool {
    let third = Handle::<u8>::at(2);
    let bad = BadHandle {
        kind: "u8",
        index: 2,
    };
    is_at(arena.get(&b'b'), 1)
        && arena.get_handle(Handle::<u8>::at(1)).ok() == Some(&b'b')
        && arena.get_handle(third).err() == Some(bad)
        && !arena.get_span(third).is_defined()
        && ArenaType::<u8>::len(arena) == 2
}

/// Replaces the first value if the preconditions of `replace` are met, and returns whether it was replaced.
fn replaces_first(arena: &mut UniqueArena<u8>, value: u8) -> bool {
    let first = Handle::<u8>::at(0);
    arena.check_contains_handle(first).is_ok()
        && arena.get(&value).is_none()
        && arena.replace(first, value).is_ok()
}

/// Returns whether replacing the first value with `c` keeps its index and its span.
fn replaces_in_place(arena: &mut UniqueArena<u8>) -> bool {
    replaces_first(arena, b'c') && holds(arena, &[(b'c', 1, 2), (b'b', 3, 4)])
}

/// Returns whether a clone of the arena has `a` and `b`. If `may_be_refused`, cloning may also fail.
fn is_cloned(arena: &UniqueArena<u8>, may_be_refused: bool) -> bool {
    match TryClone::clone(arena) {
        Ok(copy) => holds(&copy, A_AND_B),
        Err(AllocError) => may_be_refused,
    }
}

#[test]
fn values_are_found_cloned_and_replaced(rt: HostRuntime) {
    let mut arena = UniqueArena::<u8>::new(rt.alloc());
    assert!(rt; takes_equal_values_once(&mut arena) && finds_two(&arena));
    assert!(rt; is_cloned(&arena, false));
    assert!(rt; is_shown(rt.alloc(), &arena, "{[0]: 97, [1]: 98}"));
    assert!(rt; replaces_in_place(&mut arena));
}

/// Returns whether a value that is not in the arena is appended or, if allocation fails, is still not in the arena.
fn goes_last_or_nowhere(arena: &mut UniqueArena<u8>, value: u8) -> bool {
    let len = arena.len();
    match arena.insert(value, Span::new(5, 6)) {
        Ok(handle) => handle.index() == len && arena.get(&value) == Some(handle),
        Err(error) => {
            error == ArenaError::Memory && arena.len() == len && arena.get(&value).is_none()
        }
    }
}

/// Returns whether inserting a value that is already in the arena succeeds, and each of thirty others is inserted or,
/// if allocation fails, leaves the arena unchanged.
fn inserts_or_stays(arena: &mut UniqueArena<u8>) -> bool {
    // Inserting a value that is already in the arena allocates nothing.
    if !is_at(arena.insert(b'b', Span::new(7, 8)).ok(), 1) {
        return false;
    }
    // The values outgrow the capacity that the first insert allocates, so there are further allocations.
    for value in 0..30u8 {
        if !goes_last_or_nowhere(arena, value) {
            return false;
        }
    }
    is_at(arena.get(&b'a'), 0) && is_at(arena.get(&b'b'), 1)
}

/// Returns whether the first value of the arena can be read and is this one, at 1..2.
fn begins_with(arena: &UniqueArena<u8>, value: u8) -> bool {
    let first = Handle::<u8>::at(0);
    arena.check_contains_handle(first).is_ok()
        && arena[first] == value
        && arena.get_span(first) == Span::new(1, 2)
}

/// Returns whether each of thirty replacements replaces the first value or, if allocation fails, leaves it unchanged.
fn replaces_or_stays(arena: &mut UniqueArena<u8>) -> bool {
    let mut first = b'a';
    // During a replacement, there is one more value for a while, so at some of these lengths it outgrows the capacity.
    for value in 0..30u8 {
        if arena.insert(value, Span::UNDEFINED).is_err() {
            return true;
        }
        if replaces_first(arena, value | 128) {
            first = value | 128;
        }
        if !begins_with(arena, first) {
            return false;
        }
    }
    is_at(arena.get(&b'b'), 1)
}

/// Returns whether an arena of `a` and `b` can be drained from both ends, is then empty, and is still so when cleared.
fn is_drained(arena: &mut UniqueArena<u8>) -> bool {
    let mut drain = arena.drain_all();
    let is_drained = arena.is_empty()
        && drained(drain.next_back(), 1, (b'b', 3, 4))
        && drained(drain.next(), 0, (b'a', 1, 2));
    arena.clear();
    is_drained && arena.is_empty()
}

/// Returns whether a clone of the arena has `a` and `b` or cloning fails, and the arena still has both.
fn is_cloned_or_refused(arena: &UniqueArena<u8>) -> bool {
    is_cloned(arena, true) && holds(arena, A_AND_B)
}

/// Tests that also pass if an allocation fails.
mod refusals {
    use super::*;

    #[test]
    fn refused_inserts_leave_the_arena(rt: HostRuntime) {
        let mut arena = UniqueArena::<u8>::new(rt.alloc());
        assert!(rt; goes_last_or_nowhere(&mut arena, b'c'));
        assert!(rt; !takes_equal_values_once(&mut arena) || inserts_or_stays(&mut arena));
    }

    #[test]
    fn refused_replacements_and_clones_leave_the_arena(rt: HostRuntime) {
        let mut arena = UniqueArena::<u8>::new(rt.alloc());
        assert!(rt; !takes_equal_values_once(&mut arena) || replaces_or_stays(&mut arena));
        assert!(rt; !takes_equal_values_once(&mut arena) || is_cloned_or_refused(&arena));
        // This allocates nothing.
        assert!(rt; !takes_equal_values_once(&mut arena) || is_drained(&mut arena));
    }
}
