use super::{LETTERS, are_equal, fills, holds, is_at, is_b, is_shown, says};
use naga_arena::{Arena, ArenaError, BadHandle, Handle, Range, Span, TryClone};
use std::alloc::{AllocError, Global};

/// Returns whether two appends to an empty arena return the handles 0 and 1, which refer to 0 and this value.
fn appends(arena: &mut Arena<u8>, second: u8) -> bool {
    arena.clear();
    is_at(arena.append(0, Span::UNDEFINED).ok(), 0)
        && is_at(arena.append(second, Span::UNDEFINED).ok(), 1)
        && arena.as_slice() == [0, second].as_slice()
}

/// Returns whether, in an empty arena, a fetch of 0 returns the handle 0, and then a fetch of this value the handle
/// with this index.
fn fetches(arena: &mut Arena<u8>, second: u8, index: usize) -> bool {
    arena.clear();
    is_at(arena.fetch_or_append(0, Span::UNDEFINED).ok(), 0)
        && is_at(arena.fetch_or_append(second, Span::UNDEFINED).ok(), index)
}

/// Returns whether b is found among the three letters, and a letter that is none of them is appended.
fn fetches_by_a_test(arena: &mut Arena<u8>) -> bool {
    let span = Span::new(7, 8);
    is_at(arena.fetch_if(is_b), 1)
        && is_at(arena.fetch_if_or_append(b'd', span, are_equal).ok(), 3)
        && arena.get_span(Handle::<u8>::at(3)) == span
}

/// Returns whether a cleared arena starts again with the first handle, and with no old span.
fn begins_anew(arena: &mut Arena<u8>) -> bool {
    arena.clear();
    arena.is_empty()
        && is_at(arena.append(b'e', Span::UNDEFINED).ok(), 0)
        && holds(arena, &[(b'e', 0, 0)])
}

#[test]
fn values_are_appended_or_fetched(rt: HostRuntime) {
    let mut arena = Arena::<u8>::new(rt.alloc());
    assert!(rt; appends(&mut arena, 0) && appends(&mut arena, 1));
    assert!(rt; fetches(&mut arena, 0, 0) && fetches(&mut arena, 1, 1));
    assert!(rt; fills(&mut arena) && fetches_by_a_test(&mut arena));
    assert!(rt; begins_anew(&mut arena));
}

/// Returns whether `retain_mut` removes the second of the three letters and replaces the third one by d, and calls its
/// predicate three times. If `may_be_refused`, allocation may also fail; then the predicate must never be called, and
/// all letters must be kept.
pub(super) fn retains(arena: &mut Arena<u8>, may_be_refused: bool) -> bool {
    let mut calls = 0u64;
    let retained = arena.retain_mut(|handle, letter| {
        calls = calls.wrapping_add(1);
        match handle.index() {
            1 => None,
            2 => Some(b'd'),
            _ => Some(letter),
        }
    });
    match retained {
        Ok(()) => calls == 3 && holds(arena, &[(b'a', 1, 2), (b'd', 5, 6)]),
        Err(AllocError) => may_be_refused && calls == 0 && holds(arena, LETTERS),
    }
}

/// Returns whether the range from the first to the last of these handles is accepted.
fn accepts(arena: &Arena<u8>, first: u16, last: u16) -> bool {
    let first = Handle::<u8>::at(usize::from(first));
    let range = Range::<u8>::new_from_bounds(first, Handle::<u8>::at(usize::from(last)));
    arena.check_contains_range(&range).is_ok()
}

/// Returns whether, of the ranges 5..3, 2..4, 0..3, 3..3 and 9..9, each given by its first and its last handle, exactly
/// the last three are accepted.
fn accepts_three(arena: &Arena<u8>) -> bool {
    !accepts(arena, 5, 2)
        && !accepts(arena, 2, 3)
        && accepts(arena, 0, 2)
        && accepts(arena, 3, 2)
        && accepts(arena, 9, 8)
}

/// Returns whether the three letters are sliced by ranges, and taken from the back by an iterator.
fn is_sliced(arena: &Arena<u8>) -> bool {
    if arena.len() != 3 {
        return false;
    }
    let mut iter = arena.iter();
    arena.slice(Range::<u8>::from_index_range(1..3, arena)) == b"bc".as_slice()
        && arena.slice(arena.range_from(2)) == b"c".as_slice()
        && iter.next_back().is_some()
        && iter.len() == 2
}

/// Returns whether the second of the three letters is overwritten, first with x and then with y.
fn is_written(arena: &mut Arena<u8>) -> bool {
    let second = Handle::<u8>::at(1);
    if arena.check_contains_handle(second).is_err() {
        return false;
    }
    arena[second] = b'x';
    let is_x = arena[second] == b'x';
    *arena.get_mut(second) = b'y';
    is_x && holds(arena, &[(b'a', 1, 2), (b'y', 3, 4), (b'c', 5, 6)])
}

/// Returns whether the first of the three letters is found, and the handle after the last one is not in the arena.
fn has_no_fourth(arena: &Arena<u8>) -> bool {
    let fourth = Handle::<u8>::at(3);
    let bad = BadHandle {
        kind: "u8",
        index: 3,
    };
    arena.try_get(Handle::<u8>::at(0)).ok() == Some(&b'a')
        && arena.try_get(fourth).err() == Some(bad)
        && !arena.get_span(fourth).is_defined()
}

/// Returns whether a clone of the arena has the three letters. If `may_be_refused`, cloning may also fail.
pub(super) fn is_cloned(arena: &Arena<u8>, may_be_refused: bool) -> bool {
    match arena.clone() {
        Ok(copy) => holds(&copy, LETTERS),
        Err(AllocError) => may_be_refused,
    }
}

/// Returns whether the three letters can be read in each way, but no fourth one.
fn is_read(arena: &Arena<u8>) -> bool {
    is_sliced(arena) && accepts_three(arena) && has_no_fourth(arena) && is_cloned(arena, false)
}

#[test]
fn letters_are_read_written_and_retained(rt: HostRuntime) {
    let mut arena = Arena::<u8>::new(rt.alloc());
    assert!(rt; fills(&mut arena) && is_read(&arena));
    assert!(rt; is_shown(rt.alloc(), &arena, "{[0]: 97, [1]: 98, [2]: 99}"));
    assert!(rt; is_written(&mut arena));
    assert!(rt; fills(&mut arena) && retains(&mut arena, false));
    assert!(rt; arena.into_inner().as_slice() == b"ad".as_slice());
}

/// Makes an arena of two vectors, with the letters a and b.
fn of_vecs(alloc: Global) -> Result<Arena<u8>, AllocError> {
    let mut values = Vec::with_capacity(alloc, 2)?;
    let mut spans = Vec::with_capacity(alloc, 2)?;
    values.push_reserved(b'a');
    values.push_reserved(b'b');
    spans.push_reserved(Span::new(1, 2));
    spans.push_reserved(Span::new(3, 4));
    Ok(Arena::from_vecs(values, spans))
}

/// Returns whether vectors become the values and spans of an arena. If an allocation fails, there is no arena.
fn is_of_vecs(alloc: Global) -> bool {
    let Ok(arena) = of_vecs(alloc) else {
        return true;
    };
    holds(&arena, &[(b'a', 1, 2), (b'b', 3, 4)])
}

#[test]
fn vectors_become_an_arena(rt: HostRuntime) {
    assert!(rt; is_of_vecs(rt.alloc()));
}

#[test]
fn errors_of_arenas_are_displayed(rt: HostRuntime) {
    assert!(rt; says(rt.alloc(), &ArenaError::Full, "arena is full"));
    assert!(rt; says(rt.alloc(), &ArenaError::Memory, "out of memory"));
}
