use super::{is_at, is_shown, says};
use naga_arena::{BadRangeError, Handle, Range};
use std::alloc::AllocError;

/// Returns whether the range has a first and a last handle, with these indices.
fn has_ends(range: &Range<u8>, first: usize, last: usize) -> bool {
    match range.first_and_last() {
        Some((start, end)) => start.index() == first && end.index() == last,
        None => false,
    }
}

/// Returns whether the range from the third to the sixth handle has its ends, and then yields them.
fn yields_its_ends(range: &mut Range<u8>) -> bool {
    has_ends(range, 2, 5)
        && is_at(range.next_back(), 5)
        && is_at(range.next(), 2)
        && range.index_range() == (3..5)
}

/// Returns whether the range contains no handles.
fn yields_nothing(range: &mut Range<u8>) -> bool {
    range.first_and_last().is_none()
        && range.len() == 0
        && range.next().is_none()
        && range.next_back().is_none()
}

#[test]
fn ranges_have_their_bounds_and_inverted_ones_no_handle(rt: HostRuntime) {
    let (second, fifth) = (Handle::<u8>::at(2), Handle::<u8>::at(5));
    let name = "Handle range [5..3] of u8 is either not present, or inaccessible yet";
    let mut range = Range::<u8>::new_from_bounds(second, fifth);
    assert!(rt; is_shown(rt.alloc(), &range, "[2..6]") && yields_its_ends(&mut range));
    let mut range = Range::<u8>::new_from_bounds(fifth, second);
    assert!(rt; yields_nothing(&mut range) && is_shown(rt.alloc(), &range, "[5..3]"));
    assert!(rt; says(rt.alloc(), &BadRangeError::new::<u8>(range), name));
}

/// Returns whether a range has a clone with the handles 0 to 2.
fn has_clone(range: &Range<u8>) -> bool {
    match range.clone() {
        Ok(copy) => has_ends(&copy, 0, 2),
        Err(AllocError) => false,
    }
}

/// Tests that also pass if an allocation fails.
mod refusals {
    use super::*;

    #[test]
    fn a_clone_of_a_range_takes_no_memory_to_be_refused(rt: HostRuntime) {
        assert!(rt; has_clone(&Range::<u8>::up_to(3)));
    }
}
