use super::{arena_of, handle, is_set, is_shown, set_for};
use naga_arena::Handle;
use naga_sets::HandleSet;

/// Returns whether pops return exactly these members, and then `None`.
fn pops(handles: &mut HandleSet<u8>, members: &[u16]) -> bool {
    for index in members {
        if handles.pop() != Some(handle(*index)) {
            return false;
        }
    }
    handles.pop().is_none()
}

/// Returns whether the members and the bound of a set for three bytes follow what is inserted and popped.
fn follows_its_handles(handles: &mut HandleSet<u8>) -> bool {
    handles.add_all();
    is_set(handles, &[0, 1, 2], 3)
        && handles.insert(handle(5)) == Ok(true)
        && is_set(handles, &[0, 1, 2, 5], 6)
        && pops(handles, &[5, 2, 1, 0])
        && is_set(handles, &[], 6)
}

/// Returns whether no handle at or above the bound of a set for three bytes is a member, or is removed.
fn has_none_from_its_bound_on(handles: &mut HandleSet<u8>) -> bool {
    let greatest = Handle::<u8>::at(4294967294);
    handles.add_all();
    !handles.contains(handle(3))
        && !handles.contains(greatest)
        && !handles.remove(handle(3))
        && !handles.remove(greatest)
        && is_set(handles, &[0, 1, 2], 3)
}

#[test]
fn the_bound_follows_the_arena_and_what_is_inserted(rt: HostRuntime) {
    let mut handles = set_for(rt.alloc(), 3).expect(&rt, "out of memory");
    assert!(rt; has_none_from_its_bound_on(&mut handles));
    assert!(rt; follows_its_handles(&mut handles));
}

/// Returns whether 64, 63 and 128 are inserted into an empty set, whose members are then in ascending order.
fn ascends(handles: &mut HandleSet<u8>) -> bool {
    handles.is_empty()
        && handles.insert(handle(64)) == Ok(true)
        && handles.insert(handle(63)) == Ok(true)
        && handles.insert(handle(128)) == Ok(true)
        && handles.insert(handle(63)) == Ok(false)
        && is_set(handles, &[63, 64, 128], 129)
}

/// Returns whether a set with bound 129 has as many members after `add_all`, and none after `clear`. Before that, a
/// member is removed once.
fn is_filled_and_cleared(handles: &mut HandleSet<u8>) -> bool {
    handles.add_all();
    let is_full = handles.iter().count() == 129 && handles.contains(handle(64));
    let is_removed = handles.remove(handle(64)) && !handles.remove(handle(64));
    handles.clear();
    is_full && is_removed && is_set(handles, &[], 129)
}

#[test]
fn members_ascend_and_are_removed_once(rt: HostRuntime) {
    let mut handles = HandleSet::<u8>::new(rt.alloc());
    assert!(rt; ascends(&mut handles));
    assert!(rt; is_filled_and_cleared(&mut handles));
}

/// The lengths of some arenas, for which a set is cleared one after another.
const LENGTHS: &[u8] = &[0, 1, 63, 64, 65, 130];

/// Returns whether a set of all handles below a bound has `bound` members, and `bound` pops empty it.
fn is_emptied_by_pops(handles: &mut HandleSet<u8>, bound: usize) -> bool {
    handles.add_all();
    if handles.iter().count() != bound {
        return false;
    }
    for _ in 0..bound {
        if handles.pop().is_none() {
            return false;
        }
    }
    handles.pop().is_none() && handles.is_empty()
}

#[test]
fn as_many_pops_as_members_empty_a_set(rt: HostRuntime) {
    let mut handles = HandleSet::<u8>::new(rt.alloc());
    for len in LENGTHS {
        let arena = arena_of(rt.alloc(), *len).expect(&rt, "out of memory");
        assert!(rt; handles.clear_for_arena(&arena).is_ok());
        assert!(rt;
            is_emptied_by_pops(&mut handles, usize::from(*len)),
            "{len}"
        );
    }
}

#[test]
fn a_set_shows_its_members(rt: HostRuntime) {
    let mut handles = HandleSet::<u8>::new(rt.alloc());
    assert!(rt; handles.insert_iter([handle(4), handle(0)]).is_ok());
    assert!(rt; is_shown(rt.alloc(), &handles, "{[0], [4]}"));
}
