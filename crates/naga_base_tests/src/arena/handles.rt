use super::{is_at, is_shown, says};
use naga_arena::{BadHandle, Handle, NonMaxU32};
use std::alloc::Global;
use std::fmt;

/// A handle that is displayed with a prefix.
#[derive(Drop)]
struct Prefixed(Handle<u8>);

impl fmt::Display for Prefixed {
    fn fmt<W: fmt::Write>(&self, f: &mut fmt::Formatter<W>) -> fmt::Result {
        self.0.write_prefixed(f, "e")
    }
}

/// Returns whether 4 but not 5 can be added to the sixth greatest number.
fn adds(number: NonMaxU32) -> bool {
    number.checked_add(4) == NonMaxU32::new(4294967294) && number.checked_add(5).is_none()
}

/// Returns whether a number and its handle are formatted as these digits, with brackets or a prefix.
fn are_shown(alloc: Global, number: NonMaxU32) -> bool {
    let handle = Handle::<u8>::new(number);
    says(alloc, &number, "4294967290")
        && is_shown(alloc, &number, "4294967290")
        && is_shown(alloc, &handle, "[4294967290]")
        && says(alloc, &Prefixed(handle), "e4294967290")
}

/// Returns whether the sixth greatest number is added to and shown.
fn is_number(alloc: Global) -> bool {
    match NonMaxU32::new(4294967290) {
        Some(number) => number.get() == 4294967290 && adds(number) && are_shown(alloc, number),
        None => false,
    }
}

#[test]
fn numbers_stay_below_the_greatest_one(rt: HostRuntime) {
    assert!(rt; NonMaxU32::new(4294967295).is_none());
    assert!(rt; is_number(rt.alloc()));
}

#[test]
fn handles_have_their_index(rt: HostRuntime) {
    let name = "Handle 3 of u8 is either not present, or inaccessible yet";
    assert!(rt; is_at(Handle::<u8>::from_usize(3), 3));
    assert!(rt; Handle::<u8>::from_usize(4294967295).is_none());
    assert!(rt; says(rt.alloc(), &BadHandle::new::<u8>(Handle::<u8>::at(3)), name));
}
