//! Tests of the readers of numbers.
use json::{Scratch, Value};
use naga_json::numbers;
use std::alloc::Global;

/// Returns whether a number is read as this natural number of 8, 16, 32 and 64 bits.
fn is_natural(value: &Value<'_>, n: u8) -> bool {
    numbers::byte(value) == Some(n)
        && numbers::short(value) == Some(u16::from(n))
        && numbers::word(value) == Some(u32::from(n))
        && numbers::natural(value) == Some(u64::from(n))
}

/// Returns whether a number is read as this integer of 16, 32 and 64 bits.
fn is_integer(value: &Value<'_>, n: i16) -> bool {
    numbers::integer_16(value) == Some(n)
        && numbers::integer_32(value) == Some(i32::from(n))
        && numbers::integer(value) == Some(i64::from(n))
}

/// Returns whether the number 255 is read as each of these.
fn is_each_integer(alloc: Global) -> bool {
    let mut scratch = Scratch::new(alloc);
    match Value::parse(alloc, "255", &mut scratch) {
        Ok(value) => is_natural(&value, 255) && is_integer(&value, 255),
        Err(_) => false,
    }
}

/// Returns the bits of the floats of 32 and 64 bits nearest to a JSON number, and its value below a bound.
fn floats_of(
    alloc: Global,
    text: &str,
    bound: u64,
) -> Option<(Option<u32>, Option<u64>, Option<u64>)> {
    let mut scratch = Scratch::new(alloc);
    let Ok(value) = Value::parse(alloc, text, &mut scratch) else {
        return None;
    };
    Some((
        numbers::single(&value),
        numbers::double(&value),
        numbers::natural_below(&value, bound),
    ))
}

/// Returns the index of a handle.
fn index_of(alloc: Global, text: &str) -> Option<usize> {
    let mut scratch = Scratch::new(alloc);
    let Ok(value) = Value::parse(alloc, text, &mut scratch) else {
        return None;
    };
    numbers::index(&value)
}

#[test]
fn integers_are_read(rt: HostRuntime) {
    assert!(rt; is_each_integer(rt.alloc()));
}

#[test]
fn floats_are_rounded_once(rt: HostRuntime) {
    let alloc = rt.alloc();
    assert!(rt;
        floats_of(alloc, "1", 2) == Some((Some(0x3f80_0000), Some(0x3ff0_0000_0000_0000), Some(1)))
    );
    assert!(rt;
        floats_of(alloc, "1", 1) == Some((Some(0x3f80_0000), Some(0x3ff0_0000_0000_0000), None))
    );
    assert!(rt; floats_of(alloc, "1e39", 1) == Some((None, Some(0x4807_8287_f49c_4a1d), None)));
    assert!(rt; floats_of(alloc, "1e999", 1) == Some((None, None, None)));
    assert!(rt; floats_of(alloc, "true", 1) == Some((None, None, None)));
}

#[test]
fn indices_are_below_the_greatest_length(rt: HostRuntime) {
    let alloc = rt.alloc();
    assert!(rt; index_of(alloc, "4294967294") == Some(4_294_967_294));
    assert!(rt; index_of(alloc, "4294967295").is_none());
}
