use super::{handle, is_shown};
use naga_sets::HandleVec;

/// Clears a vector, adds the value 10 and four times the value 7, and returns whether that succeeded.
fn fills(values: &mut HandleVec<u8, u32>) -> bool {
    values.clear();
    values.is_empty() && values.insert(handle(0), 10).is_ok() && values.resize(5, 7).is_ok()
}

/// Writes 8 and 9 in place of the second and the third of five values, and returns whether there is no sixth one.
fn is_written(values: &mut HandleVec<u8, u32>) -> bool {
    if values.len() != 5 {
        return false;
    }
    values[handle(1)] = 8;
    if let Some(value) = values.get_mut(handle(2)) {
        *value = 9;
    }
    values[handle(0)] == 10 && values.get(handle(5)).is_none() && values.iter().len() == 5
}

#[test]
fn values_stand_at_their_handles(rt: HostRuntime) {
    let mut values = HandleVec::<u8, u32>::with_capacity(rt.alloc(), 1).expect(
        &rt,
        "out of memory",
    );
    assert!(rt; fills(&mut values) && is_written(&mut values));
    assert!(rt; is_shown(rt.alloc(), &values, "[10, 8, 9, 7, 7]"));
}
