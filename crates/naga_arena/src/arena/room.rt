//! Reserving space for one more value in a vector.
ghost use Rattle.std.specs.Prelude.{◌≡◌, ◌<◌, OnOk, vec_len, vec_capacity};

use std::alloc::AllocError;

/// Reserves space for one more value. The values are unchanged, even if allocation fails.
pub(super) fn reserve_one<V>(values: &mut Vec<V>) -> Result<(), AllocError>
    ensures items { values.new.items ≡ values.old.items }
    ensures len { vec_len values.new ≡ vec_len values.old }
    ensures room { OnOk result (vec_len values.new < vec_capacity values.new) }
{
    if values.len() < values.capacity() {
        return Ok(());
    }
    grow(values)
}

/// Allocates that space if there is no spare capacity. It is a separate function, so that a push with spare capacity
/// does not pay for it.
#[cold]
#[inline(never)]
fn grow<V>(values: &mut Vec<V>) -> Result<(), AllocError>
    ensures items { values.new.items ≡ values.old.items }
    ensures len { vec_len values.new ≡ vec_len values.old }
    ensures room { OnOk result (vec_len values.new < vec_capacity values.new) }
{
    values.reserve(1)
}
