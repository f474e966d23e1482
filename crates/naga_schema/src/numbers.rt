//! Numbers.
ghost use Rattle.std.specs.Prelude.{◌≡◌, ◌+◌};
ghost use Rattle.json.specs.Value.{value_view};
ghost use Rattle.naga_json.specs.Numbers.{natural_in, nonzero_in};

use json::Value;
use naga_json::numbers::natural;
use std::num::NonZeroU32;

/// Returns the natural number that the value represents, if it represents one that is at most `greatest`.
pub(crate) fn natural_up_to(value: &Value<'_>, greatest: u64) -> Option<u64>
    ensures { result ≡ natural_in (greatest + 1) (value_view value.now) }
{
    let number = natural(value)?;
    if number <= greatest {
        Some(number)
    } else {
        None
    }
}

/// Returns the number of 32 bits that the value represents, if it represents one that is not 0.
pub(crate) fn nonzero(value: &Value<'_>) -> Option<NonZeroU32>
    ensures { result ≡ nonzero_in (value_view value.now) }
{
    NonZeroU32::new(natural_up_to(value, 0xffff_ffff)? as u32)
}
