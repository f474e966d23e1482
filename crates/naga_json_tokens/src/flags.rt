//! Sets of flags, which are written as the names of the flags with bars between them.
ghost use Rattle.std.specs.Prelude.{◌≡◌, option_map};
ghost use Rattle.bitflags.specs.Text.{ReadsHex};
ghost use Rattle.json.specs.Value.{value_view};
ghost use Rattle.naga_json.specs.Flags.{flags_in};
ghost use Rattle.naga_json.specs.FlagSets.{barrier_codec};

use crate::values::Scalar;
use bitflags::Flags;
use bitflags::parser::{ParseHex, from_str};
use json::Value;
use naga_kinds::Barrier;

/// Returns a set of flags.
fn flags<B: Flags>(value: &Value<'_>) -> Option<B>
where
    <B as Flags>::Bits: ParseHex,
    ensures { B.exact → ReadsHex B.Bits.parse_hex_gives B.Bits.pattern B.Bits.size
        → option_map B.set_of result ≡ flags_in B.table B.Bits.size (value_view value.now) }
{
    let text = value.as_str()?;
    from_str::<B>(text).ok()
}

impl Scalar for Barrier {
    ghost decode = { barrier_codec.decode };

    fn from_scalar(value: &Value<'_>) -> Option<Self> {
        flags::<Barrier>(value)
    }
}
