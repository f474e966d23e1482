//! Sets of flags, which are written as the names of the flags with bars between them.
ghost use Rattle.std.specs.Prelude.{◌≡◌, option_map};
ghost use Rattle.std.specs.Result.{result_ok};
ghost use Rattle.bitflags.specs.Text.{ReadsHex};
ghost use Rattle.json.specs.Value.{value_view};
ghost use Rattle.naga_json.specs.Flags.{flags_in};
ghost use Rattle.naga_json.specs.FlagSets.{storage_access_codec, memory_decorations_codec, barrier_codec};

use crate::cause::Cause;
use crate::parts::Coded;
use bitflags::Flags;
use bitflags::parser::{ParseHex, from_str};
use json::Value;
use naga_kinds::{Barrier, MemoryDecorations, StorageAccess};

/// Reads a set of flags.
fn flags<B: Flags>(value: &Value<'_>) -> Result<B, Cause>
where
    <B as Flags>::Bits: ParseHex,
    ensures { B.exact → ReadsHex B.Bits.parse_hex_gives B.Bits.pattern B.Bits.size
        → option_map B.set_of (result_ok result) ≡ flags_in B.table B.Bits.size (value_view value.now) }
{
    let text = value.as_str().ok_or(Cause::Text)?;
    from_str::<B>(text).ok().ok_or(Cause::Flags)
}

impl Coded for StorageAccess {
    ghost codec = { storage_access_codec };

    fn read_value(value: &Value<'_>) -> Result<Self, Cause> {
        flags::<StorageAccess>(value)
    }
}

impl Coded for MemoryDecorations {
    ghost codec = { memory_decorations_codec };

    fn read_value(value: &Value<'_>) -> Result<Self, Cause> {
        flags::<MemoryDecorations>(value)
    }
}

impl Coded for Barrier {
    ghost codec = { barrier_codec };

    fn read_value(value: &Value<'_>) -> Result<Self, Cause> {
        flags::<Barrier>(value)
    }
}
