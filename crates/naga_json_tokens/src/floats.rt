//! Floats, of which bits are taken.
ghost use Rattle.std.specs.Prelude.{IfSome};
ghost use Rattle.std.specs.Float.{binary32, binary64};
ghost use Rattle.naga_json.specs.Numbers.{float_in};
ghost use Rattle.naga_json_tokens.specs.Takes.{Takes};

use crate::reader::Reader;
use crate::tokens::take_scalar;
use naga_json::numbers::{double, single};

/// Takes the bits of a float of 32 bits.
pub(crate) fn take_single(reader: &mut Reader<'_>) -> Option<u32>
    ensures { IfSome result (λ bits. Takes (float_in binary32) bits reader.old reader.new) }
{
    let value = take_scalar(reader)?;
    single(&value)
}

/// Takes the bits of a float of 64 bits.
pub(crate) fn take_double(reader: &mut Reader<'_>) -> Option<u64>
    ensures { IfSome result (λ bits. Takes (float_in binary64) bits reader.old reader.new) }
{
    let value = take_scalar(reader)?;
    double(&value)
}
