//! Numbers.
ghost use Rattle.std.specs.Prelude.{◌≡◌, ◌<◌, ◌^◌, IfOk};
ghost use Rattle.std.specs.Float.{binary32, binary64};
ghost use Rattle.std.specs.Result.{result_ok};
ghost use Rattle.json.specs.Value.{value_view};
ghost use Rattle.naga_json.specs.Numbers.{natural_in, float_in};
ghost use Rattle.naga_json.specs.Codec.{byte_codec, integer_codec, long_codec, nonzero_codec, short_codec, word_codec};

use crate::cause::Cause;
use crate::parts::Coded;
use json::Value;
use naga_json::numbers;
use std::num::NonZeroU32;

/// Reads a number below the bound.
pub(crate) fn natural_below(value: &Value<'_>, bound: u64) -> Result<u64, Cause>
    ensures value { result_ok result ≡ natural_in bound (value_view value.now) }
    ensures bound { IfOk result (λ n. n < bound) }
{
    numbers::natural_below(value, bound).ok_or(Cause::Integer)
}

impl Coded for u8 {
    ghost codec = { byte_codec };

    fn read_value(value: &Value<'_>) -> Result<Self, Cause> {
        numbers::byte(value).ok_or(Cause::Integer)
    }
}

impl Coded for u16 {
    ghost codec = { short_codec };

    fn read_value(value: &Value<'_>) -> Result<Self, Cause> {
        numbers::short(value).ok_or(Cause::Integer)
    }
}

impl Coded for u32 {
    ghost codec = { word_codec };

    fn read_value(value: &Value<'_>) -> Result<Self, Cause> {
        numbers::word(value).ok_or(Cause::Integer)
    }
}

impl Coded for u64 {
    ghost codec = { long_codec };

    fn read_value(value: &Value<'_>) -> Result<Self, Cause> {
        numbers::natural(value).ok_or(Cause::Integer)
    }
}

impl Coded for NonZeroU32 {
    ghost codec = { nonzero_codec };

    fn read_value(value: &Value<'_>) -> Result<Self, Cause> {
        let number = u32::read_value(value)?;
        NonZeroU32::new(number).ok_or(Cause::Integer)
    }
}

/// `-0` represents only a float.
impl Coded for i16 {
    ghost codec = { integer_codec 15 };

    fn read_value(value: &Value<'_>) -> Result<Self, Cause> {
        numbers::integer_16(value).ok_or(Cause::Integer)
    }
}

/// `-0` represents only a float.
impl Coded for i32 {
    ghost codec = { integer_codec 31 };

    fn read_value(value: &Value<'_>) -> Result<Self, Cause> {
        numbers::integer_32(value).ok_or(Cause::Integer)
    }
}

/// `-0` represents only a float.
impl Coded for i64 {
    ghost codec = { integer_codec 63 };

    fn read_value(value: &Value<'_>) -> Result<Self, Cause> {
        numbers::integer(value).ok_or(Cause::Integer)
    }
}

/// Reads the bits of a float of 64 bits.
pub(crate) fn double(value: &Value<'_>) -> Result<u64, Cause>
    ensures { result_ok result ≡ float_in binary64 (value_view value.now) }
{
    numbers::double(value).ok_or(Cause::Float)
}

/// Reads the bits of a float of 32 bits.
pub(crate) fn single(value: &Value<'_>) -> Result<u32, Cause>
    ensures { result_ok result ≡ float_in binary32 (value_view value.now) }
{
    numbers::single(value).ok_or(Cause::Float)
}
