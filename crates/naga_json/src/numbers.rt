//! Numbers, which are read from JSON values.
ghost use Rattle.std.specs.Prelude.{◌≡◌, ◌<◌, ◌^◌, IfSome};
ghost use Rattle.std.specs.Float.{binary32, binary64};
ghost use Rattle.json.specs.Value.{value_view};
ghost use Rattle.naga_arena.specs.Limits.{max_len};
ghost use Rattle.naga_json.specs.Codec.{byte_codec, handle_codec};
ghost use Rattle.naga_json.specs.Numbers.{natural_in, integer_in, float_in};

use json::Value;

/// Returns a number of 64 bits.
pub fn natural(value: &Value<'_>) -> Option<u64>
    ensures { result ≡ natural_in (2 ^ 64) (value_view value.now) }
{
    value.as_u64()
}

/// Returns a number below the bound.
#[tactic(auto, using(crate::proofs::ParsesLemmas::natural_in_narrower))]
pub fn natural_below(value: &Value<'_>, bound: u64) -> Option<u64>
    ensures value { result ≡ natural_in bound (value_view value.now) }
    ensures bound { IfSome result (λ n. n < bound) }
{
    let number = natural(value)?;
    if number < bound { Some(number) } else { None }
}

/// Returns the index of a handle.
pub fn index(value: &Value<'_>) -> Option<usize>
    ensures value { result ≡ handle_codec.decode (value_view value.now) }
    ensures bound { IfSome result (λ index. index < max_len) }
{
    let number = natural_below(value, u64::from(u32::MAX))?;
    Some(number as usize)
}

/// Returns a number of eight bits.
pub fn byte(value: &Value<'_>) -> Option<u8>
    ensures { result ≡ byte_codec.decode (value_view value.now) }
{
    Some(natural_below(value, 1 << 8)? as u8)
}

/// Returns a number of 16 bits.
pub fn short(value: &Value<'_>) -> Option<u16>
    ensures { result ≡ natural_in (2 ^ 16) (value_view value.now) }
{
    Some(natural_below(value, 1 << 16)? as u16)
}

/// Returns a number of 32 bits.
pub fn word(value: &Value<'_>) -> Option<u32>
    ensures { result ≡ natural_in (2 ^ 32) (value_view value.now) }
{
    Some(natural_below(value, 1 << 32)? as u32)
}

/// Returns an integer of 64 bits. `-0` represents only a float.
pub fn integer(value: &Value<'_>) -> Option<i64>
    ensures { result ≡ integer_in (2 ^ 63) (value_view value.now) }
{
    let text = value.as_number()?;
    if text == "-0" {
        return None;
    }
    value.as_i64()
}

/// Returns an integer of 32 bits.
pub fn integer_32(value: &Value<'_>) -> Option<i32>
    ensures { result ≡ integer_in (2 ^ 31) (value_view value.now) }
{
    let number = integer(value)?;
    i32::try_from(number).ok()
}

/// Returns an integer of 16 bits.
pub fn integer_16(value: &Value<'_>) -> Option<i16>
    ensures { result ≡ integer_in (2 ^ 15) (value_view value.now) }
{
    let number = integer(value)?;
    i16::try_from(number).ok()
}

/// Returns the bits of a float of 64 bits.
pub fn double(value: &Value<'_>) -> Option<u64>
    ensures { result ≡ float_in binary64 (value_view value.now) }
{
    let text = value.as_number()?;
    let number: f64 = fast_float::parse(text).ok()?;
    if number.is_finite() {
        Some(std::num::f64_to_bits_with_nan(number))
    } else {
        None
    }
}

/// Returns the bits of a float of 32 bits.
pub fn single(value: &Value<'_>) -> Option<u32>
    ensures { result ≡ float_in binary32 (value_view value.now) }
{
    let text = value.as_number()?;
    let number: f32 = fast_float::parse(text).ok()?;
    if number.is_finite() {
        Some(std::num::f32_to_bits_with_nan(number))
    } else {
        None
    }
}
