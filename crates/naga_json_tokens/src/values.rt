//! Values of any type that is taken, and fields with such values.
ghost use Rattle.std.specs.Prelude.{◌≡◌, IfSome};
ghost use Rattle.json.specs.Value.{value_view};
ghost use Rattle.naga_json.specs.Codec.{boolean_codec, byte_codec, handle_codec, integer_codec, long_codec, short_codec, word_codec};
ghost use Rattle.naga_json.specs.Kinds.{kind_codec};
ghost use Rattle.naga_json.specs.Objects.{nullable_in};
ghost use Rattle.naga_json_tokens.specs.Takes.{Takes, TakesField};

use crate::reader::Reader;
use crate::tokens::{take_key, take_scalar};
use json::Value;
use naga_arena::KindHandle;
use naga_json::numbers::{byte, index, integer, integer_16, integer_32, natural, short, word};
use naga_kinds::PlainKind;
use std::alloc::Global;

/// A type whose values are taken from tokens.
pub trait Take: Drop {
    ghost use Rattle.std.specs.Prelude.{Option};
    ghost use Rattle.json.specs.Json.{Json};

    // What a JSON represents.
    ghost Meaning: { Type 0 };

    // A value without the spare capacity of its strings and lists.
    ghost value_of: { Self → Meaning };

    // What a JSON represents, if it represents a value of this type.
    ghost meaning: { Json → Option Meaning };

    /// Takes a value, if all fields in it are in the order of their declaration.
    fn take(alloc: Global, reader: &mut Reader<'_>) -> Option<Self>
        ensures { IfSome result (λ found. Takes meaning (value_of found) reader.old reader.new) };
}

/// Takes the value in a field.
#[inline(always)]
#[tactic(auto, using(crate::proofs::TakesHolderLemmas::takes_field))]
pub fn take_field<T: Take>(alloc: Global, reader: &mut Reader<'_>, name: &str) -> Option<T>
    ensures { IfSome result
        (λ found. TakesField name.now T.meaning (T.value_of found) reader.old reader.new) }
{
    take_key(reader, name)?;
    T::take(alloc, reader)
}

/// A type of values that are neither lists nor objects.
pub(crate) trait Scalar: Drop {
    ghost use Rattle.std.specs.Prelude.{Option};
    ghost use Rattle.json.specs.Json.{Json};

    // What a JSON represents, if it represents a value of this type.
    ghost decode: { Json → Option Self };

    /// Returns the value that a JSON represents.
    fn from_scalar(value: &Value<'_>) -> Option<Self>
        ensures { result ≡ decode (value_view value.now) };
}

impl<T: Scalar> Take for T {
    ghost Meaning = { T };

    ghost value_of = { λ value. value };

    ghost meaning = { T.decode };

    #[inline(always)]
    fn take(_alloc: Global, reader: &mut Reader<'_>) -> Option<Self> {
        let value = take_scalar(reader)?;
        T::from_scalar(&value)
    }
}

/// Returns a value, unless the JSON is null.
fn nullable<T: Scalar>(value: &Value<'_>) -> Option<Option<T>>
    ensures { result ≡ nullable_in T.decode (value_view value.now) }
{
    if value.is_null() {
        return Some(None);
    }
    Some(Some(T::from_scalar(value)?))
}

/// A value that may be null.
impl<T: Scalar> Take for Option<T> {
    ghost use Rattle.std.specs.Prelude.{Option};

    ghost Meaning = { Option T };

    ghost value_of = { λ value. value };

    ghost meaning = { nullable_in T.decode };

    fn take(_alloc: Global, reader: &mut Reader<'_>) -> Option<Self> {
        let value = take_scalar(reader)?;
        nullable::<T>(&value)
    }
}

/// A kind without data, which is written as the name of its variant.
pub(crate) trait Kind: PlainKind + Drop {}

impl<T: Kind> Scalar for T {
    ghost decode = { (kind_codec T.name_of T.in_order).decode };

    fn from_scalar(value: &Value<'_>) -> Option<Self> {
        T::from_name(value.as_str()?)
    }
}

impl<K> Scalar for KindHandle<K> {
    ghost decode = { handle_codec.decode };

    #[inline(always)]
    fn from_scalar(value: &Value<'_>) -> Option<Self> {
        Some(KindHandle::at(index(value)?))
    }
}

impl Scalar for u8 {
    ghost decode = { byte_codec.decode };

    fn from_scalar(value: &Value<'_>) -> Option<Self> {
        byte(value)
    }
}

impl Scalar for u16 {
    ghost decode = { short_codec.decode };

    fn from_scalar(value: &Value<'_>) -> Option<Self> {
        short(value)
    }
}

impl Scalar for u32 {
    ghost decode = { word_codec.decode };

    fn from_scalar(value: &Value<'_>) -> Option<Self> {
        word(value)
    }
}

impl Scalar for u64 {
    ghost decode = { long_codec.decode };

    fn from_scalar(value: &Value<'_>) -> Option<Self> {
        natural(value)
    }
}

impl Scalar for i16 {
    ghost decode = { (integer_codec 15).decode };

    fn from_scalar(value: &Value<'_>) -> Option<Self> {
        integer_16(value)
    }
}

impl Scalar for i32 {
    ghost decode = { (integer_codec 31).decode };

    fn from_scalar(value: &Value<'_>) -> Option<Self> {
        integer_32(value)
    }
}

impl Scalar for i64 {
    ghost decode = { (integer_codec 63).decode };

    fn from_scalar(value: &Value<'_>) -> Option<Self> {
        integer(value)
    }
}

impl Scalar for bool {
    ghost decode = { boolean_codec.decode };

    fn from_scalar(value: &Value<'_>) -> Option<Self> {
        value.as_bool()
    }
}
