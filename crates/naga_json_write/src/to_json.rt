//! Values that are written as JSON.
ghost use Rattle.std.specs.Prelude.{◌≡◌, string_bytes};
ghost use Rattle.naga_json_write.specs.Appends.{Appends};
ghost use Rattle.naga_json.specs.Codec.{boolean_codec, byte_codec, handle_codec, integer_codec, long_codec, nonzero_codec, short_codec, text_codec, word_codec};
ghost use Rattle.naga_json_write.specs.Encoding.{by_view, direct, json_of, option_encoding};
ghost use Rattle.naga_json_write.specs.Writes.{AppendsSome, Refuses};

use crate::write_error::TryWriteError;
use crate::writer::Writer;
use naga_arena::KindHandle;
use std::alloc::AllocError;
use std::num::NonZeroU32;

/// A type whose values all have a JSON.
///
/// Differs from naga: naga implements serde's `Serialize`.
pub trait ToJson {
    ghost use Rattle.naga_json_write.specs.Encoding.{Encoding};

    // How a value is written.
    ghost encoding: { Encoding Self };

    /// Appends the JSON of the value.
    fn write(&self, out: &mut Writer) -> Result<(), AllocError>
        ensures before { out.new.before ≡ out.old.before }
        ensures tokens { Appends result out.old out.new (json_of encoding self.now) };
}

/// A type of which some values have no JSON.
///
/// Differs from naga: naga implements serde's `Serialize`.
pub trait TryToJson {
    ghost use Rattle.naga_json_write.specs.Encoding.{Writing};

    // How a value is written, if it has a JSON.
    ghost writing: { Writing Self };

    /// Appends the JSON of the value.
    ///
    /// Fails if the value has no JSON, or if an allocation fails. Some tokens may have been appended then.
    fn try_write(&self, out: &mut Writer) -> Result<(), TryWriteError>
        ensures before { out.new.before ≡ out.old.before }
        ensures written { AppendsSome (writing.Writes (writing.value_of self.now)) result out.old out.new }
        ensures refused { Refuses (writing.Writes (writing.value_of self.now)) result };
}

impl ToJson for u8 {
    ghost encoding = { direct byte_codec.encode };

    fn write(&self, out: &mut Writer) -> Result<(), AllocError> {
        out.u64(u64::from(*self))
    }
}

impl ToJson for u16 {
    ghost encoding = { direct short_codec.encode };

    fn write(&self, out: &mut Writer) -> Result<(), AllocError> {
        out.u64(u64::from(*self))
    }
}

impl ToJson for u32 {
    ghost encoding = { direct word_codec.encode };

    fn write(&self, out: &mut Writer) -> Result<(), AllocError> {
        out.u64(u64::from(*self))
    }
}

impl ToJson for NonZeroU32 {
    ghost encoding = { direct nonzero_codec.encode };

    fn write(&self, out: &mut Writer) -> Result<(), AllocError> {
        out.u64(u64::from(self.get()))
    }
}

impl ToJson for u64 {
    ghost encoding = { direct long_codec.encode };

    fn write(&self, out: &mut Writer) -> Result<(), AllocError> {
        out.u64(*self)
    }
}

impl ToJson for i16 {
    ghost encoding = { direct (integer_codec 15).encode };

    fn write(&self, out: &mut Writer) -> Result<(), AllocError> {
        out.i64(i64::from(*self))
    }
}

impl ToJson for i32 {
    ghost encoding = { direct (integer_codec 31).encode };

    fn write(&self, out: &mut Writer) -> Result<(), AllocError> {
        out.i64(i64::from(*self))
    }
}

impl ToJson for i64 {
    ghost encoding = { direct (integer_codec 63).encode };

    fn write(&self, out: &mut Writer) -> Result<(), AllocError> {
        out.i64(*self)
    }
}

impl ToJson for bool {
    ghost encoding = { direct boolean_codec.encode };

    fn write(&self, out: &mut Writer) -> Result<(), AllocError> {
        out.boolean(*self)
    }
}

impl ToJson for String {
    ghost encoding = { by_view string_bytes text_codec.encode };

    fn write(&self, out: &mut Writer) -> Result<(), AllocError> {
        out.string(self.as_str())
    }
}

/// Returns a copy of a value.
pub(crate) fn copied<T: Copy>(value: &T) -> T
    ensures { result ≡ value.now }
{
    *value
}

impl<K> ToJson for KindHandle<K> {
    ghost encoding = { direct handle_codec.encode };

    fn write(&self, out: &mut Writer) -> Result<(), AllocError> {
        out.u64(copied(self).index() as u64)
    }
}

#[tactic(auto, using(crate::proofs::EncodingLemmas::option_some, crate::proofs::EncodingLemmas::option_none))]
impl<T: ToJson> ToJson for Option<T> {
    ghost encoding = { option_encoding T.encoding };

    fn write(&self, out: &mut Writer) -> Result<(), AllocError> {
        match self {
            Some(value) => value.write(out),
            None => out.null(),
        }
    }
}
