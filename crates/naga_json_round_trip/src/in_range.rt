//! Values whose numbers are in the ranges of their types.
ghost use Rattle.std.specs.Prelude.{◌≡◌, length, All, IfSome};
ghost use Rattle.naga_json.specs.Codec.{byte_codec, handle_codec, integer_codec, long_codec, nonzero_codec, short_codec, word_codec};
ghost use Rattle.naga_json_round_trip.specs.Module.{ValuesFit};

mod declarations;
mod doc_comments;
mod flags;
pub(crate) mod maps;

use naga_arena::{Arena, KindHandle, KindName, UniqueArena};
use std::hash::Hash;
use std::num::NonZeroU32;

/// A type whose values have only numbers in the ranges of their types.
pub(crate) trait InRange {
    // The numbers in a value are in the ranges of their types.
    ghost Fits: { Self → Type 0 };

    /// Reads each number of the value. A contract knows the range of a number only where code reads it.
    fn in_range(&self)
        ensures { Fits self.now };
}

impl InRange for u8 {
    ghost Fits = { byte_codec.Fits };

    fn in_range(&self) {
        let _number = *self;
    }
}

impl InRange for u16 {
    ghost Fits = { short_codec.Fits };

    fn in_range(&self) {
        let _number = *self;
    }
}

impl InRange for u32 {
    ghost Fits = { word_codec.Fits };

    fn in_range(&self) {
        let _number = *self;
    }
}

impl InRange for u64 {
    ghost Fits = { long_codec.Fits };

    fn in_range(&self) {
        let _number = *self;
    }
}

impl InRange for usize {
    ghost Fits = { long_codec.Fits };

    fn in_range(&self) {
        let _number = *self;
    }
}

impl InRange for i16 {
    ghost Fits = { (integer_codec 15).Fits };

    fn in_range(&self) {
        let _number = *self;
    }
}

impl InRange for i32 {
    ghost Fits = { (integer_codec 31).Fits };

    fn in_range(&self) {
        let _number = *self;
    }
}

impl InRange for i64 {
    ghost Fits = { (integer_codec 63).Fits };

    fn in_range(&self) {
        let _number = *self;
    }
}

impl InRange for NonZeroU32 {
    ghost Fits = { nonzero_codec.Fits };

    fn in_range(&self) {
        let _number = self.get();
    }
}

/// Returns a copy of a value.
fn copied<T: Copy>(value: &T) -> T
    ensures { result ≡ value.now }
{
    *value
}

impl<K> InRange for KindHandle<K> {
    ghost Fits = { handle_codec.Fits };

    fn in_range(&self) {
        let _index = copied(self).index();
    }
}

impl<T: InRange> InRange for Option<T> {
    ghost Fits = { λ value. IfSome value T.Fits };

    fn in_range(&self) {
        if let Some(value) = self {
            value.in_range();
        }
    }
}

impl<T: InRange> InRange for Box<T> {
    ghost Fits = { λ held. T.Fits held.value };

    fn in_range(&self) {
        (**self).in_range();
    }
}

/// Reads each number of each value.
pub(crate) fn each_in_range<T: InRange>(values: &[T])
    ensures { All T.Fits values.now }
{
    for value in values {
        value.in_range();
    }
}

/// Shows the length of an array, which a contract knows only of an array that is an argument.
pub(crate) fn has_its_length<T, const N: usize>(values: &[T; N])
    ensures { length values.now ≡ N }
{}

impl<T: InRange> InRange for Vec<T> {
    ghost Fits = { λ list. All T.Fits list.items };

    fn in_range(&self) {
        each_in_range(self.as_slice());
    }
}

impl<T: InRange> InRange for Arena<T> {
    ghost Fits = { ValuesFit T.Fits };

    fn in_range(&self) {
        each_in_range(self.as_slice());
        let _len = self.len();
    }
}

impl<T: InRange + Eq + Hash + KindName> InRange for UniqueArena<T> {
    ghost Fits = { ValuesFit T.Fits };

    fn in_range(&self) {
        let _len = self.len();
        for (_, value) in self.iter() {
            value.in_range();
        }
    }
}
