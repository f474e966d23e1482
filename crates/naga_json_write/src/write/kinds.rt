//! Kinds without data, which are written as the names of their variants.
ghost use Rattle.naga_json.specs.Kinds.{kind_codec};
ghost use Rattle.naga_json_write.specs.Encoding.{direct};

use crate::to_json::{ToJson, copied};
use crate::writer::Writer;
use naga_kinds::PlainKind;
use std::alloc::AllocError;

/// A kind without data.
pub trait Kind: PlainKind {}

impl<T: Kind> ToJson for T {
    ghost encoding = { direct (kind_codec T.name_of T.in_order).encode };

    fn write(&self, out: &mut Writer) -> Result<(), AllocError> {
        out.string(copied(self).name())
    }
}
