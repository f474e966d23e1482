//! Kinds without data, which are written as the names of their variants.
ghost use Rattle.naga_json.specs.Kinds.{kind_codec};

use crate::cause::Cause;
use crate::parts::Coded;
use json::Value;
use naga_kinds::PlainKind;

/// A kind without data that is the value of a field.
pub(crate) trait Kind: PlainKind + Drop {}

impl<T: Kind> Coded for T {
    ghost codec = { kind_codec T.name_of T.in_order };

    fn read_value(value: &Value<'_>) -> Result<Self, Cause> {
        let name = value.as_str().ok_or(Cause::Variant)?;
        T::from_name(name).ok_or(Cause::UnknownVariant)
    }
}
