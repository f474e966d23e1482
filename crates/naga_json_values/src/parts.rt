//! Values that are read without an allocation, and fields that hold them.
ghost use Rattle.std.specs.Prelude.{◌≡◌};
ghost use Rattle.std.specs.Result.{result_ok};
ghost use Rattle.json.specs.Value.{value_view};
ghost use Rattle.naga_json_values.specs.StructParts.{Part, optional, part_at, required};

use crate::cause::Cause;
use crate::objects::{field, present};
use json::Value;

/// A type whose values are read without an allocation, each as it is written.
///
/// `FromJson` of naga_json_read reads these types too.
pub trait Coded: Drop {
    ghost use Rattle.naga_json.specs.Codec.{Codec};

    // How a value is written and read.
    ghost codec: { Codec Self };

    /// Reads a value.
    ///
    /// Nothing is allocated, so the cause of an error is never [`Cause::Memory`].
    fn read_value(value: &Value<'_>) -> Result<Self, Cause>
        ensures { result_ok result ≡ codec.decode (value_view value.now) };
}

/// A type of what a field holds: a value, or an `Option` of one that may be missing or null.
pub trait Field: Drop {
    // What the field holds.
    ghost holds: { Part Self };

    /// Reads a field.
    fn read_field(value: &Value<'_>, name: &str) -> Result<Self, Cause>
        ensures { result_ok result ≡ part_at holds name.now (value_view value.now) };
}

impl<T: Coded> Field for T {
    ghost holds = { required T.codec };

    fn read_field(value: &Value<'_>, name: &str) -> Result<Self, Cause> {
        T::read_value(field(value, name)?)
    }
}

impl<T: Coded> Field for Option<T> {
    ghost holds = { optional T.codec };

    fn read_field(value: &Value<'_>, name: &str) -> Result<Self, Cause> {
        match present(value, name) {
            Some(found) => Ok(Some(T::read_value(found)?)),
            None => Ok(None),
        }
    }
}
