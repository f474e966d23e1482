//! The reason why a JSON value represents nothing.
ghost use Rattle.std.specs.Prelude.{◌≡◌};
ghost use Rattle.naga_json_values.specs.Cause.{cause_of};
ghost use Rattle.naga_json_values.specs.declared.cause.Cause.TheVariants.{Memory};

use naga_arena::ArenaError;
use std::alloc::{AllocError, AllocFailed};
use std::error::Error;
use std::fmt;

/// The reason why a JSON value was not read as a value of one of naga's types.
#[derive(Clone, Copy, Debug, PartialEq, Eq, Drop)]
pub enum Cause {
    /// An allocation failed.
    Memory,
    /// The value is not an integer, or it is out of range.
    Integer,
    /// The value is not a number, or the float nearest to it is infinite.
    Float,
    /// The value is not `true` or `false`.
    Boolean,
    /// The value is not a string.
    Text,
    /// The string does not consist of names of flags with bars between them.
    Flags,
    /// The value is not a list, or the list does not have the right length.
    List,
    /// The type at this position is the same as an earlier one.
    RepeatedType(usize),
    /// The value is not an object.
    Object,
    /// The start of a range is greater than its end.
    Range,
    /// Blocks are nested too deeply.
    Nesting,
    /// The value is neither a string nor an object with one member.
    Variant,
    /// The enum has no variant with this name, or the variant does not hold a value, or it does and none is there.
    UnknownVariant,
    /// The object does not have a field that is not optional.
    MissingField,
    /// The object has a field that its type does not have, or it has a field twice.
    UnknownField,
}

impl fmt::Display for Cause {
    ghost use Rattle.std.specs.Prelude.{Some};
    ghost use Rattle.naga_json_values.specs.Messages.{cause_text};

    ghost output = { λ cause. Some (cause_text cause) };

    fn fmt<W: fmt::Write>(&self, f: &mut fmt::Formatter<W>) -> fmt::Result {
        match self {
            Cause::Memory => f.write_str("out of memory"),
            Cause::Integer => f.write_str("expected an integer in the range of its type"),
            Cause::Float => f.write_str("expected a finite number"),
            Cause::Boolean => f.write_str("expected a boolean"),
            Cause::Text => f.write_str("expected a string"),
            Cause::Flags => f.write_str("expected names of flags"),
            Cause::List => f.write_str("expected a list of the right length"),
            Cause::RepeatedType(position) => { write!(f, "types[{position}]: the same type twice") }
            Cause::Object => f.write_str("expected an object"),
            Cause::Range => f.write_str("expected a range whose start is at most its end"),
            Cause::Nesting => f.write_str("blocks are nested too deeply"),
            Cause::Variant => f.write_str(
                "expected the name of a variant, or an object with only this name",
            ),
            Cause::UnknownVariant => f.write_str("unknown variant"),
            Cause::MissingField => f.write_str("missing field"),
            Cause::UnknownField => f.write_str("unknown or repeated field"),
        }
    }
}

impl Error for Cause {}

impl From<AllocError> for Cause {
    ghost from_gives = { λ _ cause. cause ≡ Memory };

    fn from(_error: AllocError) -> Self {
        Cause::Memory
    }
}

impl<T: Drop> From<AllocFailed<T>> for Cause {
    ghost from_gives = { λ _ cause. cause ≡ Memory };

    fn from(_error: AllocFailed<T>) -> Self {
        Cause::Memory
    }
}

impl From<ArenaError> for Cause {
    ghost from_gives = { λ error cause. cause ≡ cause_of error };

    fn from(error: ArenaError) -> Self {
        match error {
            ArenaError::Full => Cause::List,
            ArenaError::Memory => Cause::Memory,
        }
    }
}
