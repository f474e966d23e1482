//! Enums, whose variants are names, or objects with one member.
ghost use Rattle.std.specs.Prelude.{◌≡◌, IfSome, Some};
ghost use Rattle.naga_json.specs.Objects.{choose, find_row};
ghost use Rattle.naga_json_tokens.specs.Takes.{Takes};
ghost use Rattle.naga_json_tokens.specs.TakesVariants.{holder_by, variant_by};

use crate::reader::Reader;
use crate::tokens::{take_begin, take_end, take_name};
use json::Token;
use std::alloc::Global;

/// An enum: its variants that are names alone, and those that contain data.
pub(crate) trait Variants: Drop {
    ghost use Rattle.std.specs.Prelude.{ℕ, List, Option};
    ghost use Rattle.json.specs.Json.{Json};

    // What a JSON represents.
    ghost Meaning: { Type 0 };

    // A value without the spare capacity of its lists.
    ghost value_of: { Self → Meaning };

    // The variants that are names alone.
    ghost names: { List (List ℕ × Meaning) };

    // The variants that contain data, if they hold this JSON.
    ghost rows: { Json → List (List ℕ × Option Meaning) };

    /// Returns the variant of this name, which is a name alone.
    fn named(name: &str) -> Option<Self>
        ensures { IfSome result (λ found. find_row names name.now ≡ Some (value_of found)) };

    /// Takes what the variant of this name holds.
    fn take_held(alloc: Global, reader: &mut Reader<'_>, name: &str) -> Option<Self>
        ensures { IfSome result (λ found. Takes (λ held. choose (rows held) name.now) (value_of found)
            reader.old reader.new) };
}

/// Takes a variant that contains data.
pub(crate) fn take_holder<T: Variants>(alloc: Global, reader: &mut Reader<'_>) -> Option<T>
    ensures { IfSome result (λ found. Takes (holder_by T.rows) (T.value_of found)
        reader.old reader.new) }
{
    take_begin(reader)?;
    let name = take_name(reader)?;
    let found = T::take_held(alloc, reader, name)?;
    take_end(reader)?;
    Some(found)
}

/// Takes a variant.
pub(crate) fn take_variant<T: Variants>(alloc: Global, reader: &mut Reader<'_>) -> Option<T>
    ensures { IfSome result (λ found. Takes (variant_by T.names T.rows) (T.value_of found)
        reader.old reader.new) }
{
    match reader.next()? {
        Token::String(name) => T::named(name),
        Token::BeginObject => {
            let name = take_name(reader)?;
            let found = T::take_held(alloc, reader, name)?;
            take_end(reader)?;
            Some(found)
        }
        _ => None,
    }
}
