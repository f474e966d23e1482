//! The reason why a JSON value is none of a type.
ghost use Rattle.std.specs.Fmt.{DisplaysOnOk};
ghost use Rattle.naga_schema.specs.Messages.{named_text, unknown_text};
ghost use Rattle.naga_schema.specs.Path.{allowed_names};

use crate::allowed::{Allowed, write_allowed};
use crate::leaf::Leaf;
use crate::schema::Length;
use std::fmt;

/// The reason why a JSON value by itself is none of a type. Names are those of the text.
#[derive(Clone, Copy, Debug, PartialEq, Eq, Drop)]
pub enum Mismatch<'a> {
    /// The value is not one of these.
    Leaf(Leaf),
    /// The value is not a list of this length.
    List(Length),
    /// The value is not an object.
    Object,
    /// The value is neither a string nor an object with one member.
    Variant,
    /// The object does not have this field, which is not optional.
    MissingField(&'a str),
    /// The object has this field, which its type does not have, and those are the type's fields.
    UnknownField(&'a str, Allowed),
    /// The object has this field twice.
    RepeatedField(&'a str),
    /// The enum does not have this variant, and those are its variants.
    UnknownVariant(&'a str, Allowed),
    /// This variant holds a value, and none is there.
    WithoutValue(&'a str),
    /// This variant holds no value, and one is there.
    WithValue(&'a str),
    /// This key is not a natural number, or it is out of range.
    Key(&'a str),
    /// The object has this key twice.
    RepeatedKey(&'a str),
    /// The start of a range is greater than its end.
    Range,
    /// Blocks are nested too deeply.
    Nesting,
}

/// The greatest number of bytes of a name that is shown.
const SHOWN: usize = 64;

/// A name of a text, of which the front is shown.
#[derive(Drop)]
pub(crate) struct Shown<'a>(pub(crate) &'a str);

impl fmt::Display for Shown<'_> {
    ghost use Rattle.naga_schema.specs.Messages.{shown_text};

    ghost output = { λ name. shown_text name.0.now };

    fn fmt<W: fmt::Write>(&self, f: &mut fmt::Formatter<W>) -> fmt::Result {
        let name = self.0;
        if name.len() <= SHOWN {
            return write!(f, "{name:?}");
        }
        let (front, _) = name.split_at(name.floor_char_boundary(SHOWN));
        write!(f, "{front:?}...")
    }
}

impl fmt::Display for Length {
    ghost use Rattle.std.specs.Prelude.{Some};
    ghost use Rattle.naga_schema.specs.Messages.{length_text};

    ghost output = { λ length. Some (length_text length) };

    fn fmt<W: fmt::Write>(&self, f: &mut fmt::Formatter<W>) -> fmt::Result {
        match self {
            Length::Any => f.write_str("a list"),
            Length::AtMost(greatest) => write!(f, "a list of at most {greatest} items"),
            Length::Exactly(exact) => write!(f, "a list of {exact} items"),
        }
    }
}

impl fmt::Display for Mismatch<'_> {
    ghost use Rattle.naga_schema.specs.Messages.{blame_text};
    ghost use Rattle.naga_schema.specs.Path.{blame_of};

    ghost output = { λ cause. blame_text (blame_of cause) };

    fn fmt<W: fmt::Write>(&self, f: &mut fmt::Formatter<W>) -> fmt::Result {
        match self {
            Mismatch::Leaf(leaf) => write!(f, "expected {leaf}"),
            Mismatch::List(length) => write!(f, "expected {length}"),
            Mismatch::Object => f.write_str("expected an object"),
            Mismatch::Variant => {
                f.write_str("expected the name of a variant, or an object with only this name")
            }
            Mismatch::MissingField(name) => named(f, "missing field", name),
            Mismatch::UnknownField(name, allowed) => unknown(f, "unknown field", name, allowed),
            Mismatch::RepeatedField(name) => named(f, "repeated field", name),
            Mismatch::UnknownVariant(name, allowed) => {
                unknown(f, "unknown variant", name, allowed)
            }
            Mismatch::WithoutValue(name) => named(f, "no value in variant", name),
            Mismatch::WithValue(name) => named(f, "a value in variant", name),
            Mismatch::Key(name) => named(f, "expected an integer as a key, not", name),
            Mismatch::RepeatedKey(name) => named(f, "repeated key", name),
            Mismatch::Range => f.write_str("the start of the range is greater than its end"),
            Mismatch::Nesting => f.write_str("blocks are nested too deeply"),
        }
    }
}

/// Writes what is the case with a name.
fn named<W: fmt::Write>(f: &mut fmt::Formatter<W>, what: &str, name: &str) -> fmt::Result
    ensures { DisplaysOnOk W.write_str_gives f.old result (named_text what.now name.now) f.new }
{
    f.write_str(what)?;
    write!(f, " {}", Shown(name))
}

/// Writes what is the case with a name that is none of those that are allowed, and these.
fn unknown<W: fmt::Write>(
    f: &mut fmt::Formatter<W>,
    what: &str,
    name: &str,
    allowed: &Allowed,
) -> fmt::Result
    ensures { DisplaysOnOk W.write_str_gives f.old result
        (unknown_text what.now name.now (allowed_names allowed.now)) f.new }
{
    named(f, what, name)?;
    write_allowed(f, allowed)
}
