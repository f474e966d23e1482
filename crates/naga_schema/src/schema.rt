//! What the JSON of a type consists of.

use crate::derived::type_name::TypeName;
use crate::leaf::Leaf;

/// How many items a list has.
#[derive(Clone, Copy, Debug, PartialEq, Eq)]
pub enum Length {
    /// Any number.
    Any,
    /// At most this number.
    AtMost(usize),
    /// Exactly this number.
    Exactly(usize),
}

/// Whether a field must be there.
#[derive(Clone, Copy, Debug, PartialEq, Eq)]
pub enum Presence {
    /// The field must be there.
    Required,
    /// The field may be missing or `null`.
    Optional,
}

/// A field of a struct: its name, whether it must be there, and the type of its value.
pub type Field = (&'static str, Presence, TypeName);

/// A variant of an enum that holds a value: its name, and the type of the value that it holds.
pub type Variant = (&'static str, TypeName);

/// What the JSON of a type consists of.
#[derive(Clone, Copy)]
pub enum Schema {
    /// A value that contains no other value.
    Leaf(Leaf),
    /// A list.
    List(Length, TypeName),
    /// A list of statements. It is one level deeper than the list in which it is.
    Block(TypeName),
    /// An object whose keys are natural numbers, at most the given one.
    Map(u64, TypeName),
    /// An object with these fields.
    Struct(&'static [Field]),
    /// An object with these fields, of which `start` is at most `end`.
    Range(&'static [Field]),
    /// The name of a variant that holds no value, or an object with only the name of one that holds a value.
    Enum(&'static [&'static str], &'static [Variant]),
}
