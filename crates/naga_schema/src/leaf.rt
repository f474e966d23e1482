//! Values that contain no other value.
ghost use Rattle.std.specs.Prelude.{◌≡◌};
ghost use Rattle.json.specs.Value.{value_view};
ghost use Rattle.bitflags.specs.Text.{ReadsHex};
ghost use Rattle.naga_schema.specs.Leaf.{accepts_leaf, is_flags, reads_flags};

use crate::derived::kind::Kind;
use crate::numbers::{natural_up_to, nonzero};
use bitflags::Flags;
use bitflags::parser::{ParseHex, from_str};
use json::Value;
use naga_json::numbers::{double, integer, integer_16, integer_32, single};
use naga_kinds::{Barrier, MemoryDecorations, StorageAccess};
use std::fmt;

/// A set of flags, which is written as the names of its flags with bars between them.
#[derive(Clone, Copy, Debug, PartialEq, Eq)]
pub enum FlagSet {
    /// `Barrier`.
    Barrier,
    /// `MemoryDecorations`.
    MemoryDecorations,
    /// `StorageAccess`.
    StorageAccess,
}

impl FlagSet {
    /// Returns `true` if the text represents a set of these flags.
    #[tactic(auto, unfolding(crate::specs::Leaf::is_flags))]
    pub fn is_written_as(self, text: &str) -> bool
        ensures { result ≡ is_flags self text.now }
    {
        match self {
            FlagSet::Barrier => reads::<Barrier>(text),
            FlagSet::MemoryDecorations => reads::<MemoryDecorations>(text),
            FlagSet::StorageAccess => reads::<StorageAccess>(text),
        }
    }
}

/// Returns `true` if the text represents a set of flags of this type.
fn reads<B: Flags>(text: &str) -> bool
where
    <B as Flags>::Bits: ParseHex,
    ensures { B.exact → ReadsHex B.Bits.parse_hex_gives B.Bits.pattern B.Bits.size
        → result ≡ reads_flags B.table B.Bits.size text.now }
{
    from_str::<B>(text).is_ok()
}

/// A value that contains no other value.
#[derive(Clone, Copy, Debug, PartialEq, Eq)]
pub enum Leaf {
    /// A natural number, at most this one.
    Natural(u64),
    /// `null`, or a natural number, at most this one.
    OptionalNatural(u64),
    /// A number of 32 bits that is not 0.
    NonZero,
    /// A signed integer of 16 bits.
    Integer16,
    /// A signed integer of 32 bits.
    Integer32,
    /// A signed integer of 64 bits.
    Integer64,
    /// A number of which the nearest float of 32 bits is finite.
    Float32,
    /// A number of which the nearest float of 64 bits is finite.
    Float64,
    /// A boolean.
    Boolean,
    /// A text.
    Text,
    /// The names of flags.
    Flags(FlagSet),
    /// The name of a variant of a kind.
    Kind(Kind),
}

impl Leaf {
    /// Returns `true` if the value is one of these.
    #[tactic(auto, unfolding(crate::specs::Leaf::accepts_leaf))]
    pub fn accepts(self, value: &Value<'_>) -> bool
        ensures { result ≡ accepts_leaf self (value_view value.now) }
    {
        match self {
            Leaf::Natural(greatest) => natural_up_to(value, greatest).is_some(),
            Leaf::OptionalNatural(greatest) => {
                value.is_null() || natural_up_to(value, greatest).is_some()
            }
            Leaf::NonZero => nonzero(value).is_some(),
            Leaf::Integer16 => integer_16(value).is_some(),
            Leaf::Integer32 => integer_32(value).is_some(),
            Leaf::Integer64 => integer(value).is_some(),
            Leaf::Float32 => single(value).is_some(),
            Leaf::Float64 => double(value).is_some(),
            Leaf::Boolean => value.as_bool().is_some(),
            Leaf::Text => value.as_str().is_some(),
            Leaf::Flags(set) => is_flags(set, value),
            Leaf::Kind(kind) => is_kind(kind, value),
        }
    }
}

impl fmt::Display for FlagSet {
    ghost use Rattle.std.specs.Prelude.{Some};
    ghost use Rattle.naga_schema.specs.Messages.{flag_set_text};

    ghost output = { λ set. Some (flag_set_text set) };

    fn fmt<W: fmt::Write>(&self, f: &mut fmt::Formatter<W>) -> fmt::Result {
        f.write_str(match self {
            FlagSet::Barrier => "STORAGE, WORK_GROUP, SUB_GROUP or TEXTURE",
            FlagSet::MemoryDecorations => "COHERENT or VOLATILE",
            FlagSet::StorageAccess => "LOAD, STORE or ATOMIC",
        })
    }
}

impl fmt::Display for Leaf {
    ghost use Rattle.std.specs.Prelude.{Some};
    ghost use Rattle.naga_schema.specs.Messages.{leaf_text};

    ghost output = { λ leaf. Some (leaf_text leaf) };

    fn fmt<W: fmt::Write>(&self, f: &mut fmt::Formatter<W>) -> fmt::Result {
        match self {
            Leaf::Natural(greatest) => write!(f, "an integer from 0 to {greatest}"),
            Leaf::OptionalNatural(greatest) => {
                write!(f, "null or an integer from 0 to {greatest}")
            }
            Leaf::NonZero => f.write_str("an integer from 1 to 4294967295"),
            Leaf::Integer16 => f.write_str("an integer from -32768 to 32767"),
            Leaf::Integer32 => f.write_str("an integer from -2147483648 to 2147483647"),
            Leaf::Integer64 => {
                f.write_str("an integer from -9223372036854775808 to 9223372036854775807")
            }
            Leaf::Float32 => f.write_str("a finite number of 32 bits"),
            Leaf::Float64 => f.write_str("a finite number"),
            Leaf::Boolean => f.write_str("true or false"),
            Leaf::Text => f.write_str("a string"),
            Leaf::Flags(set) => write!(f, "names of flags ({set}) with bars between them"),
            Leaf::Kind(_) => f.write_str("the name of a variant"),
        }
    }
}

/// Returns `true` if the value is a text of a set of these flags.
#[tactic(auto, unfolding(crate::specs::Leaf::accepts_leaf))]
fn is_flags(set: FlagSet, value: &Value<'_>) -> bool
    ensures { result ≡ accepts_leaf (Leaf.Flags set) (value_view value.now) }
{
    match value.as_str() {
        Some(text) => set.is_written_as(text),
        None => false,
    }
}

/// Returns `true` if the value is the name of a variant of the kind.
#[tactic(auto, unfolding(crate::specs::Leaf::accepts_leaf))]
fn is_kind(kind: Kind, value: &Value<'_>) -> bool
    ensures { result ≡ accepts_leaf (Leaf.Kind kind) (value_view value.now) }
{
    match value.as_str() {
        Some(name) => kind.has(name),
        None => false,
    }
}
