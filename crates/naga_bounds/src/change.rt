//! What becomes of an expression when accesses are clamped.
ghost use Rattle.std.specs.Prelude.{◌≡◌, ◌≤◌, length};
ghost use Rattle.naga_bounds.specs.Restricted.{conversion, front_count, front_of_index, front_of_length, last_index, width};
ghost use Rattle.naga_compact.specs.Renaming.{unchanged};

use crate::length::Length;
use naga_arena::Handle;
use naga_ir::Expression;

/// The index of an access that is clamped.
#[derive(Clone, Copy)]
pub(crate) enum ClampedIndex {
    /// An index that the access contains. It becomes a literal.
    Constant(u32),
    /// The value of an expression of type `u32`.
    Unsigned(Handle<Expression>),
    /// The value of an expression of another type, which is converted to `u32`.
    Converted(Handle<Expression>),
}

/// An access whose index becomes the minimum of the old index and the last index of its base.
#[derive(Clone, Copy)]
pub(crate) struct Clamp {
    pub(crate) length: Length,
    pub(crate) base: Handle<Expression>,
    pub(crate) index: ClampedIndex,
}

/// What becomes of an expression.
#[derive(Clone, Copy)]
pub(crate) enum Change {
    /// It stays, with new handles in place of its old ones.
    Stays,
    /// It is an access that is clamped.
    Clamped(Clamp),
}

/// Returns how many expressions are at the front of the arena for an index.
pub(crate) fn front_count_of_index(index: &ClampedIndex) -> usize
    ensures { result ≡ length (front_of_index index.now) }
{
    match index {
        ClampedIndex::Constant(_) => 1,
        ClampedIndex::Unsigned(_) => 0,
        ClampedIndex::Converted(_) => 0,
    }
}

/// Returns how many expressions are at the front of the arena for a length.
fn front_count_of_length(long: &Length) -> usize
    ensures { result ≡ length (front_of_length long.now) }
{
    match long {
        Length::Fixed(_) => 1,
        Length::Overridden(_) => 2,
        Length::Counted => 1,
    }
}

/// Returns how many expressions are inserted for a length.
fn inserted_for_length(long: &Length) -> usize
    ensures { result ≡ length (last_index unchanged long.now 0 0 0) }
{
    match long {
        Length::Fixed(_) => 0,
        Length::Overridden(_) => 1,
        Length::Counted => 2,
    }
}

/// Returns how many expressions are inserted for an index.
fn inserted_for_index(index: &ClampedIndex) -> usize
    ensures { result ≡ length (conversion unchanged index.now) }
{
    match index {
        ClampedIndex::Constant(_) => 0,
        ClampedIndex::Unsigned(_) => 0,
        ClampedIndex::Converted(_) => 1,
    }
}

impl Change {
    /// Returns how many expressions are at the front of the arena for this change.
    pub(crate) fn front_count(&self) -> usize
        ensures value { result ≡ front_count self.now }
        ensures bound { result ≤ 3 }
    {
        match self {
            Change::Stays => 0,
            Change::Clamped(clamp) => {
                front_count_of_index(&clamp.index) + front_count_of_length(&clamp.length)
            }
        }
    }

    /// Returns how many expressions are in the place of one with this change.
    pub(crate) fn width(&self) -> usize
        ensures value { result ≡ width self.now }
        ensures bound { result ≤ 5 }
    {
        match self {
            Change::Stays => 1,
            Change::Clamped(clamp) => {
                inserted_for_length(&clamp.length) + inserted_for_index(&clamp.index) + 2
            }
        }
    }
}
