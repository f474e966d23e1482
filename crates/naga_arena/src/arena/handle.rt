//! Handles, which are typed indices into arenas.
ghost use Rattle.std.specs.Prelude.{◌≡◌, ◌<◌, ◌↔◌, ◌++◌, List, ℕ, Some, IsNone, IfSome, codes};
ghost use Rattle.std.specs.Fmt.{WritesOnOk, decimal};
ghost use Rattle.naga_arena.specs.Handle.{handle_text};
ghost use Rattle.naga_arena.specs.Limits.{max_index, max_len};

use crate::non_max_u32::NonMaxU32;
use std::fmt;
use std::marker::{Model, PhantomData};
use thiserror::Error;

/// The index of an element in its arena.
pub type Index = NonMaxU32;

/// A type whose values can be elements of an arena.
pub trait KindName {
    /// The type that represents this one in its handles, so that a type can contain handles to its own values and still
    /// be plain data in contracts.
    ///
    /// It is `Copy`, so that code that is generic over `T: KindName` can use a handle more than once.
    type Kind: Copy;

    /// The short name of the type, for error messages.
    const NAME: &'static str;

    ghost name: { List ℕ };

    /// Returns the short name of the type, for error messages.
    fn kind_name() -> &'static str
        ensures { result.now ≡ name };
}

/// Bytes, the simplest elements for trying out an arena.
impl KindName for u8 {
    type Kind = u8;

    const NAME: &'static str = "u8";

    ghost name = { codes "u8" };

    fn kind_name() -> &'static str {
        Self::NAME
    }
}

/// A reference by index to an element of an arena of values of type `T`.
pub type Handle<T> = KindHandle<<T as KindName>::Kind>;

/// A [`Handle`] to an element of the type that `K` represents.
///
/// In contracts, a handle is its index. Copying, equality, order and hash are those of the index, whatever `K` is.
#[derive_where(Clone, Copy, PartialEq, Eq, PartialOrd, Ord, Hash)]
pub struct KindHandle<K> {
    index: Index,
    marker: PhantomData<K>,
}

impl<K> Model for KindHandle<K> {
    ghost use Rattle.std.specs.Prelude.{ℕ};

    ghost Value = { ℕ };

    ghost view = { λ h. h.index };

    ghost inverse = { λ n. record { index = n; marker = record {} } };
}

impl<K> KindHandle<K> {
    /// Creates a handle to the element with this index.
    pub fn new(index: Index) -> Self
        ensures { result ≡ index }
    {
        KindHandle {
            index,
            marker: PhantomData,
        }
    }

    /// Returns the index of the element.
    pub fn index(self) -> usize
        ensures value { result ≡ self }
        ensures bound { result < max_len }
    {
        self.index.get() as usize
    }

    /// Creates a handle to the element with this index, or returns `None` if `index` is not below `u32::MAX`.
    ///
    /// Differs from naga: naga's function is not public, and panics where this one returns `None`.
    pub fn from_usize(index: usize) -> Option<Self>
        ensures none { IsNone result ↔ (max_index < index) }
        ensures value { IfSome result (λ handle. handle ≡ index) }
    {
        let number = u32::try_from(index).ok()?;
        Some(Self::new(Index::new(number)?))
    }

    /// Creates a handle to the element with this index, which is not checked.
    ///
    /// The caller must ensure that `index` is below `u32::MAX`, as the index of every element of an arena is;
    /// [`from_usize`](Self::from_usize) tests it.
    ///
    /// Differs from naga: naga has no such function.
    pub fn at(index: usize) -> Self
        requires { index < max_len }
        ensures { result ≡ index }
    {
        Self::new(Index::at(index as u32))
    }

    /// Writes `prefix` to `formatter`, followed by the index of the element.
    pub fn write_prefixed<W: fmt::Write>(
        &self,
        formatter: &mut fmt::Formatter<W>,
        prefix: &'static str,
    ) -> fmt::Result
        ensures { WritesOnOk W.write_str_gives formatter.old result
            (prefix.entry.now ++ decimal self.now) formatter.new }
    {
        formatter.write_str(prefix)?;
        fmt::Display::fmt(&self.index, formatter)
    }
}

impl<K> fmt::Debug for KindHandle<K> {
    ghost debug_output = { λ handle. Some (handle_text handle) };

    fn fmt<W: fmt::Write>(&self, f: &mut fmt::Formatter<W>) -> fmt::Result {
        let index = self.index;
        write!(f, "[{index}]")
    }
}

/// The error returned when a handle is not in the arena in which it was looked up.
#[derive(Clone, Copy, Debug, PartialEq, Error)]
#[error("Handle {index} of {kind} is either not present, or inaccessible yet")]
pub struct BadHandle {
    /// The name of the arena's element type.
    pub kind: &'static str,
    /// The index of the handle.
    pub index: usize,
}

impl BadHandle {
    /// Creates the error for this handle to a `T`.
    pub fn new<T: KindName>(handle: Handle<T>) -> Self
        ensures kind { result.kind.now ≡ T.name }
        ensures index { result.index ≡ handle }
    {
        BadHandle {
            kind: T::kind_name(),
            index: handle.index(),
        }
    }
}
