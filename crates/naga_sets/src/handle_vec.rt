//! Vectors indexed by handles.
ghost use Rattle.std.specs.Prelude.{◌≡◌, ◌<◌, ◌==◌, ◌++◌, ◌∷◌, [], Some, OnOk, OnErr, IfOk, length, slice_get, option_copied};
ghost use Rattle.std.specs.Option.{option_copied_mut};
ghost use Rattle.std.specs.Borrow.{sem};
ghost use Rattle.naga_sets.specs.HandleVec.{resized};

mod iter;

pub use iter::HandleVecIter;
use naga_arena::{Handle, KindName};
use std::alloc::{AllocError, Global};
use std::marker::{Model, PhantomData};
use std::{fmt, ops};

/// A vector indexed by [`Handle`]s.
///
/// A `HandleVec<T, U>` is a `Vec<U>` whose indices are of type `Handle<T>` instead of `usize`. It grows only at the
/// end, and [`insert`] takes the handle at which the new value should appear, so that handles and values cannot get out
/// of step.
///
/// In contracts, a vector is the list of its values.
///
/// [`insert`]: HandleVec::insert
#[derive(Drop)]
pub struct HandleVec<T, U> {
    inner: Vec<U>,
    as_keys: PhantomData<T>,
}

impl<T, U> Model for HandleVec<T, U> {
    ghost use Rattle.std.specs.Prelude.{List};

    ghost Value = { List U };

    ghost view = { λ v. v.inner.items };
}

impl<T: KindName, U> HandleVec<T, U> {
    ghost use Rattle.naga_sets.specs.Lends.{lends_value, lends_get};

    /// Creates an empty vector.
    ///
    /// This does not allocate.
    pub fn new(alloc: Global) -> Self
        ensures { result ≡ [] }
    {
        HandleVec {
            inner: Vec::new(alloc),
            as_keys: PhantomData,
        }
    }

    /// Creates an empty vector with capacity for `capacity` values.
    ///
    /// Returns `Err` if allocation fails.
    pub fn with_capacity(alloc: Global, capacity: usize) -> Result<Self, AllocError>
        ensures { IfOk result (λ values. values ≡ []) }
    {
        Ok(HandleVec {
            inner: Vec::with_capacity(alloc, capacity)?,
            as_keys: PhantomData,
        })
    }

    /// Returns the number of values.
    pub fn len(&self) -> usize
        ensures { result ≡ length self.now }
    {
        self.inner.len()
    }

    /// Returns whether there are no values.
    ///
    /// Differs from naga: naga has no such method.
    pub fn is_empty(&self) -> bool
        ensures { result ≡ (length self.now == 0) }
    {
        self.inner.is_empty()
    }

    /// Appends the value for a handle.
    ///
    /// Returns `Err` if allocation fails. The vector is then unchanged and `value` is dropped.
    ///
    /// The caller must ensure that the index of `handle` is the length of the vector.
    ///
    /// Differs from naga: naga panics if it is not.
    pub fn insert(&mut self, handle: Handle<T>, value: U) -> Result<(), AllocError>
    where
        U: Drop,
        requires { handle ≡ length self.old }
        ensures inserted { OnOk result (self.new ≡ self.old ++ value ∷ []) }
        ensures unchanged { OnErr result (self.new ≡ self.old) }
    {
        prove_eq!(handle.index(), self.inner.len());
        self.inner.push(value)?;
        Ok(())
    }

    /// Returns a reference to the value for a handle, or `None` if there is none.
    pub fn get(&self, handle: Handle<T>) -> Option<&U>
        ensures { option_copied result ≡ slice_get self.now handle }
    {
        self.inner.get(handle.index())
    }

    /// Returns a mutable reference to the value for a handle, or `None` if there is none.
    ///
    /// Differs from naga: naga has `iter_mut` instead.
    pub fn get_mut(&mut self, handle: Handle<T>) -> Option<&mut U>
        ensures* writes_back { sem 𝓛 (lends_get T.row U.row self.entry handle result) }
        ensures value { option_copied_mut result ≡ slice_get self.old handle }
    {
        self.inner.get_mut(handle.index())
    }

    /// Removes all values.
    pub fn clear(&mut self)
    where
        U: Drop,
        ensures { self.new ≡ [] }
    {
        self.inner.clear();
    }

    /// Truncates the vector to `len` values, or appends clones of `fill` until there are `len` values.
    ///
    /// Returns `Err` if allocation fails. The vector is then unchanged.
    ///
    /// The caller must ensure that every clone of `fill` is identical to `fill`.
    ///
    /// Differs from naga: naga has no such precondition.
    pub fn resize(&mut self, len: usize, fill: U) -> Result<(), AllocError>
    where
        U: Clone + Drop,
        requires { (copy : U) → U.is_clone fill copy → copy ≡ fill }
        ensures resized { OnOk result (self.new ≡ resized self.old len fill) }
        ensures unchanged { OnErr result (self.new ≡ self.old) }
    {
        self.inner.resize(len, fill)?;
        Ok(())
    }

    /// Returns an iterator over the values, in the order of their handles.
    pub fn iter(&self) -> HandleVecIter<'_, U>
        ensures { result ≡ self.now }
    {
        HandleVecIter::new(self.inner.as_slice())
    }
}

/// Returns a reference to the value for a handle.
///
/// The caller must ensure that there is a value for the handle.
///
/// Differs from naga: naga panics if there is none.
impl<T: KindName, U> ops::Index<Handle<T>> for HandleVec<T, U> {
    type Output = U;

    ghost can_index = { λ values handle. handle < length values };

    ghost index_gives = { λ values handle value. slice_get values handle ≡ Some value };

    fn index(&self, handle: Handle<T>) -> &U {
        &self.inner[handle.index()]
    }
}

impl<T: KindName, U> ops::IndexMut<Handle<T>> for HandleVec<T, U> {
    ghost use Rattle.naga_sets.specs.Lends.{lends_value};

    fn index_mut(&mut self, handle: Handle<T>) -> &mut U
        requires { handle < length self.old }
        ensures* writes_back { sem 𝓛 (lends_value T.row U.row self.entry handle result) }
        ensures value { slice_get self.old handle ≡ Some result.now }
    {
        &mut self.inner[handle.index()]
    }
}

/// Formats the vector as a list of its values, in the order of their handles.
impl<T: KindName, U: fmt::Debug> fmt::Debug for HandleVec<T, U> {
    fn fmt<W: fmt::Write>(&self, f: &mut fmt::Formatter<W>) -> fmt::Result {
        f.debug_list().entries(self.iter()).finish()
    }
}
