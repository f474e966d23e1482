//! [`TryClone`], a trait for cloning types that contain collections.
ghost use Rattle.std.specs.Prelude.{◌≡◌, ⊤, IfOk, vec_len, length};
ghost use Rattle.std.specs.List.{AllZip};

use std::alloc::{AllocError, Global};

/// A type whose values can be cloned unless an allocation fails.
///
/// Cloning an arena requires this trait of its elements. `clone_gives` states what a type promises about its clones; by
/// default, a clone may be any value. Every type that is `Clone` also implements `TryClone`, with the same `clone` and
/// the same promises about its clones.
pub trait TryClone: Sized {
    /// The relation between a value and each value that may be its clone.
    ghost clone_gives: { Self → Self → Type 0 } = { λ _ _. ⊤ };

    /// Returns a clone of this value, or `Err` if allocation fails.
    fn clone(&self) -> Result<Self, AllocError>
        ensures { IfOk result (clone_gives self.now) };
}

impl<T: Clone> TryClone for T {
    ghost clone_gives = { T.is_clone };

    fn clone(&self) -> Result<Self, AllocError> {
        Clone::clone(self)
    }
}

/// Returns a vector with a clone of each value, in order, or `Err` if allocation fails.
pub fn clone_each<T: TryClone + Drop>(alloc: Global, values: &[T]) -> Result<Vec<T>, AllocError>
    ensures clones { IfOk result (λ copies. AllZip T.clone_gives values.now copies.items) }
    ensures len { IfOk result (λ copies. vec_len copies ≡ length values.now) }
{
    let mut copies = Vec::with_capacity(alloc, values.len())?;
    for value in values {
        copies.push_reserved(TryClone::clone(value)?);
    }
    Ok(copies)
}
