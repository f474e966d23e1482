//! Why a type has no layout.
use naga_arena::Handle;
use naga_ir::Type;
use thiserror::Error;

/// Why a type has no layout.
#[derive(Clone, Copy, Debug, PartialEq, Error)]
pub enum LayoutErrorInner {
    /// The type of the elements of the array does not come before the array.
    #[error("Array element type {0:?} doesn't exist")]
    InvalidArrayElementType(Handle<Type>),
    /// The type of the member with this index does not come before the structure.
    ///
    /// Differs from naga: the index is a `u32`.
    #[error("Struct member[{0}] type {1:?} doesn't exist")]
    InvalidStructMemberType(usize, Handle<Type>),
    /// The width of the scalar is not a power of two.
    #[error("Type width must be a power of two")]
    NonPowerOfTwoWidth,
    /// The array is larger than [`MAX_TYPE_SIZE`](crate::MAX_TYPE_SIZE).
    #[error("Size exceeds limit of {limit} bytes", limit = crate::MAX_TYPE_SIZE)]
    TooLarge,
    /// Allocation fails.
    ///
    /// Differs from naga: naga aborts.
    #[error("out of memory")]
    Memory,
}

/// The error returned when a type has no layout.
#[derive(Clone, Copy, Debug, PartialEq, Error)]
#[error("Error laying out type {ty:?}: {inner}")]
pub struct LayoutError {
    /// The type.
    pub ty: Handle<Type>,
    /// Why it has no layout.
    pub inner: LayoutErrorInner,
}
