//! The types of a shader's values.
ghost use Rattle.std.specs.Prelude.{◌≡◌};
ghost use Rattle.naga_ir.specs.Constant.{IsClosedOver, IsKnownSize, resolved};

use crate::const_value::ConstValueError;
use crate::global_ctx::GlobalCtx;
use crate::module::Override;
use naga_arena::Handle;
use naga_kinds::{
    AddressSpace, Binding, CooperativeRole, CooperativeSize, ImageClass, ImageDimension, Scalar,
    VectorSize,
};
use std::num::NonZeroU32;
use thiserror::Error;

/// The number of elements of an array.
#[derive(Clone, Copy, Debug, PartialEq, Eq, PartialOrd, Ord, Hash)]
pub enum ArraySize {
    /// This number of elements, known when the shader is written.
    Constant(NonZeroU32),
    /// The value of an override, which is known once the pipeline is created.
    Pending(Handle<Override>),
    /// As many elements as fit into the buffer that is bound when the shader runs.
    Dynamic,
}

/// The number of elements of an array whose override, if it has one, is resolved.
#[derive(Clone, Copy, Debug, PartialEq, Eq)]
pub enum IndexableLength {
    /// This number of elements.
    Known(u32),
    /// As many elements as fit into the buffer that is bound when the shader runs.
    Dynamic,
}

/// The error returned when the size of an array does not resolve to a length.
#[derive(Clone, Copy, Debug, PartialEq, Error)]
pub enum ResolveArraySizeError {
    /// The value of the override is zero, is negative, or cannot be read as a `u32`.
    #[error("array element count must be positive (> 0)")]
    ExpectedPositiveArrayLength,
    /// The override has no constant value, or no value at all.
    #[error("internal: array size override has not been resolved")]
    NonConstArrayLength,
}

impl ArraySize {
    /// Returns the number of elements if it is known when the shader is written out, and
    /// [`Dynamic`](IndexableLength::Dynamic) if it is known only when the shader runs.
    ///
    /// The number of elements of a [`Pending`](Self::Pending) size is the value of its override's `init`. Returns `Err`
    /// if that value is not constant by then, or is not greater than zero.
    ///
    /// The caller must ensure that the override of a `Pending` size is in the context, and that the context is closed
    /// over its own global expressions; [`check_contains_handle`](naga_arena::Arena::check_contains_handle) and
    /// [`is_closed_over`](GlobalCtx::is_closed_over) test this.
    ///
    /// Differs from naga: naga panics if these preconditions are not met.
    pub fn resolve(&self, gctx: GlobalCtx<'_>) -> Result<IndexableLength, ResolveArraySizeError>
        requires known { IsKnownSize gctx self.now }
        requires closed { IsClosedOver gctx gctx.global_expressions.now }
        ensures { result ≡ resolved gctx.entry self.now }
    {
        let handle = match self {
            ArraySize::Constant(length) => return Ok(IndexableLength::Known(length.get())),
            ArraySize::Dynamic => return Ok(IndexableLength::Dynamic),
            ArraySize::Pending(handle) => *handle,
        };
        let Some(init) = gctx.overrides[handle].init else {
            return Err(ResolveArraySizeError::NonConstArrayLength);
        };
        match gctx.get_const_val::<u32>(init) {
            Ok(0) | Err(ConstValueError::Negative | ConstValueError::InvalidType) => {
                Err(ResolveArraySizeError::ExpectedPositiveArrayLength)
            }
            Ok(length) => Ok(IndexableLength::Known(length)),
            Err(ConstValueError::NonConst) => Err(ResolveArraySizeError::NonConstArrayLength),
        }
    }
}

/// A member of a structure.
#[derive(Clone, Debug, PartialEq, Eq, Hash, Drop)]
pub struct StructMember {
    pub name: Option<String>,
    pub ty: Handle<Type>,
    /// The binding of the member, if the structure is an input or an output of a stage.
    pub binding: Option<Binding>,
    /// The offset of the member from the start of the structure, in bytes.
    pub offset: u32,
}

/// A type that a module declares.
///
/// Two types are equal if their names and contents are equal, so a [`UniqueArena`](naga_arena::UniqueArena) has one
/// handle for each type.
#[derive(Clone, Debug, PartialEq, Eq, Hash, Drop)]
pub struct Type {
    pub name: Option<String>,
    pub inner: TypeInner,
}

/// The contents of a type, without its name.
///
/// `==` compares the contents as they are written. It returns `false` for a [`Pointer`](Self::Pointer) to a scalar and
/// the [`ValuePointer`](Self::ValuePointer) with the same meaning, and `true` for two structures with different names
/// and equal members.
#[derive(Clone, Debug, PartialEq, Eq, Hash, Drop)]
pub enum TypeInner {
    /// A number or a boolean.
    Scalar(Scalar),
    /// A vector of 2 to 4 scalars.
    Vector {
        size: VectorSize,
        scalar: Scalar,
    },
    /// A matrix, as a list of columns.
    Matrix {
        columns: VectorSize,
        rows: VectorSize,
        scalar: Scalar,
    },
    /// A matrix whose elements are distributed over the invocations of a subgroup, which process it together.
    CooperativeMatrix {
        columns: CooperativeSize,
        rows: CooperativeSize,
        scalar: Scalar,
        /// The operand of `A * B + C` that the matrix can be.
        role: CooperativeRole,
    },
    /// An atomic scalar, which is read and written in one step.
    Atomic(Scalar),
    /// A pointer to a value of a type in the arena.
    ///
    /// A pointer to an array without a fixed size only occurs as the type of an expression that refers to such an
    /// array. It cannot be stored or passed as an argument.
    Pointer {
        base: Handle<Type>,
        space: AddressSpace,
    },
    /// A pointer to a scalar, or to a vector of this size, whose type need not be in the arena. It has the same meaning
    /// as a [`Pointer`](Self::Pointer) to that type.
    ValuePointer {
        size: Option<VectorSize>,
        scalar: Scalar,
        space: AddressSpace,
    },
    /// A sequence of elements of one type.
    ///
    /// A [`Dynamic`](ArraySize::Dynamic) array can only be the type of a global variable, the type of the last member
    /// of a structure, or the type that a pointer points to.
    Array {
        base: Handle<Type>,
        size: ArraySize,
        /// The distance from the start of one element to the start of the next, in bytes.
        stride: u32,
    },
    /// A structure of named members, at least one. All members except the last have a fixed size.
    // derive: value structure
    Struct {
        members: Vec<StructMember>,
        /// The size of the structure, in bytes.
        span: u32,
    },
    /// Texels in one to three dimensions, possibly in several array layers.
    Image {
        dim: ImageDimension,
        /// `true` if the image has array layers.
        arrayed: bool,
        class: ImageClass,
    },
    /// A sampler, which determines how an image is sampled. A `comparison` sampler compares each texel with a reference
    /// depth.
    Sampler {
        comparison: bool,
    },
    /// Geometry that rays are traced through.
    AccelerationStructure {
        /// `true` if the positions of the vertices of a triangle that was hit can be queried.
        vertex_return: bool,
    },
    /// The state of a ray query, which is kept in a local variable of a function.
    RayQuery {
        /// `true` if the positions of the vertices of a triangle that was hit can be queried.
        vertex_return: bool,
    },
    /// Resources of one type, each of which is bound separately. Only a global variable can have this type.
    BindingArray {
        base: Handle<Type>,
        size: ArraySize,
    },
}
