//! What can be read from the contents of a type.
ghost use Rattle.std.specs.Prelude.{◌≡◌};
ghost use Rattle.std.specs.Option.{option_map};
ghost use Rattle.naga_typifier.specs.Inner.{bytes_of, is_handle, parts_of, scalar_of_inner, space_of};

use crate::rows::scalar_in;
use naga_ir::{AddressSpace, ArraySize, Scalar, ScalarKind, TypeInner};

/// Methods on the contents of a type. They are in a trait, since another crate declares the type.
pub trait TypeInnerMethods {
    /// Returns the scalar of which a number, a vector, a matrix or a cooperative matrix consists, or `None` for any
    /// other type.
    fn scalar(&self) -> Option<Scalar>;

    /// Returns the kind of the [`scalar`](Self::scalar).
    fn scalar_kind(&self) -> Option<ScalarKind>;

    /// Returns whether this is the type of an image, of a sampler or of an acceleration structure, whose variables have
    /// no memory. The elements of a binding array determine whether it has memory, so this returns `false` for it.
    fn is_handle(&self) -> bool;

    /// Returns the address space of what a pointer points to, or `None` for any other type.
    fn pointer_space(&self) -> Option<AddressSpace>;

    /// Returns the number of components of a vector, of columns of a matrix, of elements of an array with a constant
    /// length, or of members of a structure. Returns `None` for any other type.
    fn components(&self) -> Option<usize>;

    /// Returns the number of bytes of a scalar or of a vector, or `None` for any other type.
    fn size(&self) -> Option<u32>;
}

impl TypeInnerMethods for TypeInner {
    fn scalar(&self) -> Option<Scalar>
        ensures { result ≡ scalar_of_inner self.now }
    {
        match self {
            TypeInner::CooperativeMatrix { scalar, .. } => Some(*scalar),
            _ => scalar_in(self),
        }
    }

    fn scalar_kind(&self) -> Option<ScalarKind>
        ensures { result ≡ option_map (λ scalar. scalar.kind) (scalar_of_inner self.now) }
    {
        match self.scalar() {
            Some(scalar) => Some(scalar.kind),
            None => None,
        }
    }

    fn is_handle(&self) -> bool
        ensures { result ≡ is_handle self.now }
    {
        matches!(
            self,
            TypeInner::Image { .. }
                | TypeInner::Sampler { .. }
                | TypeInner::AccelerationStructure { .. }
        )
    }

    fn pointer_space(&self) -> Option<AddressSpace>
        ensures { result ≡ space_of self.now }
    {
        match self {
            TypeInner::Pointer { space, .. } | TypeInner::ValuePointer { space, .. } => Some(
                *space,
            ),
            _ => None,
        }
    }

    fn components(&self) -> Option<usize>
        ensures { result ≡ parts_of self.now }
    {
        match self {
            TypeInner::Vector { size, .. } => Some(usize::from(u8::from(*size))),
            TypeInner::Matrix { columns, .. } => Some(usize::from(u8::from(*columns))),
            TypeInner::Array {
                size: ArraySize::Constant(count),
                ..
            } => Some(count.get() as usize),
            TypeInner::Struct { members, .. } => Some(members.len()),
            _ => None,
        }
    }

    fn size(&self) -> Option<u32>
        ensures { result ≡ bytes_of self.now }
    {
        match self {
            TypeInner::Scalar(scalar) => Some(u32::from(scalar.width)),
            TypeInner::Vector { size, scalar } => {
                Some(u32::from(*size) * u32::from(scalar.width))
            }
            _ => None,
        }
    }
}
