//! Data: what can be loaded and has a zero value, and the results of exchanges.
ghost use Rattle.std.specs.Prelude.{◌≡◌, option_and_then, option_copied, slice_get};
ghost use Rattle.naga_typing.specs.Kinds.{is_dynamic_array, single};
ghost use Rattle.naga_typing.specs.Requirements.{are_exchanged, is_exchange_result, is_sized_data, member_contents, passes, points_to_data};
ghost use Rattle.naga_typing.specs.TypedFunctions.{context_of};

use crate::kinds;
use crate::requirement::Scalars;
use crate::typed_function::TypedFunction;
use naga_ir::{ArraySize, Scalar, StructMember, TypeInner};

impl TypedFunction<'_> {
    /// Returns the contents of the type of the member at a position.
    fn member_contents(&self, members: &[StructMember], position: usize) -> Option<&TypeInner>
        ensures { option_copied result ≡ member_contents (context_of self.now) (slice_get members.now position) }
    {
        match members.get(position) {
            Some(member) => self.declared(member.ty),
            None => None,
        }
    }

    /// Returns whether the member at a position is an array of a dynamic size.
    fn is_dynamic_at(&self, members: &[StructMember], position: usize) -> bool
        ensures { result ≡ passes is_dynamic_array (member_contents (context_of self.now) (slice_get members.now position)) }
    {
        match self.member_contents(members, position) {
            Some(inner) => kinds::is_dynamic_array(inner),
            None => false,
        }
    }

    /// Returns whether values of a type are data of a known size.
    pub(crate) fn is_sized_data(&self, inner: &TypeInner) -> bool
        ensures { result ≡ is_sized_data (context_of self.now) inner.now }
    {
        match inner {
            TypeInner::Array { size, .. } => !matches!(size, ArraySize::Dynamic),
            TypeInner::Struct { members, .. } => {
                !self.is_dynamic_at(members.as_slice(), members.len().saturating_sub(1))
            }
            TypeInner::Pointer { .. }
            | TypeInner::ValuePointer { .. }
            | TypeInner::Image { .. }
            | TypeInner::Sampler { .. }
            | TypeInner::AccelerationStructure { .. }
            | TypeInner::BindingArray { .. } => false,
            TypeInner::Scalar(_)
            | TypeInner::Vector { .. }
            | TypeInner::Matrix { .. }
            | TypeInner::CooperativeMatrix { .. }
            | TypeInner::Atomic(_)
            | TypeInner::RayQuery { .. } => true,
        }
    }

    /// Returns whether this is a pointer to data of a known size.
    pub(crate) fn points_to_data(&self, inner: &TypeInner) -> bool
        ensures { result ≡ points_to_data (context_of self.now) inner.now }
    {
        match inner {
            TypeInner::Pointer { base, .. } => match self.declared(*base) {
                Some(behind) => self.is_sized_data(behind),
                None => false,
            },
            TypeInner::ValuePointer { .. } => true,
            _ => false,
        }
    }

    /// Returns the scalar that the member at a position is.
    fn scalar_at(&self, members: &[StructMember], position: usize) -> Option<Scalar>
        ensures { result ≡ option_and_then single (member_contents (context_of self.now) (slice_get members.now position)) }
    {
        match self.member_contents(members, position) {
            Some(inner) => kinds::single(inner),
            None => None,
        }
    }

    /// Returns whether these are the members of the result of an exchange that compares.
    fn are_exchanged(&self, members: &[StructMember]) -> bool
        ensures { result ≡ are_exchanged (context_of self.now) members.now }
    {
        members.len() == 2
            && (kinds::has_one_of(Scalars::Numbers, self.scalar_at(members, 0))
                && kinds::has_one_of(Scalars::Booleans, self.scalar_at(members, 1)))
    }

    /// Returns whether this is the result of an exchange that compares.
    pub(crate) fn is_exchange_result(&self, inner: &TypeInner) -> bool
        ensures { result ≡ is_exchange_result (context_of self.now) inner.now }
    {
        match inner {
            TypeInner::Struct { members, .. } => self.are_exchanged(members.as_slice()),
            _ => false,
        }
    }
}
