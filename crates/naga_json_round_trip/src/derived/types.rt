// Made by tests/derive from the declarations of naga_kinds and naga_ir.
//! What naga_ir declares in types.rt.
ghost use Rattle.naga_ir.specs.Types.{inner_of, member_of};
ghost use Rattle.naga_json.specs.derived.Types.{array_size_codec, struct_member_codec, type_inner_codec};

use crate::in_range::InRange;
use naga_ir::{ArraySize, StructMember, TypeInner};

impl InRange for ArraySize {
    ghost Fits = { array_size_codec.Fits };

    fn in_range(&self) {
        match self {
            ArraySize::Constant(held) => held.in_range(),
            ArraySize::Pending(held) => held.in_range(),
            ArraySize::Dynamic => {}
        }
    }
}

impl InRange for StructMember {
    ghost Fits = { λ value. struct_member_codec.Fits (member_of value) };

    fn in_range(&self) {
        self.ty.in_range();
        self.binding.in_range();
        self.offset.in_range();
    }
}

impl InRange for TypeInner {
    ghost Fits = { λ value. type_inner_codec.Fits (inner_of value) };

    fn in_range(&self) {
        match self {
            TypeInner::Scalar(held) => held.in_range(),
            TypeInner::Vector { scalar, .. } => scalar.in_range(),
            TypeInner::Matrix { scalar, .. } => scalar.in_range(),
            TypeInner::CooperativeMatrix { scalar, .. } => scalar.in_range(),
            TypeInner::Atomic(held) => held.in_range(),
            TypeInner::Pointer { base, space } => {
                base.in_range();
                space.in_range();
            }
            TypeInner::ValuePointer { scalar, space, .. } => {
                scalar.in_range();
                space.in_range();
            }
            TypeInner::Array { base, size, stride } => {
                base.in_range();
                size.in_range();
                stride.in_range();
            }
            TypeInner::Struct { members, span } => {
                members.in_range();
                span.in_range();
            }
            TypeInner::Image { class, .. } => class.in_range(),
            TypeInner::Sampler { .. } => {}
            TypeInner::AccelerationStructure { .. } => {}
            TypeInner::RayQuery { .. } => {}
            TypeInner::BindingArray { base, size } => {
                base.in_range();
                size.in_range();
            }
        }
    }
}
