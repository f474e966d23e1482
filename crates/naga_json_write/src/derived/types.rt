// Made by tests/derive from the declarations of naga_kinds and naga_ir.
//! What naga_ir declares in types.rt.
ghost use Rattle.naga_json_write.specs.Encoding.{by_view, direct};
ghost use Rattle.naga_ir.specs.Types.{inner_of, member_of};
ghost use Rattle.naga_json.specs.derived.Types.{array_size_codec, struct_member_codec, type_inner_codec};

use crate::to_json::ToJson;
use crate::write::{write_struct, write_variants};
use crate::writer::Writer;
use naga_ir::{ArraySize, StructMember, TypeInner};
use std::alloc::AllocError;

impl ToJson for ArraySize {
    ghost encoding = { direct array_size_codec.encode };

    fn write(&self, out: &mut Writer) -> Result<(), AllocError> {
        write_variants! { ArraySize, self, out;
            Constant(held),
            Pending(held),
            Dynamic,
        }
    }
}

impl ToJson for StructMember {
    ghost encoding = { by_view member_of struct_member_codec.encode };

    fn write(&self, out: &mut Writer) -> Result<(), AllocError> {
        write_struct! { self, out; name, ty, binding, offset }
    }
}

impl ToJson for TypeInner {
    ghost encoding = { by_view inner_of type_inner_codec.encode };

    fn write(&self, out: &mut Writer) -> Result<(), AllocError> {
        write_variants! { TypeInner, self, out;
            Scalar(held),
            Vector { size, scalar },
            Matrix { columns, rows, scalar },
            CooperativeMatrix { columns, rows, scalar, role },
            Atomic(held),
            Pointer { base, space },
            ValuePointer { size, scalar, space },
            Array { base, size, stride },
            Struct { members, span },
            Image { dim, arrayed, class },
            Sampler { comparison },
            AccelerationStructure { vertex_return },
            RayQuery { vertex_return },
            BindingArray { base, size },
        }
    }
}
