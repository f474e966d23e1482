// Made by tests/derive from the declarations of naga_kinds and naga_ir.
//! What naga_kinds declares.
ghost use Rattle.naga_json_write.specs.Encoding.{direct};
ghost use Rattle.naga_json.specs.derived.AddressSpace.{address_space_codec};
ghost use Rattle.naga_json.specs.derived.Binding.{binding_codec, resource_binding_codec};
ghost use Rattle.naga_json.specs.derived.Builtin.{built_in_codec};
ghost use Rattle.naga_json.specs.derived.EntryPoint.{early_depth_test_codec};
ghost use Rattle.naga_json.specs.derived.Image.{image_class_codec};
ghost use Rattle.naga_json.specs.derived.Scalar.{scalar_codec};
ghost use Rattle.naga_json.specs.derived.Switch.{switch_value_codec};

use crate::to_json::ToJson;
use crate::write::kinds::Kind;
use crate::write::{write_struct, write_variants};
use crate::writer::Writer;
use naga_kinds::{
    AddressSpace, BinaryOperator, Binding, BuiltIn, CollectiveOperation, ConservativeDepth,
    CooperativeRole, CooperativeSize, DerivativeAxis, DerivativeControl, Direction, EarlyDepthTest,
    ImageClass, ImageDimension, Interpolation, MathFunction, MeshOutputTopology,
    RelationalFunction, ResourceBinding, Sampling, Scalar, ScalarKind, Severity, ShaderStage,
    StandardFilterableTriggeringRule, StorageFormat, SubgroupOperation, SwitchValue,
    SwizzleComponent, UnaryOperator, VectorSize,
};
use std::alloc::AllocError;

impl ToJson for AddressSpace {
    ghost encoding = { direct address_space_codec.encode };

    fn write(&self, out: &mut Writer) -> Result<(), AllocError> {
        write_variants! { AddressSpace, self, out;
            Function,
            Private,
            WorkGroup,
            Uniform,
            Storage { access },
            Handle,
            Immediate,
            TaskPayload,
            RayPayload,
            IncomingRayPayload,
        }
    }
}

impl ToJson for Binding {
    ghost encoding = { direct binding_codec.encode };

    fn write(&self, out: &mut Writer) -> Result<(), AllocError> {
        write_variants! { Binding, self, out;
            BuiltIn(held),
            Location { location, interpolation, sampling, blend_src, per_primitive },
        }
    }
}

impl ToJson for ResourceBinding {
    ghost encoding = { direct resource_binding_codec.encode };

    fn write(&self, out: &mut Writer) -> Result<(), AllocError> {
        write_struct! { self, out; group, binding }
    }
}

impl ToJson for BuiltIn {
    ghost encoding = { direct built_in_codec.encode };

    fn write(&self, out: &mut Writer) -> Result<(), AllocError> {
        write_variants! { BuiltIn, self, out;
            PrimitiveIndex,
            Position { invariant },
            ViewIndex,
            BaseInstance,
            BaseVertex,
            ClipDistances,
            CullDistance,
            InstanceIndex,
            PointSize,
            VertexIndex,
            DrawIndex,
            FragDepth,
            PointCoord,
            FrontFacing,
            Barycentric { perspective },
            SampleIndex,
            SampleMask,
            GlobalInvocationId,
            LocalInvocationId,
            LocalInvocationIndex,
            WorkGroupId,
            WorkGroupSize,
            NumWorkGroups,
            NumSubgroups,
            SubgroupId,
            SubgroupSize,
            SubgroupInvocationId,
            MeshTaskSize,
            CullPrimitive,
            PointIndex,
            LineIndices,
            TriangleIndices,
            VertexCount,
            Vertices,
            PrimitiveCount,
            Primitives,
            RayInvocationId,
            NumRayInvocations,
            InstanceCustomData,
            GeometryIndex,
            WorldRayOrigin,
            WorldRayDirection,
            ObjectRayOrigin,
            ObjectRayDirection,
            RayTmin,
            RayTCurrentMax,
            ObjectToWorld,
            WorldToObject,
            HitKind,
        }
    }
}

impl ToJson for EarlyDepthTest {
    ghost encoding = { direct early_depth_test_codec.encode };

    fn write(&self, out: &mut Writer) -> Result<(), AllocError> {
        write_variants! { EarlyDepthTest, self, out;
            Force,
            Allow { conservative },
        }
    }
}

impl ToJson for ImageClass {
    ghost encoding = { direct image_class_codec.encode };

    fn write(&self, out: &mut Writer) -> Result<(), AllocError> {
        write_variants! { ImageClass, self, out;
            Sampled { kind, multi },
            Depth { multi },
            External,
            Storage { format, access },
        }
    }
}

impl ToJson for Scalar {
    ghost encoding = { direct scalar_codec.encode };

    fn write(&self, out: &mut Writer) -> Result<(), AllocError> {
        write_struct! { self, out; kind, width }
    }
}

impl ToJson for SwitchValue {
    ghost encoding = { direct switch_value_codec.encode };

    fn write(&self, out: &mut Writer) -> Result<(), AllocError> {
        write_variants! { SwitchValue, self, out;
            I32(held),
            U32(held),
            Default,
        }
    }
}

impl Kind for Interpolation {}

impl Kind for Sampling {}

impl Kind for Severity {}

impl Kind for StandardFilterableTriggeringRule {}

impl Kind for ShaderStage {}

impl Kind for ConservativeDepth {}

impl Kind for MeshOutputTopology {}

impl Kind for StorageFormat {}

impl Kind for ImageDimension {}

impl Kind for MathFunction {}

impl Kind for UnaryOperator {}

impl Kind for BinaryOperator {}

impl Kind for DerivativeControl {}

impl Kind for DerivativeAxis {}

impl Kind for RelationalFunction {}

impl Kind for SwizzleComponent {}

impl Kind for VectorSize {}

impl Kind for CooperativeSize {}

impl Kind for ScalarKind {}

impl Kind for CooperativeRole {}

impl Kind for Direction {}

impl Kind for SubgroupOperation {}

impl Kind for CollectiveOperation {}
