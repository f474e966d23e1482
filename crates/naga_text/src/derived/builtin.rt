// Made by tests/derive from the declarations of naga_kinds and naga_ir.
//! Appends the texts of the enums of `builtin`.
ghost use Rattle.std.specs.Prelude.{OnOk, ◌++◌, ◌≡◌};
ghost use Rattle.naga_text.specs.derived.Builtin.{built_in_text};

use crate::pieces::push_flagged;
use crate::text::Text;
use naga_ir::BuiltIn;
use std::alloc::AllocError;

/// Appends a `BuiltIn`, with a space before it.
///
/// Returns `Err` if allocation fails. The text may then end with a part of this.
// One line for each variant.
#[rattlefmt::skip]
pub(crate) fn push_built_in(text: &mut Text, built_in: &BuiltIn) -> Result<(), AllocError>
    ensures { OnOk result (text.new ≡ text.old ++ built_in_text built_in.now) }
{
    match built_in {
        BuiltIn::PrimitiveIndex => text.push(" PrimitiveIndex"),
        BuiltIn::Position { invariant } => push_flagged(text, " Position", *invariant, "invariant"),
        BuiltIn::ViewIndex => text.push(" ViewIndex"),
        BuiltIn::BaseInstance => text.push(" BaseInstance"),
        BuiltIn::BaseVertex => text.push(" BaseVertex"),
        BuiltIn::ClipDistances => text.push(" ClipDistances"),
        BuiltIn::CullDistance => text.push(" CullDistance"),
        BuiltIn::InstanceIndex => text.push(" InstanceIndex"),
        BuiltIn::PointSize => text.push(" PointSize"),
        BuiltIn::VertexIndex => text.push(" VertexIndex"),
        BuiltIn::DrawIndex => text.push(" DrawIndex"),
        BuiltIn::FragDepth => text.push(" FragDepth"),
        BuiltIn::PointCoord => text.push(" PointCoord"),
        BuiltIn::FrontFacing => text.push(" FrontFacing"),
        BuiltIn::Barycentric { perspective } => push_flagged(text, " Barycentric", *perspective, "perspective"),
        BuiltIn::SampleIndex => text.push(" SampleIndex"),
        BuiltIn::SampleMask => text.push(" SampleMask"),
        BuiltIn::GlobalInvocationId => text.push(" GlobalInvocationId"),
        BuiltIn::LocalInvocationId => text.push(" LocalInvocationId"),
        BuiltIn::LocalInvocationIndex => text.push(" LocalInvocationIndex"),
        BuiltIn::WorkGroupId => text.push(" WorkGroupId"),
        BuiltIn::WorkGroupSize => text.push(" WorkGroupSize"),
        BuiltIn::NumWorkGroups => text.push(" NumWorkGroups"),
        BuiltIn::NumSubgroups => text.push(" NumSubgroups"),
        BuiltIn::SubgroupId => text.push(" SubgroupId"),
        BuiltIn::SubgroupSize => text.push(" SubgroupSize"),
        BuiltIn::SubgroupInvocationId => text.push(" SubgroupInvocationId"),
        BuiltIn::MeshTaskSize => text.push(" MeshTaskSize"),
        BuiltIn::CullPrimitive => text.push(" CullPrimitive"),
        BuiltIn::PointIndex => text.push(" PointIndex"),
        BuiltIn::LineIndices => text.push(" LineIndices"),
        BuiltIn::TriangleIndices => text.push(" TriangleIndices"),
        BuiltIn::VertexCount => text.push(" VertexCount"),
        BuiltIn::Vertices => text.push(" Vertices"),
        BuiltIn::PrimitiveCount => text.push(" PrimitiveCount"),
        BuiltIn::Primitives => text.push(" Primitives"),
        BuiltIn::RayInvocationId => text.push(" RayInvocationId"),
        BuiltIn::NumRayInvocations => text.push(" NumRayInvocations"),
        BuiltIn::InstanceCustomData => text.push(" InstanceCustomData"),
        BuiltIn::GeometryIndex => text.push(" GeometryIndex"),
        BuiltIn::WorldRayOrigin => text.push(" WorldRayOrigin"),
        BuiltIn::WorldRayDirection => text.push(" WorldRayDirection"),
        BuiltIn::ObjectRayOrigin => text.push(" ObjectRayOrigin"),
        BuiltIn::ObjectRayDirection => text.push(" ObjectRayDirection"),
        BuiltIn::RayTmin => text.push(" RayTmin"),
        BuiltIn::RayTCurrentMax => text.push(" RayTCurrentMax"),
        BuiltIn::ObjectToWorld => text.push(" ObjectToWorld"),
        BuiltIn::WorldToObject => text.push(" WorldToObject"),
        BuiltIn::HitKind => text.push(" HitKind"),
    }
}
