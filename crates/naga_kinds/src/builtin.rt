//! The built-in inputs and outputs of shaders.

/// A value that a pipeline provides to an entry point or receives from it.
///
/// The order is that of the declaration. Back ends sort members by it, and some of them require `PrimitiveIndex` to be
/// first.
#[derive(Clone, Copy, Debug, PartialEq, Eq, PartialOrd, Ord, Hash)]
pub enum BuiltIn {
    /// The index of the primitive. Mesh shaders write it; fragment, any-hit and closest-hit shaders read it.
    PrimitiveIndex,

    /// The position of a vertex or fragment. Vertex and mesh shaders write it; fragment shaders read it.
    Position {
        /// `true` if equal inputs must produce equal positions in every pipeline.
        invariant: bool,
    },
    /// The index of the view that is drawn. Task, mesh, vertex and fragment shaders read it.
    ViewIndex,

    /// The index of the first instance of a draw. Vertex shaders read it.
    BaseInstance,
    /// The number that a draw adds to each vertex index. Vertex shaders read it.
    BaseVertex,
    /// The distances from the clip planes. Vertex and mesh shaders write them.
    ClipDistances,
    /// The distances from the cull planes. Vertex and mesh shaders write them.
    CullDistance,
    /// The index of the instance. Vertex, any-hit and closest-hit shaders read it.
    InstanceIndex,
    /// The size of a point in pixels. Vertex and mesh shaders write it.
    PointSize,
    /// The index of the vertex. Vertex shaders read it.
    VertexIndex,
    /// The index of the draw within a multi-draw. Vertex and task shaders read it, and so do mesh shaders if no task
    /// shader runs.
    DrawIndex,

    /// The depth of the fragment. Fragment shaders write it.
    FragDepth,
    /// The position within a point. Fragment shaders read it.
    PointCoord,
    /// A boolean that is `true` if the primitive is front-facing. Fragment shaders read it.
    FrontFacing,
    /// The barycentric coordinates within the primitive. Fragment shaders read them.
    Barycentric {
        /// `true` if the coordinates are corrected for perspective.
        perspective: bool,
    },
    /// The index of the sample. Fragment shaders read it.
    SampleIndex,
    /// The mask of the covered samples. Fragment shaders read and write it.
    SampleMask,

    /// The position of the invocation in the grid. Compute, task and mesh shaders read this built-in and the next five.
    GlobalInvocationId,
    /// The position of the invocation in its workgroup.
    LocalInvocationId,
    /// The index of the invocation in its workgroup.
    LocalInvocationIndex,
    /// The position of the workgroup in the grid.
    WorkGroupId,
    /// The size of the workgroup.
    WorkGroupSize,
    /// The size of the grid in workgroups.
    NumWorkGroups,

    /// The number of subgroups in the workgroup. Compute, task and mesh shaders read it.
    NumSubgroups,
    /// The index of the subgroup in its workgroup. Compute, task and mesh shaders read it.
    SubgroupId,
    /// The number of invocations in the subgroup. Compute, fragment, task and mesh shaders read it.
    SubgroupSize,
    /// The index of the invocation in its subgroup. Compute, fragment, task and mesh shaders read it.
    SubgroupInvocationId,

    /// The number of mesh workgroups to start. Task shaders write it.
    MeshTaskSize,
    /// A boolean that is `true` if the primitive is culled. Mesh shaders write it.
    CullPrimitive,
    /// The index of the vertex of a point. Mesh shaders write it.
    PointIndex,
    /// The indices of the two vertices of a line. Mesh shaders write them.
    LineIndices,
    /// The indices of the three vertices of a triangle. Mesh shaders write them.
    TriangleIndices,

    /// The number of vertices, in the output variable of a mesh shader.
    VertexCount,
    /// The vertices, in the output variable of a mesh shader.
    Vertices,
    /// The number of primitives, in the output variable of a mesh shader.
    PrimitiveCount,
    /// The primitives, in the output variable of a mesh shader.
    Primitives,

    /// The position of the ray in the grid of rays. All ray tracing stages read it.
    RayInvocationId,
    /// The size of the grid of rays. All ray tracing stages read it.
    NumRayInvocations,
    /// The number that the scene assigns to the instance that was hit. Any-hit and closest-hit shaders read it.
    InstanceCustomData,
    /// The index of the geometry within the object that was hit. Any-hit and closest-hit shaders read it.
    GeometryIndex,
    /// The origin of the ray. Any-hit, closest-hit and miss shaders read it.
    WorldRayOrigin,
    /// The direction of the ray. Any-hit, closest-hit and miss shaders read it.
    WorldRayDirection,
    /// The origin of the ray in object space. Any-hit and closest-hit shaders read it.
    ObjectRayOrigin,
    /// The direction of the ray in object space. Any-hit and closest-hit shaders read it.
    ObjectRayDirection,
    /// The minimum distance from the origin at which the ray can have a hit. Any-hit, closest-hit and miss shaders read
    /// it.
    RayTmin,
    /// The maximum distance from the origin at which the ray can still have a hit. This is the distance of the closest
    /// hit so far, or of the end of the ray if there is no hit yet. Any-hit, closest-hit and miss shaders read it.
    RayTCurrentMax,
    /// The matrix from object space to world space. Any-hit and closest-hit shaders read it.
    ObjectToWorld,
    /// The matrix from world space to object space. Any-hit and closest-hit shaders read it.
    WorldToObject,
    /// The kind of the hit: the number that the shader's own intersection test returned, or without such a test, 254
    /// for the front of a triangle and 255 for its back. Any-hit and closest-hit shaders read it.
    HitKind,
}
