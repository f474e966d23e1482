//! Properties of entry points: their stages, when their depth tests run, and what they output.
ghost use Rattle.std.specs.Prelude.{◌≡◌};
ghost use Rattle.naga_kinds.specs.BuiltIn.{indices_of};

use crate::builtin::BuiltIn;
use thiserror::Error;

/// The pipeline stage of an entry point.
#[derive(Clone, Copy, Debug, PartialEq, Eq)]
pub enum ShaderStage {
    /// Runs for each vertex.
    Vertex,
    /// Runs for each workgroup of a grid, and determines how many mesh workgroups follow.
    Task,
    /// Runs for each workgroup, and generates vertices and primitives.
    Mesh,
    /// Runs for each fragment of a primitive.
    Fragment,
    /// Runs for each workgroup of a grid, and takes no part in drawing.
    Compute,
    /// Runs for each ray of a grid, and casts it.
    RayGeneration,
    /// Runs for each ray that hit nothing.
    Miss,
    /// Runs for each hit of a ray that could be accepted.
    AnyHit,
    /// Runs for the closest hit of each ray.
    ClosestHit,
}

/// The mode of the early depth test: whether depth and stencil are tested before a fragment shader runs.
#[derive(Clone, Copy, Debug, PartialEq, Eq, PartialOrd, Ord, Hash)]
pub enum EarlyDepthTest {
    /// Depth and stencil are tested before the shader runs, and not afterwards. A depth that the shader writes has no
    /// effect.
    Force,
    /// Depth and stencil may be tested before the shader runs, if the driver chooses to. They are tested afterwards in
    /// any case.
    Allow {
        /// The ways in which the shader may change the depth that was computed for the fragment.
        conservative: ConservativeDepth,
    },
}

/// The ways in which a fragment shader may change the depth of a fragment without invalidating an early test.
#[derive(Clone, Copy, Debug, PartialEq, Eq, PartialOrd, Ord, Hash)]
pub enum ConservativeDepth {
    /// The shader never decreases the depth.
    GreaterEqual,
    /// The shader never increases the depth.
    LessEqual,
    /// The shader does not change the depth.
    Unchanged,
}

/// The kind of primitives that a mesh shader generates.
#[derive(Clone, Copy, Debug, PartialEq, Eq)]
pub enum MeshOutputTopology {
    /// Points of one vertex each.
    Points,
    /// Lines of two vertices each.
    Lines,
    /// Triangles of three vertices each.
    Triangles,
}

impl MeshOutputTopology {
    /// Returns the built-in to which a mesh shader writes the vertices of such a primitive.
    pub fn to_builtin(self) -> BuiltIn
        ensures { result ≡ indices_of self }
    {
        match self {
            MeshOutputTopology::Points => BuiltIn::PointIndex,
            MeshOutputTopology::Lines => BuiltIn::LineIndices,
            MeshOutputTopology::Triangles => BuiltIn::TriangleIndices,
        }
    }
}

/// An error in an entry point.
#[derive(Clone, Copy, Debug, PartialEq, Eq, Error)]
pub enum EntryPointError {
    /// The type of a mesh shader's output variable does not describe a mesh.
    #[error("mesh output variable type is wrong")]
    BadMeshOutputVariableType,
    /// A member of a mesh shader's output variable has a type that does not match its binding.
    #[error("mesh output variable field is wrong")]
    BadMeshOutputVariableField,
}
