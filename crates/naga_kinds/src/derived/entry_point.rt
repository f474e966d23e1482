// Made by tests/derive from the declarations of naga_kinds and naga_ir.
//! Names and order of variants.
ghost use Rattle.naga_kinds.specs.derived.Names.{conservative_depth_name, conservative_depths, mesh_output_topologies, mesh_output_topology_name, shader_stage_name, shader_stages};

use crate::entry_point::{ConservativeDepth, MeshOutputTopology, ShaderStage};
use crate::plain_kind::PlainKind;

/// The variants of `ShaderStage`, in the order of their declaration.
const SHADER_STAGES: &[ShaderStage] = &[
    ShaderStage::Vertex,
    ShaderStage::Task,
    ShaderStage::Mesh,
    ShaderStage::Fragment,
    ShaderStage::Compute,
    ShaderStage::RayGeneration,
    ShaderStage::Miss,
    ShaderStage::AnyHit,
    ShaderStage::ClosestHit,
];

impl PlainKind for ShaderStage {
    ghost name_of = { shader_stage_name };

    ghost in_order = { shader_stages };

    fn variants<'a>() -> &'a [ShaderStage] {
        SHADER_STAGES
    }

    fn name(self) -> &'static str {
        match self {
            ShaderStage::Vertex => "Vertex",
            ShaderStage::Task => "Task",
            ShaderStage::Mesh => "Mesh",
            ShaderStage::Fragment => "Fragment",
            ShaderStage::Compute => "Compute",
            ShaderStage::RayGeneration => "RayGeneration",
            ShaderStage::Miss => "Miss",
            ShaderStage::AnyHit => "AnyHit",
            ShaderStage::ClosestHit => "ClosestHit",
        }
    }
}

/// The variants of `ConservativeDepth`, in the order of their declaration.
const CONSERVATIVE_DEPTHS: &[ConservativeDepth] = &[
    ConservativeDepth::GreaterEqual,
    ConservativeDepth::LessEqual,
    ConservativeDepth::Unchanged,
];

impl PlainKind for ConservativeDepth {
    ghost name_of = { conservative_depth_name };

    ghost in_order = { conservative_depths };

    fn variants<'a>() -> &'a [ConservativeDepth] {
        CONSERVATIVE_DEPTHS
    }

    fn name(self) -> &'static str {
        match self {
            ConservativeDepth::GreaterEqual => "GreaterEqual",
            ConservativeDepth::LessEqual => "LessEqual",
            ConservativeDepth::Unchanged => "Unchanged",
        }
    }
}

/// The variants of `MeshOutputTopology`, in the order of their declaration.
const MESH_OUTPUT_TOPOLOGIES: &[MeshOutputTopology] = &[
    MeshOutputTopology::Points,
    MeshOutputTopology::Lines,
    MeshOutputTopology::Triangles,
];

impl PlainKind for MeshOutputTopology {
    ghost name_of = { mesh_output_topology_name };

    ghost in_order = { mesh_output_topologies };

    fn variants<'a>() -> &'a [MeshOutputTopology] {
        MESH_OUTPUT_TOPOLOGIES
    }

    fn name(self) -> &'static str {
        match self {
            MeshOutputTopology::Points => "Points",
            MeshOutputTopology::Lines => "Lines",
            MeshOutputTopology::Triangles => "Triangles",
        }
    }
}
