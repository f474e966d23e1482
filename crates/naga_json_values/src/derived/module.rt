// Made by tests/derive from the declarations of naga_kinds and naga_ir.
//! What naga_ir declares in module.rt.
ghost use Rattle.naga_json.specs.derived.Module.{function_result_codec, mesh_stage_info_codec};

use crate::{Cause, Coded, read_struct};
use json::Value;
use naga_ir::{FunctionResult, MeshStageInfo};

impl Coded for FunctionResult {
    ghost codec = { function_result_codec };

    #[tactic(auto, unfolding(naga_json::specs::Fields::struct_in))]
    fn read_value(value: &Value<'_>) -> Result<Self, Cause> {
        read_struct! { value => FunctionResult { ty, binding } }
    }
}

impl Coded for MeshStageInfo {
    ghost codec = { mesh_stage_info_codec };

    #[tactic(auto, unfolding(naga_json::specs::Fields::struct_in))]
    fn read_value(value: &Value<'_>) -> Result<Self, Cause> {
        read_struct! { value => MeshStageInfo {
            topology, max_vertices, max_vertices_override, max_primitives, max_primitives_override,
            vertex_output_type, primitive_output_type, output_variable,
        } }
    }
}
