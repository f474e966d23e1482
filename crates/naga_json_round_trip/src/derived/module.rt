// Made by tests/derive from the declarations of naga_kinds and naga_ir.
//! What naga_ir declares in module.rt.
ghost use Rattle.naga_json.specs.Declarations.{constant_value, function_argument_value, global_variable_value, local_variable_value, override_value};
ghost use Rattle.naga_json.specs.derived.Module.{constant_codec, function_argument_codec, function_result_codec, global_variable_codec, local_variable_codec, mesh_stage_info_codec, override_codec};

use crate::in_range::InRange;
use naga_ir::{
    Constant, FunctionArgument, FunctionResult, GlobalVariable, LocalVariable, MeshStageInfo,
    Override,
};

impl InRange for Override {
    ghost Fits = { λ value. override_codec.Fits (override_value value) };

    fn in_range(&self) {
        self.id.in_range();
        self.ty.in_range();
        self.init.in_range();
    }
}

impl InRange for Constant {
    ghost Fits = { λ value. constant_codec.Fits (constant_value value) };

    fn in_range(&self) {
        self.ty.in_range();
        self.init.in_range();
    }
}

impl InRange for GlobalVariable {
    ghost Fits = { λ value. global_variable_codec.Fits (global_variable_value value) };

    fn in_range(&self) {
        self.space.in_range();
        self.binding.in_range();
        self.ty.in_range();
        self.init.in_range();
        self.memory_decorations.in_range();
    }
}

impl InRange for LocalVariable {
    ghost Fits = { λ value. local_variable_codec.Fits (local_variable_value value) };

    fn in_range(&self) {
        self.ty.in_range();
        self.init.in_range();
    }
}

impl InRange for FunctionArgument {
    ghost Fits = { λ value. function_argument_codec.Fits (function_argument_value value) };

    fn in_range(&self) {
        self.ty.in_range();
        self.binding.in_range();
    }
}

impl InRange for FunctionResult {
    ghost Fits = { function_result_codec.Fits };

    fn in_range(&self) {
        self.ty.in_range();
        self.binding.in_range();
    }
}

impl InRange for MeshStageInfo {
    ghost Fits = { mesh_stage_info_codec.Fits };

    fn in_range(&self) {
        self.max_vertices.in_range();
        self.max_vertices_override.in_range();
        self.max_primitives.in_range();
        self.max_primitives_override.in_range();
        self.vertex_output_type.in_range();
        self.primitive_output_type.in_range();
        self.output_variable.in_range();
    }
}
