// Made by tests/derive from the declarations of naga_kinds and naga_ir.
//! What naga_ir declares in module.rt.
ghost use Rattle.naga_json_write.specs.Encoding.{by_view, direct};
ghost use Rattle.naga_json.specs.Declarations.{constant_value, function_argument_value, global_variable_value, local_variable_value, override_value};
ghost use Rattle.naga_json.specs.derived.Module.{constant_codec, function_argument_codec, function_result_codec, global_variable_codec, local_variable_codec, mesh_stage_info_codec, override_codec};

use crate::to_json::ToJson;
use crate::write::write_struct;
use crate::writer::Writer;
use naga_ir::{
    Constant, FunctionArgument, FunctionResult, GlobalVariable, LocalVariable, MeshStageInfo,
    Override,
};
use std::alloc::AllocError;

impl ToJson for Override {
    ghost encoding = { by_view override_value override_codec.encode };

    fn write(&self, out: &mut Writer) -> Result<(), AllocError> {
        write_struct! { self, out; name, id, ty, init }
    }
}

impl ToJson for Constant {
    ghost encoding = { by_view constant_value constant_codec.encode };

    fn write(&self, out: &mut Writer) -> Result<(), AllocError> {
        write_struct! { self, out; name, ty, init }
    }
}

impl ToJson for GlobalVariable {
    ghost encoding = { by_view global_variable_value global_variable_codec.encode };

    fn write(&self, out: &mut Writer) -> Result<(), AllocError> {
        write_struct! { self, out; name, space, binding, ty, init, memory_decorations }
    }
}

impl ToJson for LocalVariable {
    ghost encoding = { by_view local_variable_value local_variable_codec.encode };

    fn write(&self, out: &mut Writer) -> Result<(), AllocError> {
        write_struct! { self, out; name, ty, init }
    }
}

impl ToJson for FunctionArgument {
    ghost encoding = { by_view function_argument_value function_argument_codec.encode };

    fn write(&self, out: &mut Writer) -> Result<(), AllocError> {
        write_struct! { self, out; name, ty, binding }
    }
}

impl ToJson for FunctionResult {
    ghost encoding = { direct function_result_codec.encode };

    fn write(&self, out: &mut Writer) -> Result<(), AllocError> {
        write_struct! { self, out; ty, binding }
    }
}

impl ToJson for MeshStageInfo {
    ghost encoding = { direct mesh_stage_info_codec.encode };

    fn write(&self, out: &mut Writer) -> Result<(), AllocError> {
        write_struct! { self, out;
            topology, max_vertices, max_vertices_override, max_primitives, max_primitives_override,
            vertex_output_type, primitive_output_type, output_variable,
        }
    }
}
