// Made by tests/derive from the declarations of naga_kinds and naga_ir.
//! What naga_ir declares in module.rt.
ghost use Rattle.json.specs.Value.{value_view};
ghost use Rattle.naga_json_values.specs.Reads.{Reads};
ghost use Rattle.naga_json.specs.Declarations.{constant_value, function_argument_value, global_variable_value, local_variable_value, override_value};
ghost use Rattle.naga_json.specs.derived.Module.{constant_codec, function_argument_codec, global_variable_codec, local_variable_codec, override_codec};

use json::Value;
use naga_ir::{Constant, FunctionArgument, GlobalVariable, LocalVariable, Override};
use naga_json_values::text::optional_text_field;
use naga_json_values::{Cause, read_struct};
use std::alloc::Global;

/// Reads an `Override`.
#[tactic(auto, unfolding(naga_json::specs::Fields::struct_in))]
pub fn read_override(alloc: Global, value: &Value<'_>) -> Result<Override, Cause>
    ensures { Reads override_value result (override_codec.decode (value_view value.now)) }
{
    read_struct! { value => Override { name: optional_text_field(alloc), id, ty, init } }
}

/// Reads a `Constant`.
#[tactic(auto, unfolding(naga_json::specs::Fields::struct_in))]
pub fn read_constant(alloc: Global, value: &Value<'_>) -> Result<Constant, Cause>
    ensures { Reads constant_value result (constant_codec.decode (value_view value.now)) }
{
    read_struct! { value => Constant { name: optional_text_field(alloc), ty, init } }
}

/// Reads a `GlobalVariable`.
#[tactic(auto, unfolding(naga_json::specs::Fields::struct_in))]
pub fn read_global_variable(alloc: Global, value: &Value<'_>) -> Result<GlobalVariable, Cause>
    ensures { Reads global_variable_value result (global_variable_codec.decode (value_view value.now)) }
{
    read_struct! { value => GlobalVariable {
        name: optional_text_field(alloc), space, binding, ty, init, memory_decorations,
    } }
}

/// Reads a `LocalVariable`.
#[tactic(auto, unfolding(naga_json::specs::Fields::struct_in))]
pub fn read_local_variable(alloc: Global, value: &Value<'_>) -> Result<LocalVariable, Cause>
    ensures { Reads local_variable_value result (local_variable_codec.decode (value_view value.now)) }
{
    read_struct! { value => LocalVariable { name: optional_text_field(alloc), ty, init } }
}

/// Reads a `FunctionArgument`.
#[tactic(auto, unfolding(naga_json::specs::Fields::struct_in))]
pub fn read_function_argument(alloc: Global, value: &Value<'_>) -> Result<FunctionArgument, Cause>
    ensures { Reads function_argument_value result (function_argument_codec.decode (value_view value.now)) }
{
    read_struct! { value => FunctionArgument { name: optional_text_field(alloc), ty, binding } }
}
