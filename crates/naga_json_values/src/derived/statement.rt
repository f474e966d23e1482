// Made by tests/derive from the declarations of naga_kinds and naga_ir.
//! What naga_ir declares in statement.rt.
ghost use Rattle.std.specs.Prelude.{◌≡◌};
ghost use Rattle.std.specs.Result.{result_ok};
ghost use Rattle.json.specs.Value.{value_view};
ghost use Rattle.naga_json.specs.Objects.{choose, find_row};
ghost use Rattle.naga_json.specs.Variants.{held_in};
ghost use Rattle.naga_json.specs.derived.Statement.{ray_pipeline_function_codec, ray_pipeline_function_rows, ray_pipeline_function_trace_ray, ray_query_function_codec, ray_query_function_generate_intersection, ray_query_function_initialize, ray_query_function_names, ray_query_function_proceed, ray_query_function_rows};

use crate::objects::{holder, variant};
use crate::{Cause, Coded, read_struct};
use json::Value;
use naga_ir::{RayPipelineFunction, RayQueryFunction};

/// Reads a `RayQueryFunction` that is a name alone.
pub(crate) fn read_named_ray_query_function(name: &str) -> Result<RayQueryFunction, Cause>
    ensures { result_ok result ≡ find_row ray_query_function_names name.now }
{
    match name {
        "ConfirmIntersection" => Ok(RayQueryFunction::ConfirmIntersection),
        "Terminate" => Ok(RayQueryFunction::Terminate),
        _ => Err(Cause::UnknownVariant),
    }
}

/// Reads an `Initialize`.
#[tactic(auto, unfolding(naga_json::specs::Fields::struct_in))]
fn read_ray_query_function_initialize(held: &Value<'_>) -> Result<RayQueryFunction, Cause>
    ensures { result_ok result ≡ held_in ray_query_function_initialize (value_view held.now) }
{
    read_struct! { held => RayQueryFunction::Initialize { acceleration_structure, descriptor } }
}

/// Reads a `Proceed`.
#[tactic(auto, unfolding(naga_json::specs::Fields::struct_in))]
fn read_ray_query_function_proceed(held: &Value<'_>) -> Result<RayQueryFunction, Cause>
    ensures { result_ok result ≡ held_in ray_query_function_proceed (value_view held.now) }
{
    read_struct! { held => RayQueryFunction::Proceed { result } }
}

/// Reads a `GenerateIntersection`.
#[tactic(auto, unfolding(naga_json::specs::Fields::struct_in))]
fn read_ray_query_function_generate_intersection(
    held: &Value<'_>,
) -> Result<RayQueryFunction, Cause>
    ensures { result_ok result ≡ held_in ray_query_function_generate_intersection (value_view held.now) }
{
    read_struct! { held => RayQueryFunction::GenerateIntersection { hit_t } }
}

/// Reads a `RayQueryFunction` that contains data.
pub(crate) fn read_held_ray_query_function(
    name: &str,
    held: &Value<'_>,
) -> Result<RayQueryFunction, Cause>
    ensures { result_ok result ≡ choose (ray_query_function_rows (value_view held.now)) name.now }
{
    match name {
        "Initialize" => read_ray_query_function_initialize(held),
        "Proceed" => read_ray_query_function_proceed(held),
        "GenerateIntersection" => read_ray_query_function_generate_intersection(held),
        _ => Err(Cause::UnknownVariant),
    }
}

impl Coded for RayQueryFunction {
    ghost codec = { ray_query_function_codec };

    fn read_value(value: &Value<'_>) -> Result<Self, Cause> {
        match variant(value)? {
            (name, None) => read_named_ray_query_function(name),
            (name, Some(held)) => read_held_ray_query_function(name, held),
        }
    }
}

/// Reads a `TraceRay`.
#[tactic(auto, unfolding(naga_json::specs::Fields::struct_in))]
fn read_ray_pipeline_function_trace_ray(held: &Value<'_>) -> Result<RayPipelineFunction, Cause>
    ensures { result_ok result ≡ held_in ray_pipeline_function_trace_ray (value_view held.now) }
{
    read_struct! { held => RayPipelineFunction::TraceRay {
        acceleration_structure, descriptor, payload,
    } }
}

/// Reads a `RayPipelineFunction` that contains data.
pub(crate) fn read_held_ray_pipeline_function(
    name: &str,
    held: &Value<'_>,
) -> Result<RayPipelineFunction, Cause>
    ensures { result_ok result ≡ choose (ray_pipeline_function_rows (value_view held.now)) name.now }
{
    match name {
        "TraceRay" => read_ray_pipeline_function_trace_ray(held),
        _ => Err(Cause::UnknownVariant),
    }
}

impl Coded for RayPipelineFunction {
    ghost codec = { ray_pipeline_function_codec };

    fn read_value(value: &Value<'_>) -> Result<Self, Cause> {
        let (name, held) = holder(value)?;
        read_held_ray_pipeline_function(name, held)
    }
}
