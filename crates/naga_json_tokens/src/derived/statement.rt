// Made by tests/derive from the declarations of naga_kinds and naga_ir.
//! What naga_ir declares in statement.rt.
ghost use Rattle.std.specs.Prelude.{[], IfSome};
ghost use Rattle.naga_json.specs.Variants.{held_in};
ghost use Rattle.naga_json_tokens.specs.Takes.{Takes};
ghost use Rattle.naga_json.specs.derived.Statement.{ray_pipeline_function_codec, ray_pipeline_function_rows, ray_pipeline_function_trace_ray, ray_query_function_codec, ray_query_function_generate_intersection, ray_query_function_initialize, ray_query_function_names, ray_query_function_proceed, ray_query_function_rows};

use crate::variants::{Variants, take_holder, take_variant};
use crate::{Reader, Take, take_struct};
use naga_ir::{RayPipelineFunction, RayQueryFunction};
use std::alloc::Global;

/// Takes what an `Initialize` holds.
#[tactic(auto, using(crate::proofs::TakesPartsLemmas::takes_struct), unfolding(naga_json::specs::Fields::struct_in))]
fn take_ray_query_function_initialize(
    alloc: Global,
    reader: &mut Reader<'_>,
) -> Option<RayQueryFunction>
    ensures { IfSome result (λ found. Takes (held_in ray_query_function_initialize) found reader.old reader.new) }
{
    take_struct! { alloc, reader => RayQueryFunction::Initialize {
        acceleration_structure, descriptor,
    } }
}

/// Takes what a `Proceed` holds.
#[tactic(auto, using(crate::proofs::TakesPartsLemmas::takes_struct), unfolding(naga_json::specs::Fields::struct_in))]
fn take_ray_query_function_proceed(
    alloc: Global,
    reader: &mut Reader<'_>,
) -> Option<RayQueryFunction>
    ensures { IfSome result (λ found. Takes (held_in ray_query_function_proceed) found reader.old reader.new) }
{
    take_struct! { alloc, reader => RayQueryFunction::Proceed { result } }
}

/// Takes what a `GenerateIntersection` holds.
#[tactic(auto, using(crate::proofs::TakesPartsLemmas::takes_struct), unfolding(naga_json::specs::Fields::struct_in))]
fn take_ray_query_function_generate_intersection(
    alloc: Global,
    reader: &mut Reader<'_>,
) -> Option<RayQueryFunction>
    ensures { IfSome result
        (λ found. Takes (held_in ray_query_function_generate_intersection) found reader.old reader.new) }
{
    take_struct! { alloc, reader => RayQueryFunction::GenerateIntersection { hit_t } }
}

impl Variants for RayQueryFunction {
    ghost use Rattle.naga_ir.specs.declared.statement.RayQueryFunction.{RayQueryFunction};

    ghost Meaning = { RayQueryFunction };

    ghost value_of = { λ value. value };

    ghost names = { ray_query_function_names };

    ghost rows = { ray_query_function_rows };

    fn named(name: &str) -> Option<Self> {
        match name {
            "ConfirmIntersection" => Some(RayQueryFunction::ConfirmIntersection),
            "Terminate" => Some(RayQueryFunction::Terminate),
            _ => None,
        }
    }

    fn take_held(alloc: Global, reader: &mut Reader<'_>, name: &str) -> Option<Self> {
        match name {
            "Initialize" => take_ray_query_function_initialize(alloc, reader),
            "Proceed" => take_ray_query_function_proceed(alloc, reader),
            "GenerateIntersection" => take_ray_query_function_generate_intersection(alloc, reader),
            _ => None,
        }
    }
}

impl Take for RayQueryFunction {
    ghost use Rattle.naga_ir.specs.declared.statement.RayQueryFunction.{RayQueryFunction};

    ghost Meaning = { RayQueryFunction };

    ghost value_of = { λ value. value };

    ghost meaning = { ray_query_function_codec.decode };

    fn take(alloc: Global, reader: &mut Reader<'_>) -> Option<Self> {
        take_variant::<RayQueryFunction>(alloc, reader)
    }
}

/// Takes what a `TraceRay` holds.
#[tactic(auto, using(crate::proofs::TakesPartsLemmas::takes_struct), unfolding(naga_json::specs::Fields::struct_in))]
fn take_ray_pipeline_function_trace_ray(
    alloc: Global,
    reader: &mut Reader<'_>,
) -> Option<RayPipelineFunction>
    ensures { IfSome result (λ found. Takes (held_in ray_pipeline_function_trace_ray) found reader.old reader.new) }
{
    take_struct! { alloc, reader => RayPipelineFunction::TraceRay {
        acceleration_structure, descriptor, payload,
    } }
}

impl Variants for RayPipelineFunction {
    ghost use Rattle.naga_ir.specs.declared.statement.RayPipelineFunction.{RayPipelineFunction};

    ghost Meaning = { RayPipelineFunction };

    ghost value_of = { λ value. value };

    ghost names = { [] };

    ghost rows = { ray_pipeline_function_rows };

    fn named(_name: &str) -> Option<Self> {
        None
    }

    fn take_held(alloc: Global, reader: &mut Reader<'_>, name: &str) -> Option<Self> {
        match name {
            "TraceRay" => take_ray_pipeline_function_trace_ray(alloc, reader),
            _ => None,
        }
    }
}

impl Take for RayPipelineFunction {
    ghost use Rattle.naga_ir.specs.declared.statement.RayPipelineFunction.{RayPipelineFunction};

    ghost Meaning = { RayPipelineFunction };

    ghost value_of = { λ value. value };

    ghost meaning = { ray_pipeline_function_codec.decode };

    fn take(alloc: Global, reader: &mut Reader<'_>) -> Option<Self> {
        take_holder::<RayPipelineFunction>(alloc, reader)
    }
}
