// Made by tests/derive from the declarations of naga_kinds and naga_ir.
//! What naga_ir declares in statement.rt.
ghost use Rattle.std.specs.Prelude.{IsTrue, ◌≡◌};
ghost use Rattle.naga_ir.specs.Tree.{is_plain};
ghost use Rattle.naga_ir.specs.View.{node_of};
ghost use Rattle.naga_json.specs.Block.{statement_json};
ghost use Rattle.naga_json.specs.Variants.{held_json};
ghost use Rattle.naga_json_write.specs.Appends.{Appends};
ghost use Rattle.naga_json_write.specs.Encoding.{direct};
ghost use Rattle.naga_json.specs.StatementValue.{value_of_statement};
ghost use Rattle.naga_json.specs.derived.Statement.{ray_pipeline_function_codec, ray_pipeline_function_trace_ray, ray_query_function_codec};

use crate::to_json::ToJson;
use crate::write::{write_variant, write_variants};
use crate::writer::Writer;
use naga_arena::Handle;
use naga_ir::{Expression, RayPipelineFunction, RayQueryFunction, Statement};
use std::alloc::AllocError;

impl ToJson for RayQueryFunction {
    ghost encoding = { direct ray_query_function_codec.encode };

    fn write(&self, out: &mut Writer) -> Result<(), AllocError> {
        write_variants! { RayQueryFunction, self, out;
            Initialize { acceleration_structure, descriptor },
            Proceed { result },
            GenerateIntersection { hit_t },
            ConfirmIntersection,
            Terminate,
        }
    }
}

impl ToJson for RayPipelineFunction {
    ghost encoding = { direct ray_pipeline_function_codec.encode };

    fn write(&self, out: &mut Writer) -> Result<(), AllocError> {
        match self {
            RayPipelineFunction::TraceRay {
                acceleration_structure,
                descriptor,
                payload,
            } => write_trace_ray(out, acceleration_structure, descriptor, payload),
        }
    }
}

/// Appends a `TraceRay`.
fn write_trace_ray(
    out: &mut Writer,
    acceleration_structure: &Handle<Expression>,
    descriptor: &Handle<Expression>,
    payload: &Handle<Expression>,
) -> Result<(), AllocError>
    ensures before { out.new.before ≡ out.old.before }
    ensures tokens { Appends result out.old out.new
        (held_json ray_pipeline_function_trace_ray (acceleration_structure.now, (descriptor.now, (payload.now, tt)))) }
{
    write_variant! { out, TraceRay { acceleration_structure, descriptor, payload } }
}

/// Appends a plain statement.
///
/// Precondition: the statement is plain.
pub(crate) fn write_plain_statement(out: &mut Writer, value: &Statement) -> Result<(), AllocError>
    requires { IsTrue (is_plain (node_of value.now)) }
    ensures before { out.new.before ≡ out.old.before }
    ensures tokens { Appends result out.old out.new (statement_json (value_of_statement value.now)) }
{
    write_variants! { Statement, value, out;
        Emit(held),
        ControlBarrier(held),
        MemoryBarrier(held),
        Store { pointer, value },
        ImageStore { image, coordinate, array_index, value },
        Atomic { pointer, fun, value, result },
        ImageAtomic { image, coordinate, array_index, fun, value },
        WorkGroupUniformLoad { pointer, result },
        Call { function, arguments, result },
        RayQuery { query, fun },
        RayPipelineFunction(held),
        SubgroupBallot { result, predicate },
        SubgroupGather { mode, argument, result },
        SubgroupCollectiveOperation { op, collective_op, argument, result },
        CooperativeStore { target, data };
        _ => unreachable!(),
    }
}
