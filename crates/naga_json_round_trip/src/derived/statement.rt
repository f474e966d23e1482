// Made by tests/derive from the declarations of naga_kinds and naga_ir.
//! What naga_ir declares in statement.rt.
ghost use Rattle.std.specs.Bool.{Decides};
ghost use Rattle.naga_json_round_trip.specs.Module.{PlainFits};
ghost use Rattle.naga_json.specs.derived.Statement.{ray_pipeline_function_codec, ray_query_function_codec};

use crate::in_range::InRange;
use crate::read_back::range::range_reads_back;
use naga_ir::{RayPipelineFunction, RayQueryFunction, Statement};

impl InRange for RayQueryFunction {
    ghost Fits = { ray_query_function_codec.Fits };

    fn in_range(&self) {
        match self {
            RayQueryFunction::Initialize {
                acceleration_structure,
                descriptor,
            } => {
                acceleration_structure.in_range();
                descriptor.in_range();
            }
            RayQueryFunction::Proceed { result } => result.in_range(),
            RayQueryFunction::GenerateIntersection { hit_t } => hit_t.in_range(),
            RayQueryFunction::ConfirmIntersection => {}
            RayQueryFunction::Terminate => {}
        }
    }
}

impl InRange for RayPipelineFunction {
    ghost Fits = { ray_pipeline_function_codec.Fits };

    fn in_range(&self) {
        match self {
            RayPipelineFunction::TraceRay {
                acceleration_structure,
                descriptor,
                payload,
            } => {
                acceleration_structure.in_range();
                descriptor.in_range();
                payload.in_range();
            }
        }
    }
}

/// Returns whether a statement contains no block, does not jump, and is read as it was written.
pub(crate) fn plain_reads_back(statement: &Statement) -> bool
    ensures { Decides result (PlainFits statement.now) }
{
    match statement {
        Statement::Emit(held) => return range_reads_back(held),
        Statement::Block(_) => return false,
        Statement::If { .. } => return false,
        Statement::Switch { .. } => return false,
        Statement::Loop { .. } => return false,
        Statement::Break => return false,
        Statement::Continue => return false,
        Statement::Return { .. } => return false,
        Statement::Kill => return false,
        Statement::ControlBarrier(held) => held.in_range(),
        Statement::MemoryBarrier(held) => held.in_range(),
        Statement::Store { pointer, value } => {
            pointer.in_range();
            value.in_range();
        }
        Statement::ImageStore {
            image,
            coordinate,
            array_index,
            value,
        } => {
            image.in_range();
            coordinate.in_range();
            array_index.in_range();
            value.in_range();
        }
        Statement::Atomic {
            pointer,
            fun,
            value,
            result,
        } => {
            pointer.in_range();
            fun.in_range();
            value.in_range();
            result.in_range();
        }
        Statement::ImageAtomic {
            image,
            coordinate,
            array_index,
            fun,
            value,
        } => {
            image.in_range();
            coordinate.in_range();
            array_index.in_range();
            fun.in_range();
            value.in_range();
        }
        Statement::WorkGroupUniformLoad { pointer, result } => {
            pointer.in_range();
            result.in_range();
        }
        Statement::Call {
            function,
            arguments,
            result,
        } => {
            function.in_range();
            arguments.in_range();
            result.in_range();
        }
        Statement::RayQuery { query, fun } => {
            query.in_range();
            fun.in_range();
        }
        Statement::RayPipelineFunction(held) => held.in_range(),
        Statement::SubgroupBallot { result, predicate } => {
            result.in_range();
            predicate.in_range();
        }
        Statement::SubgroupGather {
            mode,
            argument,
            result,
        } => {
            mode.in_range();
            argument.in_range();
            result.in_range();
        }
        Statement::SubgroupCollectiveOperation {
            argument,
            result,
            ..
        } => {
            argument.in_range();
            result.in_range();
        }
        Statement::CooperativeStore { target, data } => {
            target.in_range();
            data.in_range();
        }
    }
    true
}
