// Made by tests/derive from the declarations of naga_kinds and naga_ir.
//! What naga_ir declares in expression.rt.
ghost use Rattle.std.specs.Prelude.{◌≡◌};
ghost use Rattle.naga_json_write.specs.Appends.{Appends};
ghost use Rattle.naga_json_write.specs.Encoding.{direct};
ghost use Rattle.naga_json.specs.Expression.{value_of};
ghost use Rattle.naga_json.specs.derived.Expression.{atomic_function_codec, cooperative_data_codec, expression_payload, gather_mode_codec, image_query_codec, sample_level_codec};

use crate::to_json::ToJson;
use crate::write::{write_struct, write_variants};
use crate::writer::Writer;
use naga_ir::{AtomicFunction, CooperativeData, Expression, GatherMode, ImageQuery, SampleLevel};
use std::alloc::AllocError;

impl ToJson for AtomicFunction {
    ghost encoding = { direct atomic_function_codec.encode };

    fn write(&self, out: &mut Writer) -> Result<(), AllocError> {
        write_variants! { AtomicFunction, self, out;
            Add,
            Subtract,
            And,
            ExclusiveOr,
            InclusiveOr,
            Min,
            Max,
            Exchange { compare },
        }
    }
}

impl ToJson for SampleLevel {
    ghost encoding = { direct sample_level_codec.encode };

    fn write(&self, out: &mut Writer) -> Result<(), AllocError> {
        write_variants! { SampleLevel, self, out;
            Auto,
            Zero,
            Exact(held),
            Bias(held),
            Gradient { x, y },
        }
    }
}

impl ToJson for ImageQuery {
    ghost encoding = { direct image_query_codec.encode };

    fn write(&self, out: &mut Writer) -> Result<(), AllocError> {
        write_variants! { ImageQuery, self, out;
            Size { level },
            NumLevels,
            NumLayers,
            NumSamples,
        }
    }
}

impl ToJson for GatherMode {
    ghost encoding = { direct gather_mode_codec.encode };

    fn write(&self, out: &mut Writer) -> Result<(), AllocError> {
        write_variants! { GatherMode, self, out;
            BroadcastFirst,
            Broadcast(held),
            Shuffle(held),
            ShuffleDown(held),
            ShuffleUp(held),
            ShuffleXor(held),
            QuadBroadcast(held),
            QuadSwap(held),
        }
    }
}

impl ToJson for CooperativeData {
    ghost encoding = { direct cooperative_data_codec.encode };

    fn write(&self, out: &mut Writer) -> Result<(), AllocError> {
        write_struct! { self, out; pointer, stride, row_major }
    }
}

/// Appends an expression that is not a literal. Appends null for a literal.
pub(crate) fn write_plain_expression(out: &mut Writer, value: &Expression) -> Result<(), AllocError>
    ensures before { out.new.before ≡ out.old.before }
    ensures tokens { Appends result out.old out.new (expression_payload (value_of value.now)).json }
{
    write_variants! { Expression, value, out;
        Constant(held),
        Override(held),
        ZeroValue(held),
        Compose { ty, components },
        Access { base, index },
        AccessIndex { base, index },
        Splat { size, value },
        Swizzle { size, vector, pattern },
        FunctionArgument(held),
        GlobalVariable(held),
        LocalVariable(held),
        Load { pointer },
        ImageSample { image, sampler, gather, coordinate, array_index, offset, level, depth_ref, clamp_to_edge },
        ImageLoad { image, coordinate, array_index, sample, level },
        ImageQuery { image, query },
        Unary { op, expr },
        Binary { op, left, right },
        Select { condition, accept, reject },
        Derivative { axis, ctrl, expr },
        Relational { fun, argument },
        Math { fun, arg, arg1, arg2, arg3 },
        As { expr, kind, convert },
        CallResult(held),
        AtomicResult { ty, comparison },
        WorkGroupUniformLoadResult { ty },
        ArrayLength(held),
        RayQueryVertexPositions { query, committed },
        RayQueryProceedResult,
        RayQueryGetIntersection { query, committed },
        SubgroupBallotResult,
        SubgroupOperationResult { ty },
        CooperativeLoad { columns, rows, role, data },
        CooperativeMultiplyAdd { a, b, c };
        Expression::Literal(_) => out.null(),
    }
}
