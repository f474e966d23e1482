// Made by tests/derive from the declarations of naga_kinds and naga_ir.
//! What naga_ir declares in expression.rt.
ghost use Rattle.naga_json.specs.Expression.{value_of};
ghost use Rattle.naga_json.specs.derived.Expression.{atomic_function_codec, cooperative_data_codec, expression_form, gather_mode_codec, image_query_codec, sample_level_codec};

use crate::in_range::{InRange, has_its_length};
use naga_ir::{AtomicFunction, CooperativeData, Expression, GatherMode, ImageQuery, SampleLevel};

impl InRange for AtomicFunction {
    ghost Fits = { atomic_function_codec.Fits };

    fn in_range(&self) {
        match self {
            AtomicFunction::Add => {}
            AtomicFunction::Subtract => {}
            AtomicFunction::And => {}
            AtomicFunction::ExclusiveOr => {}
            AtomicFunction::InclusiveOr => {}
            AtomicFunction::Min => {}
            AtomicFunction::Max => {}
            AtomicFunction::Exchange { compare } => compare.in_range(),
        }
    }
}

impl InRange for SampleLevel {
    ghost Fits = { sample_level_codec.Fits };

    fn in_range(&self) {
        match self {
            SampleLevel::Auto => {}
            SampleLevel::Zero => {}
            SampleLevel::Exact(held) => held.in_range(),
            SampleLevel::Bias(held) => held.in_range(),
            SampleLevel::Gradient { x, y } => {
                x.in_range();
                y.in_range();
            }
        }
    }
}

impl InRange for ImageQuery {
    ghost Fits = { image_query_codec.Fits };

    fn in_range(&self) {
        match self {
            ImageQuery::Size { level } => level.in_range(),
            ImageQuery::NumLevels => {}
            ImageQuery::NumLayers => {}
            ImageQuery::NumSamples => {}
        }
    }
}

impl InRange for GatherMode {
    ghost Fits = { gather_mode_codec.Fits };

    fn in_range(&self) {
        match self {
            GatherMode::BroadcastFirst => {}
            GatherMode::Broadcast(held) => held.in_range(),
            GatherMode::Shuffle(held) => held.in_range(),
            GatherMode::ShuffleDown(held) => held.in_range(),
            GatherMode::ShuffleUp(held) => held.in_range(),
            GatherMode::ShuffleXor(held) => held.in_range(),
            GatherMode::QuadBroadcast(held) => held.in_range(),
            GatherMode::QuadSwap(_) => {}
        }
    }
}

impl InRange for CooperativeData {
    ghost Fits = { cooperative_data_codec.Fits };

    fn in_range(&self) {
        self.pointer.in_range();
        self.stride.in_range();
    }
}

impl InRange for Expression {
    ghost Fits = { λ value. expression_form.Fits (value_of value) };

    fn in_range(&self) {
        match self {
            Expression::Literal(held) => held.in_range(),
            Expression::Constant(held) => held.in_range(),
            Expression::Override(held) => held.in_range(),
            Expression::ZeroValue(held) => held.in_range(),
            Expression::Compose { ty, components } => {
                ty.in_range();
                components.in_range();
            }
            Expression::Access { base, index } => {
                base.in_range();
                index.in_range();
            }
            Expression::AccessIndex { base, index } => {
                base.in_range();
                index.in_range();
            }
            Expression::Splat { value, .. } => value.in_range(),
            Expression::Swizzle {
                vector,
                pattern,
                ..
            } => {
                vector.in_range();
                has_its_length(pattern);
            }
            Expression::FunctionArgument(held) => held.in_range(),
            Expression::GlobalVariable(held) => held.in_range(),
            Expression::LocalVariable(held) => held.in_range(),
            Expression::Load { pointer } => pointer.in_range(),
            Expression::ImageSample {
                image,
                sampler,
                coordinate,
                array_index,
                offset,
                level,
                depth_ref,
                ..
            } => {
                image.in_range();
                sampler.in_range();
                coordinate.in_range();
                array_index.in_range();
                offset.in_range();
                level.in_range();
                depth_ref.in_range();
            }
            Expression::ImageLoad {
                image,
                coordinate,
                array_index,
                sample,
                level,
            } => {
                image.in_range();
                coordinate.in_range();
                array_index.in_range();
                sample.in_range();
                level.in_range();
            }
            Expression::ImageQuery { image, query } => {
                image.in_range();
                query.in_range();
            }
            Expression::Unary { expr, .. } => expr.in_range(),
            Expression::Binary { left, right, .. } => {
                left.in_range();
                right.in_range();
            }
            Expression::Select {
                condition,
                accept,
                reject,
            } => {
                condition.in_range();
                accept.in_range();
                reject.in_range();
            }
            Expression::Derivative { expr, .. } => expr.in_range(),
            Expression::Relational { argument, .. } => argument.in_range(),
            Expression::Math {
                arg,
                arg1,
                arg2,
                arg3,
                ..
            } => {
                arg.in_range();
                arg1.in_range();
                arg2.in_range();
                arg3.in_range();
            }
            Expression::As { expr, convert, .. } => {
                expr.in_range();
                convert.in_range();
            }
            Expression::CallResult(held) => held.in_range(),
            Expression::AtomicResult { ty, .. } => ty.in_range(),
            Expression::WorkGroupUniformLoadResult { ty } => ty.in_range(),
            Expression::ArrayLength(held) => held.in_range(),
            Expression::RayQueryVertexPositions { query, .. } => query.in_range(),
            Expression::RayQueryProceedResult => {}
            Expression::RayQueryGetIntersection { query, .. } => query.in_range(),
            Expression::SubgroupBallotResult => {}
            Expression::SubgroupOperationResult { ty } => ty.in_range(),
            Expression::CooperativeLoad { data, .. } => data.in_range(),
            Expression::CooperativeMultiplyAdd { a, b, c } => {
                a.in_range();
                b.in_range();
                c.in_range();
            }
        }
    }
}
