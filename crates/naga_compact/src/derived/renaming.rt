// Made by tests/derive from the declarations of naga_kinds and naga_ir.
//! Replacing the handles that expressions, plain statements and types contain.
ghost use Rattle.std.specs.Prelude.{IsTrue, ◌≡◌};
ghost use Rattle.naga_ir.specs.Tree.{is_plain};
ghost use Rattle.naga_ir.specs.View.{node_of};
ghost use Rattle.naga_compact.specs.derived.Renaming.{rename_array_size, rename_atomic_function, rename_cooperative_data, rename_expression, rename_gather_mode, rename_image_query, rename_ray_pipeline_function, rename_ray_query_function, rename_sample_level, rename_statement, rename_struct_member, rename_type, rename_type_inner};

use crate::renaming::{NewHandles, Rename};
use naga_ir::{
    ArraySize, AtomicFunction, CooperativeData, Expression, GatherMode, ImageQuery,
    RayPipelineFunction, RayQueryFunction, SampleLevel, Statement, StructMember, Type, TypeInner,
};

impl Rename for SampleLevel {
    ghost renamed = { rename_sample_level };

    // One line for each variant.
    #[rattlefmt::skip]
    fn rename<N: NewHandles>(&mut self, new: &N) {
        match self {
            SampleLevel::Auto => {}
            SampleLevel::Zero => {}
            SampleLevel::Exact(expression) => expression.rename(new),
            SampleLevel::Bias(expression) => expression.rename(new),
            SampleLevel::Gradient { x, y } => { x.rename(new); y.rename(new); }
        }
    }
}

impl Rename for ImageQuery {
    ghost renamed = { rename_image_query };

    // One line for each variant.
    #[rattlefmt::skip]
    fn rename<N: NewHandles>(&mut self, new: &N) {
        match self {
            ImageQuery::Size { level } => level.rename(new),
            ImageQuery::NumLevels => {}
            ImageQuery::NumLayers => {}
            ImageQuery::NumSamples => {}
        }
    }
}

impl Rename for CooperativeData {
    ghost renamed = { rename_cooperative_data };

    fn rename<N: NewHandles>(&mut self, new: &N) {
        self.pointer.rename(new);
        self.stride.rename(new);
    }
}

impl Rename for Expression {
    ghost renamed = { rename_expression };

    // One line for each variant.
    #[rattlefmt::skip]
    fn rename<N: NewHandles>(&mut self, new: &N) {
        match self {
            Expression::Literal(_) => {}
            Expression::Constant(constant) => constant.rename(new),
            Expression::Override(pipeline_override) => pipeline_override.rename(new),
            Expression::ZeroValue(ty) => ty.rename(new),
            Expression::Compose { ty, components } => { ty.rename(new); components.rename(new); }
            Expression::Access { base, index } => { base.rename(new); index.rename(new); }
            Expression::AccessIndex { base, .. } => base.rename(new),
            Expression::Splat { value, .. } => value.rename(new),
            Expression::Swizzle { vector, .. } => vector.rename(new),
            Expression::FunctionArgument(_) => {}
            Expression::GlobalVariable(global_variable) => global_variable.rename(new),
            Expression::LocalVariable(_) => {}
            Expression::Load { pointer } => pointer.rename(new),
            Expression::ImageSample { image, sampler, coordinate, array_index, offset, level, depth_ref, .. } => {
                image.rename(new); sampler.rename(new); coordinate.rename(new); array_index.rename(new);
                offset.rename(new); level.rename(new); depth_ref.rename(new);
            }
            Expression::ImageLoad { image, coordinate, array_index, sample, level } => {
                image.rename(new); coordinate.rename(new); array_index.rename(new); sample.rename(new);
                level.rename(new);
            }
            Expression::ImageQuery { image, query } => { image.rename(new); query.rename(new); }
            Expression::Unary { expr, .. } => expr.rename(new),
            Expression::Binary { left, right, .. } => { left.rename(new); right.rename(new); }
            Expression::Select { condition, accept, reject } => {
                condition.rename(new); accept.rename(new); reject.rename(new);
            }
            Expression::Derivative { expr, .. } => expr.rename(new),
            Expression::Relational { argument, .. } => argument.rename(new),
            Expression::Math { arg, arg1, arg2, arg3, .. } => {
                arg.rename(new); arg1.rename(new); arg2.rename(new); arg3.rename(new);
            }
            Expression::As { expr, .. } => expr.rename(new),
            Expression::CallResult(function) => function.rename(new),
            Expression::AtomicResult { ty, .. } => ty.rename(new),
            Expression::WorkGroupUniformLoadResult { ty } => ty.rename(new),
            Expression::ArrayLength(expression) => expression.rename(new),
            Expression::RayQueryVertexPositions { query, .. } => query.rename(new),
            Expression::RayQueryProceedResult => {}
            Expression::RayQueryGetIntersection { query, .. } => query.rename(new),
            Expression::SubgroupBallotResult => {}
            Expression::SubgroupOperationResult { ty } => ty.rename(new),
            Expression::CooperativeLoad { data, .. } => data.rename(new),
            Expression::CooperativeMultiplyAdd { a, b, c } => { a.rename(new); b.rename(new); c.rename(new); }
        }
    }
}

impl Rename for AtomicFunction {
    ghost renamed = { rename_atomic_function };

    // One line for each variant.
    #[rattlefmt::skip]
    fn rename<N: NewHandles>(&mut self, new: &N) {
        match self {
            AtomicFunction::Add => {}
            AtomicFunction::Subtract => {}
            AtomicFunction::And => {}
            AtomicFunction::ExclusiveOr => {}
            AtomicFunction::InclusiveOr => {}
            AtomicFunction::Min => {}
            AtomicFunction::Max => {}
            AtomicFunction::Exchange { compare } => compare.rename(new),
        }
    }
}

impl Rename for RayQueryFunction {
    ghost renamed = { rename_ray_query_function };

    // One line for each variant.
    #[rattlefmt::skip]
    fn rename<N: NewHandles>(&mut self, new: &N) {
        match self {
            RayQueryFunction::Initialize { acceleration_structure, descriptor } => {
                acceleration_structure.rename(new); descriptor.rename(new);
            }
            RayQueryFunction::Proceed { result: outcome } => outcome.rename(new),
            RayQueryFunction::GenerateIntersection { hit_t } => hit_t.rename(new),
            RayQueryFunction::ConfirmIntersection => {}
            RayQueryFunction::Terminate => {}
        }
    }
}

impl Rename for RayPipelineFunction {
    ghost renamed = { rename_ray_pipeline_function };

    // One line for each variant.
    #[rattlefmt::skip]
    fn rename<N: NewHandles>(&mut self, new: &N) {
        match self {
            RayPipelineFunction::TraceRay { acceleration_structure, descriptor, payload } => {
                acceleration_structure.rename(new); descriptor.rename(new); payload.rename(new);
            }
        }
    }
}

impl Rename for GatherMode {
    ghost renamed = { rename_gather_mode };

    // One line for each variant.
    #[rattlefmt::skip]
    fn rename<N: NewHandles>(&mut self, new: &N) {
        match self {
            GatherMode::BroadcastFirst => {}
            GatherMode::Broadcast(expression) => expression.rename(new),
            GatherMode::Shuffle(expression) => expression.rename(new),
            GatherMode::ShuffleDown(expression) => expression.rename(new),
            GatherMode::ShuffleUp(expression) => expression.rename(new),
            GatherMode::ShuffleXor(expression) => expression.rename(new),
            GatherMode::QuadBroadcast(expression) => expression.rename(new),
            GatherMode::QuadSwap(_) => {}
        }
    }
}

/// Replaces the handles that a plain statement contains, in place.
///
/// Precondition: the statement is plain.
// One line for each variant.
#[rattlefmt::skip]
pub(crate) fn rename_plain<N: NewHandles>(statement: &mut Statement, new: &N)
    requires { IsTrue (is_plain (node_of statement.old)) }
    ensures { statement.new ≡ rename_statement (N.renaming new.now) statement.old }
{
    match statement {
        Statement::Emit(range) => range.rename(new),
        Statement::ControlBarrier(_) => {}
        Statement::MemoryBarrier(_) => {}
        Statement::Store { pointer, value } => { pointer.rename(new); value.rename(new); }
        Statement::ImageStore { image, coordinate, array_index, value } => {
            image.rename(new); coordinate.rename(new); array_index.rename(new); value.rename(new);
        }
        Statement::Atomic { pointer, fun, value, result: outcome } => {
            pointer.rename(new); fun.rename(new); value.rename(new); outcome.rename(new);
        }
        Statement::ImageAtomic { image, coordinate, array_index, fun, value } => {
            image.rename(new); coordinate.rename(new); array_index.rename(new); fun.rename(new); value.rename(new);
        }
        Statement::WorkGroupUniformLoad { pointer, result: outcome } => {
            pointer.rename(new); outcome.rename(new);
        }
        Statement::Call { function, arguments, result: outcome } => {
            function.rename(new); arguments.rename(new); outcome.rename(new);
        }
        Statement::RayQuery { query, fun } => { query.rename(new); fun.rename(new); }
        Statement::RayPipelineFunction(ray_pipeline_function) => ray_pipeline_function.rename(new),
        Statement::SubgroupBallot { result: outcome, predicate } => { outcome.rename(new); predicate.rename(new); }
        Statement::SubgroupGather { mode, argument, result: outcome } => {
            mode.rename(new); argument.rename(new); outcome.rename(new);
        }
        Statement::SubgroupCollectiveOperation { argument, result: outcome, .. } => {
            argument.rename(new); outcome.rename(new);
        }
        Statement::CooperativeStore { target, data } => { target.rename(new); data.rename(new); }
        _ => unreachable!(),
    }
}

impl Rename for ArraySize {
    ghost renamed = { rename_array_size };

    // One line for each variant.
    #[rattlefmt::skip]
    fn rename<N: NewHandles>(&mut self, new: &N) {
        match self {
            ArraySize::Constant(_) => {}
            ArraySize::Pending(pipeline_override) => pipeline_override.rename(new),
            ArraySize::Dynamic => {}
        }
    }
}

impl Rename for StructMember {
    ghost renamed = { rename_struct_member };

    fn rename<N: NewHandles>(&mut self, new: &N) {
        self.ty.rename(new);
    }
}

impl Rename for TypeInner {
    ghost renamed = { rename_type_inner };

    // One line for each variant.
    #[rattlefmt::skip]
    fn rename<N: NewHandles>(&mut self, new: &N) {
        match self {
            TypeInner::Scalar(_) => {}
            TypeInner::Vector { .. } => {}
            TypeInner::Matrix { .. } => {}
            TypeInner::CooperativeMatrix { .. } => {}
            TypeInner::Atomic(_) => {}
            TypeInner::Pointer { base, .. } => base.rename(new),
            TypeInner::ValuePointer { .. } => {}
            TypeInner::Array { base, size, .. } => { base.rename(new); size.rename(new); }
            TypeInner::Struct { members, .. } => members.rename(new),
            TypeInner::Image { .. } => {}
            TypeInner::Sampler { .. } => {}
            TypeInner::AccelerationStructure { .. } => {}
            TypeInner::RayQuery { .. } => {}
            TypeInner::BindingArray { base, size } => { base.rename(new); size.rename(new); }
        }
    }
}

impl Rename for Type {
    ghost renamed = { rename_type };

    fn rename<N: NewHandles>(&mut self, new: &N) {
        self.inner.rename(new);
    }
}
