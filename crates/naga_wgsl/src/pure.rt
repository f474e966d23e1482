//! Which expressions a text may write out where they are used.
ghost use Rattle.std.specs.Prelude.{◌≡◌, Some};
ghost use Rattle.naga_wgsl.specs.Pure.{is_pure, may_be_inline};

use naga_ir::Expression;

/// Returns whether no statement changes the value of an expression for given values of its operands.
///
/// This is so unless it reads memory, a texel or a ray query, other invocations take part in it, or it is the result of a
/// statement.
pub fn is_pure(expression: &Expression) -> bool
    ensures { result ≡ is_pure expression.now }
{
    match expression {
        Expression::Literal(_) => true,
        Expression::Constant(_) => true,
        Expression::Override(_) => true,
        Expression::ZeroValue(_) => true,
        Expression::Compose { .. } => true,
        Expression::Access { .. } => true,
        Expression::AccessIndex { .. } => true,
        Expression::Splat { .. } => true,
        Expression::Swizzle { .. } => true,
        Expression::FunctionArgument(_) => true,
        Expression::GlobalVariable(_) => true,
        Expression::LocalVariable(_) => true,
        Expression::Load { .. } => false,
        Expression::ImageSample { .. } => false,
        Expression::ImageLoad { .. } => false,
        Expression::ImageQuery { .. } => true,
        Expression::Unary { .. } => true,
        Expression::Binary { .. } => true,
        Expression::Select { .. } => true,
        Expression::Derivative { .. } => false,
        Expression::Relational { .. } => true,
        Expression::Math { .. } => true,
        Expression::As { .. } => true,
        Expression::CallResult(_) => false,
        Expression::AtomicResult { .. } => false,
        Expression::WorkGroupUniformLoadResult { .. } => false,
        Expression::ArrayLength(_) => true,
        Expression::RayQueryVertexPositions { .. } => false,
        Expression::RayQueryProceedResult => false,
        Expression::RayQueryGetIntersection { .. } => false,
        Expression::SubgroupBallotResult => false,
        Expression::SubgroupOperationResult { .. } => false,
        Expression::CooperativeLoad { .. } => false,
        Expression::CooperativeMultiplyAdd { .. } => false,
    }
}

/// Returns whether a text may write an expression out where it is used: it is pure, and an `Emit` evaluates it.
///
/// By [`pure_expressions_may_be_inline`](crate::laws::inlining::pure_expressions_may_be_inline), any choice of such
/// expressions may be written out.
pub fn may_be_inline(expression: &Expression) -> bool
    ensures { result ≡ may_be_inline (Some expression.now) }
{
    is_pure(expression) && !expression.needs_pre_emit()
}
