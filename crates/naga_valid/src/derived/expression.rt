// Made by tests/derive from the declarations of naga_kinds and naga_ir.
//! The references of expressions.
//!
//! Functions that list expressions are not inlined into the table, which would clear these
//! lists for each expression.
ghost use Rattle.std.specs.Prelude.{[], Some, ◌∷◌, ◌≡◌};
ghost use Rattle.naga_valid.specs.declared.reference.Reference.TheVariants as reference;
ghost use Rattle.naga_valid.specs.Reference.{operands, present};
ghost use Rattle.naga_valid.specs.Expressions.{first_of_sample_level, operand_of_image_query, references_of_expression, second_of_sample_level};
ghost use Rattle.naga_valid.specs.Visits.{IsWalk};

use crate::reference::Reference;
use crate::references::Refers;
use crate::references::operands::{each_present, none, one, single, three, two};
use crate::visitor::Visitor;
use naga_arena::Handle;
use naga_ir::{Expression, ImageQuery, SampleLevel, Type};
use std::ops::ControlFlow;

impl Refers for Expression {
    ghost references = { references_of_expression };

    // One line for each variant.
    #[rattlefmt::skip]
    fn visit_references<V: Visitor>(&self, visitor: &mut V) -> ControlFlow<V::Break> {
        match self {
            Expression::Literal(_) => none(visitor),
            Expression::Constant(constant) => single(visitor, Reference::Constant(*constant)),
            Expression::Override(pipeline_override) => single(visitor, Reference::Override(*pipeline_override)),
            Expression::ZeroValue(ty) => single(visitor, Reference::Type(*ty)),
            Expression::Compose { ty, components } => visit_compose(visitor, *ty, components),
            Expression::Access { base, index } => two(visitor, *base, *index),
            Expression::AccessIndex { base, .. } => one(visitor, *base),
            Expression::Splat { value, .. } => one(visitor, *value),
            Expression::Swizzle { vector, .. } => one(visitor, *vector),
            Expression::FunctionArgument(_) => none(visitor),
            Expression::GlobalVariable(global_variable) => single(visitor, Reference::GlobalVariable(*global_variable)),
            Expression::LocalVariable(local_variable) => single(visitor, Reference::LocalVariable(*local_variable)),
            Expression::Load { pointer } => one(visitor, *pointer),
            Expression::ImageSample { image, sampler, coordinate, array_index, offset, level, depth_ref, .. } =>
                visit_image_sample(visitor, *image, *sampler, *coordinate, *array_index, *offset, level, *depth_ref),
            Expression::ImageLoad { image, coordinate, array_index, sample, level } =>
                visit_image_load(visitor, *image, *coordinate, *array_index, *sample, *level),
            Expression::ImageQuery { image, query } => visit_image_query(visitor, *image, query),
            Expression::Unary { expr, .. } => one(visitor, *expr),
            Expression::Binary { left, right, .. } => two(visitor, *left, *right),
            Expression::Select { condition, accept, reject } => three(visitor, *condition, *accept, *reject),
            Expression::Derivative { expr, .. } => one(visitor, *expr),
            Expression::Relational { argument, .. } => one(visitor, *argument),
            Expression::Math { arg, arg1, arg2, arg3, .. } => visit_math(visitor, *arg, *arg1, *arg2, *arg3),
            Expression::As { expr, .. } => one(visitor, *expr),
            Expression::CallResult(function) => single(visitor, Reference::Function(*function)),
            Expression::AtomicResult { ty, .. } => single(visitor, Reference::Type(*ty)),
            Expression::WorkGroupUniformLoadResult { ty } => single(visitor, Reference::Type(*ty)),
            Expression::ArrayLength(expression) => one(visitor, *expression),
            Expression::RayQueryVertexPositions { query, .. } => one(visitor, *query),
            Expression::RayQueryProceedResult => none(visitor),
            Expression::RayQueryGetIntersection { query, .. } => one(visitor, *query),
            Expression::SubgroupBallotResult => none(visitor),
            Expression::SubgroupOperationResult { ty } => single(visitor, Reference::Type(*ty)),
            Expression::CooperativeLoad { data, .. } => two(visitor, data.pointer, data.stride),
            Expression::CooperativeMultiplyAdd { a, b, c } => three(visitor, *a, *b, *c),
        }
    }
}

/// Visits the references of a `Compose`.
fn visit_compose<V: Visitor>(
    visitor: &mut V,
    ty: Handle<Type>,
    components: &[Handle<Expression>],
) -> ControlFlow<V::Break>
    ensures { IsWalk V.visits visitor.old (reference.«Type» ty ∷ operands components.entry.now) result visitor.new }
{
    match visitor.visit(Reference::Type(ty)) {
        ControlFlow::Continue(()) => visitor.visit_each(components),
        ControlFlow::Break(stop) => ControlFlow::Break(stop),
    }
}

/// Visits the expressions that an `ImageSample` contains.
#[inline(never)]
#[rattlefmt::skip]
fn visit_image_sample<V: Visitor>(
    visitor: &mut V,
    image: Handle<Expression>,
    sampler: Handle<Expression>,
    coordinate: Handle<Expression>,
    array_index: Option<Handle<Expression>>,
    offset: Option<Handle<Expression>>,
    level: &SampleLevel,
    depth_ref: Option<Handle<Expression>>,
) -> ControlFlow<V::Break>
    ensures { IsWalk V.visits visitor.old (present (Some image ∷ Some sampler ∷ Some coordinate ∷ array_index ∷ offset ∷
        first_of_sample_level level.now ∷ second_of_sample_level level.now ∷ depth_ref ∷ [])) result visitor.new }
{
    let level_first = first_of_sample_level(level);
    let level_second = second_of_sample_level(level);
    each_present(visitor, &[
        Some(image), Some(sampler), Some(coordinate), array_index, offset, level_first, level_second, depth_ref,
    ])
}

/// Visits the expressions that an `ImageLoad` contains.
#[inline(never)]
#[rattlefmt::skip]
fn visit_image_load<V: Visitor>(
    visitor: &mut V,
    image: Handle<Expression>,
    coordinate: Handle<Expression>,
    array_index: Option<Handle<Expression>>,
    sample: Option<Handle<Expression>>,
    level: Option<Handle<Expression>>,
) -> ControlFlow<V::Break>
    ensures { IsWalk V.visits visitor.old (present (Some image ∷ Some coordinate ∷ array_index ∷ sample ∷ level ∷ []))
        result visitor.new }
{
    each_present(visitor, &[Some(image), Some(coordinate), array_index, sample, level])
}

/// Visits the expressions that an `ImageQuery` contains.
#[inline(never)]
#[rattlefmt::skip]
fn visit_image_query<V: Visitor>(
    visitor: &mut V,
    image: Handle<Expression>,
    query: &ImageQuery,
) -> ControlFlow<V::Break>
    ensures { IsWalk V.visits visitor.old (present (Some image ∷ operand_of_image_query query.now ∷ [])) result
        visitor.new }
{
    let query_operand = operand_of_image_query(query);
    each_present(visitor, &[Some(image), query_operand])
}

/// Visits the expressions that a `Math` contains.
#[inline(never)]
#[rattlefmt::skip]
fn visit_math<V: Visitor>(
    visitor: &mut V,
    arg: Handle<Expression>,
    arg1: Option<Handle<Expression>>,
    arg2: Option<Handle<Expression>>,
    arg3: Option<Handle<Expression>>,
) -> ControlFlow<V::Break>
    ensures { IsWalk V.visits visitor.old (present (Some arg ∷ arg1 ∷ arg2 ∷ arg3 ∷ [])) result visitor.new }
{
    each_present(visitor, &[Some(arg), arg1, arg2, arg3])
}

/// Returns the first expression that a `SampleLevel` contains.
fn first_of_sample_level(sample_level: &SampleLevel) -> Option<Handle<Expression>>
    ensures { result ≡ first_of_sample_level sample_level.now }
{
    match sample_level {
        SampleLevel::Auto => None,
        SampleLevel::Zero => None,
        SampleLevel::Exact(expression) => Some(*expression),
        SampleLevel::Bias(expression) => Some(*expression),
        SampleLevel::Gradient { x, .. } => Some(*x),
    }
}

/// Returns the second expression that a `SampleLevel` contains.
fn second_of_sample_level(sample_level: &SampleLevel) -> Option<Handle<Expression>>
    ensures { result ≡ second_of_sample_level sample_level.now }
{
    match sample_level {
        SampleLevel::Auto => None,
        SampleLevel::Zero => None,
        SampleLevel::Exact(_) => None,
        SampleLevel::Bias(_) => None,
        SampleLevel::Gradient { y, .. } => Some(*y),
    }
}

/// Returns the expression that an `ImageQuery` contains.
fn operand_of_image_query(image_query: &ImageQuery) -> Option<Handle<Expression>>
    ensures { result ≡ operand_of_image_query image_query.now }
{
    match image_query {
        ImageQuery::Size { level } => *level,
        ImageQuery::NumLevels => None,
        ImageQuery::NumLayers => None,
        ImageQuery::NumSamples => None,
    }
}
