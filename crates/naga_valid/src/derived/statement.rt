// Made by tests/derive from the declarations of naga_kinds and naga_ir.
//! The references of statements.
//!
//! Functions that list expressions are not inlined into the table, which would clear these
//! lists for each statement.
ghost use Rattle.std.specs.Prelude.{[], option_to_list, Some, ◌++◌, ◌∷◌, ◌≡◌};
ghost use Rattle.std.specs.Option.{option_map};
ghost use Rattle.naga_valid.specs.declared.reference.Reference.TheVariants as reference;
ghost use Rattle.naga_valid.specs.Reference.{operands, present};
ghost use Rattle.naga_valid.specs.Statements.{operand_of_atomic_function, operand_of_gather_mode, operands_of_ray_pipeline_function, operands_of_ray_query_function, references_of_statement};
ghost use Rattle.naga_valid.specs.Visits.{IsWalk};

use crate::reference::Reference;
use crate::references::Refers;
use crate::references::operands::{each_and, each_present, none, one, three, two, whole_range};
use crate::visitor::Visitor;
use naga_arena::Handle;
use naga_ir::{
    AtomicFunction, Expression, Function, GatherMode, RayPipelineFunction, RayQueryFunction,
    Statement,
};
use std::ops::ControlFlow;

/// Those in the blocks of a statement belong to the statements of these blocks.
impl Refers for Statement {
    ghost references = { references_of_statement };

    // One line for each variant.
    #[rattlefmt::skip]
    fn visit_references<V: Visitor>(&self, visitor: &mut V) -> ControlFlow<V::Break> {
        match self {
            Statement::Emit(range) => whole_range(visitor, range),
            Statement::Block(_) => none(visitor),
            Statement::If { condition, .. } => one(visitor, *condition),
            Statement::Switch { selector, .. } => one(visitor, *selector),
            Statement::Loop { break_if, .. } => visit_loop(visitor, *break_if),
            Statement::Break => none(visitor),
            Statement::Continue => none(visitor),
            Statement::Return { value } => visit_return(visitor, *value),
            Statement::Kill => none(visitor),
            Statement::ControlBarrier(_) => none(visitor),
            Statement::MemoryBarrier(_) => none(visitor),
            Statement::Store { pointer, value } => two(visitor, *pointer, *value),
            Statement::ImageStore { image, coordinate, array_index, value } =>
                visit_image_store(visitor, *image, *coordinate, *array_index, *value),
            Statement::Atomic { pointer, fun, value, result: outcome } =>
                visit_atomic(visitor, *pointer, fun, *value, *outcome),
            Statement::ImageAtomic { image, coordinate, array_index, fun, value } =>
                visit_image_atomic(visitor, *image, *coordinate, *array_index, fun, *value),
            Statement::WorkGroupUniformLoad { pointer, result: outcome } => two(visitor, *pointer, *outcome),
            Statement::Call { function, arguments, result: outcome } =>
                visit_call(visitor, *function, arguments, *outcome),
            Statement::RayQuery { query, fun } => visit_ray_query(visitor, *query, fun),
            Statement::RayPipelineFunction(ray_pipeline_function) =>
                visit_ray_pipeline_function(visitor, ray_pipeline_function),
            Statement::SubgroupBallot { result: outcome, predicate } =>
                visit_subgroup_ballot(visitor, *outcome, *predicate),
            Statement::SubgroupGather { mode, argument, result: outcome } =>
                visit_subgroup_gather(visitor, mode, *argument, *outcome),
            Statement::SubgroupCollectiveOperation { argument, result: outcome, .. } =>
                two(visitor, *argument, *outcome),
            Statement::CooperativeStore { target, data } => three(visitor, *target, data.pointer, data.stride),
        }
    }
}

/// Visits the expressions that a `Loop` contains.
#[inline(never)]
#[rattlefmt::skip]
fn visit_loop<V: Visitor>(
    visitor: &mut V,
    break_if: Option<Handle<Expression>>,
) -> ControlFlow<V::Break>
    ensures { IsWalk V.visits visitor.old (present (break_if ∷ [])) result visitor.new }
{
    each_present(visitor, &[break_if])
}

/// Visits the expressions that a `Return` contains.
#[inline(never)]
#[rattlefmt::skip]
fn visit_return<V: Visitor>(
    visitor: &mut V,
    value: Option<Handle<Expression>>,
) -> ControlFlow<V::Break>
    ensures { IsWalk V.visits visitor.old (present (value ∷ [])) result visitor.new }
{
    each_present(visitor, &[value])
}

/// Visits the expressions that an `ImageStore` contains.
#[inline(never)]
#[rattlefmt::skip]
fn visit_image_store<V: Visitor>(
    visitor: &mut V,
    image: Handle<Expression>,
    coordinate: Handle<Expression>,
    array_index: Option<Handle<Expression>>,
    value: Handle<Expression>,
) -> ControlFlow<V::Break>
    ensures { IsWalk V.visits visitor.old (present (Some image ∷ Some coordinate ∷ array_index ∷ Some value ∷ []))
        result visitor.new }
{
    each_present(visitor, &[Some(image), Some(coordinate), array_index, Some(value)])
}

/// Visits the expressions that an `Atomic` contains.
#[inline(never)]
#[rattlefmt::skip]
fn visit_atomic<V: Visitor>(
    visitor: &mut V,
    pointer: Handle<Expression>,
    fun: &AtomicFunction,
    value: Handle<Expression>,
    outcome: Option<Handle<Expression>>,
) -> ControlFlow<V::Break>
    ensures { IsWalk V.visits visitor.old (present (Some pointer ∷ operand_of_atomic_function fun.now ∷ Some value ∷
        outcome ∷ [])) result visitor.new }
{
    let fun_operand = operand_of_atomic_function(fun);
    each_present(visitor, &[Some(pointer), fun_operand, Some(value), outcome])
}

/// Visits the expressions that an `ImageAtomic` contains.
#[inline(never)]
#[rattlefmt::skip]
fn visit_image_atomic<V: Visitor>(
    visitor: &mut V,
    image: Handle<Expression>,
    coordinate: Handle<Expression>,
    array_index: Option<Handle<Expression>>,
    fun: &AtomicFunction,
    value: Handle<Expression>,
) -> ControlFlow<V::Break>
    ensures { IsWalk V.visits visitor.old (present (Some image ∷ Some coordinate ∷ array_index ∷
        operand_of_atomic_function fun.now ∷ Some value ∷ [])) result visitor.new }
{
    let fun_operand = operand_of_atomic_function(fun);
    each_present(visitor, &[Some(image), Some(coordinate), array_index, fun_operand, Some(value)])
}

/// Visits the references of a `Call`.
fn visit_call<V: Visitor>(
    visitor: &mut V,
    function: Handle<Function>,
    arguments: &[Handle<Expression>],
    outcome: Option<Handle<Expression>>,
) -> ControlFlow<V::Break>
    ensures { IsWalk V.visits visitor.old (reference.Function function ∷ (operands arguments.entry.now ++ option_to_list
        (option_map reference.Expression outcome))) result visitor.new }
{
    match visitor.visit(Reference::Function(function)) {
        ControlFlow::Continue(()) => each_and(visitor, arguments, outcome),
        ControlFlow::Break(stop) => ControlFlow::Break(stop),
    }
}

/// Visits the expressions that a `RayQuery` contains.
#[rattlefmt::skip]
fn visit_ray_query<V: Visitor>(
    visitor: &mut V,
    query: Handle<Expression>,
    fun: &RayQueryFunction,
) -> ControlFlow<V::Break>
    ensures { IsWalk V.visits visitor.old (operands (query ∷ operands_of_ray_query_function fun.now)) result
        visitor.new }
{
    match fun {
        RayQueryFunction::Initialize { acceleration_structure, descriptor } => three(visitor, query, *acceleration_structure, *descriptor),
        RayQueryFunction::Proceed { result: outcome } => two(visitor, query, *outcome),
        RayQueryFunction::GenerateIntersection { hit_t } => two(visitor, query, *hit_t),
        RayQueryFunction::ConfirmIntersection => one(visitor, query),
        RayQueryFunction::Terminate => one(visitor, query),
    }
}

/// Visits the expressions that a `RayPipelineFunction` contains.
fn visit_ray_pipeline_function<V: Visitor>(
    visitor: &mut V,
    ray_pipeline_function: &RayPipelineFunction,
) -> ControlFlow<V::Break>
    ensures { IsWalk V.visits visitor.old (operands (operands_of_ray_pipeline_function ray_pipeline_function.now))
        result visitor.new }
{
    let (first, second, third) = operands_of_ray_pipeline_function(ray_pipeline_function);
    three(visitor, first, second, third)
}

/// Returns the expressions that a `RayPipelineFunction` contains.
#[rattlefmt::skip]
fn operands_of_ray_pipeline_function(ray_pipeline_function: &RayPipelineFunction) -> (Handle<Expression>, Handle<Expression>, Handle<Expression>)
    ensures { operands_of_ray_pipeline_function ray_pipeline_function.now ≡ result.0 ∷ result.1 ∷ result.2 ∷ [] }
{
    match ray_pipeline_function {
        RayPipelineFunction::TraceRay { acceleration_structure, descriptor, payload } => (*acceleration_structure, *descriptor, *payload),
    }
}

/// Visits the expressions that a `SubgroupBallot` contains.
#[inline(never)]
#[rattlefmt::skip]
fn visit_subgroup_ballot<V: Visitor>(
    visitor: &mut V,
    outcome: Handle<Expression>,
    predicate: Option<Handle<Expression>>,
) -> ControlFlow<V::Break>
    ensures { IsWalk V.visits visitor.old (present (Some outcome ∷ predicate ∷ [])) result visitor.new }
{
    each_present(visitor, &[Some(outcome), predicate])
}

/// Visits the expressions that a `SubgroupGather` contains.
#[inline(never)]
#[rattlefmt::skip]
fn visit_subgroup_gather<V: Visitor>(
    visitor: &mut V,
    mode: &GatherMode,
    argument: Handle<Expression>,
    outcome: Handle<Expression>,
) -> ControlFlow<V::Break>
    ensures { IsWalk V.visits visitor.old (present (operand_of_gather_mode mode.now ∷ Some argument ∷ Some outcome ∷
        [])) result visitor.new }
{
    let mode_operand = operand_of_gather_mode(mode);
    each_present(visitor, &[mode_operand, Some(argument), Some(outcome)])
}

/// Returns the expression that an `AtomicFunction` contains.
fn operand_of_atomic_function(atomic_function: &AtomicFunction) -> Option<Handle<Expression>>
    ensures { result ≡ operand_of_atomic_function atomic_function.now }
{
    match atomic_function {
        AtomicFunction::Add => None,
        AtomicFunction::Subtract => None,
        AtomicFunction::And => None,
        AtomicFunction::ExclusiveOr => None,
        AtomicFunction::InclusiveOr => None,
        AtomicFunction::Min => None,
        AtomicFunction::Max => None,
        AtomicFunction::Exchange { compare } => *compare,
    }
}

/// Returns the expression that a `GatherMode` contains.
fn operand_of_gather_mode(gather_mode: &GatherMode) -> Option<Handle<Expression>>
    ensures { result ≡ operand_of_gather_mode gather_mode.now }
{
    match gather_mode {
        GatherMode::BroadcastFirst => None,
        GatherMode::Broadcast(expression) => Some(*expression),
        GatherMode::Shuffle(expression) => Some(*expression),
        GatherMode::ShuffleDown(expression) => Some(*expression),
        GatherMode::ShuffleUp(expression) => Some(*expression),
        GatherMode::ShuffleXor(expression) => Some(*expression),
        GatherMode::QuadBroadcast(expression) => Some(*expression),
        GatherMode::QuadSwap(_) => None,
    }
}
