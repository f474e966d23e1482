// Made by tests/derive from the declarations of naga_kinds and naga_ir.
//! How an `Expression` is taken.
ghost use Rattle.std.specs.Prelude.{IfSome, Some, ◌≡◌};
ghost use Rattle.naga_json.specs.Objects.{choose, find_row};
ghost use Rattle.naga_json.specs.Variants.{held_in};
ghost use Rattle.naga_json_tokens.specs.Takes.{Takes};
ghost use Rattle.naga_json.specs.Expression.{value_of};
ghost use Rattle.naga_json.specs.derived.Expression.{expression_access, expression_access_index, expression_as, expression_atomic_result, expression_binary, expression_compose, expression_cooperative_load, expression_cooperative_multiply_add, expression_derivative, expression_form, expression_image_load, expression_image_query, expression_image_sample, expression_load, expression_math, expression_names, expression_ray_query_get_intersection, expression_ray_query_vertex_positions, expression_relational, expression_rows, expression_select, expression_splat, expression_subgroup_operation_result, expression_swizzle, expression_unary, expression_work_group_uniform_load_result};

use json::Token;
use naga_ir::Expression;
use naga_json_tokens::tokens::{take_end, take_name};
use naga_json_tokens::{Reader, Take, take_struct};
use std::alloc::Global;

/// Takes what a `Compose` holds.
#[tactic(auto, using(naga_json_tokens::proofs::TakesPartsLemmas::takes_struct), unfolding(naga_json::specs::Fields::struct_in))]
fn take_expression_compose(alloc: Global, reader: &mut Reader<'_>) -> Option<Expression>
    ensures { IfSome result (λ found. Takes (held_in expression_compose) (value_of found) reader.old reader.new) }
{
    take_struct! { alloc, reader => Expression::Compose { ty, components } }
}

/// Takes what an `Access` holds.
#[tactic(auto, using(naga_json_tokens::proofs::TakesPartsLemmas::takes_struct), unfolding(naga_json::specs::Fields::struct_in))]
fn take_expression_access(alloc: Global, reader: &mut Reader<'_>) -> Option<Expression>
    ensures { IfSome result (λ found. Takes (held_in expression_access) (value_of found) reader.old reader.new) }
{
    take_struct! { alloc, reader => Expression::Access { base, index } }
}

/// Takes what an `AccessIndex` holds.
#[tactic(auto, using(naga_json_tokens::proofs::TakesPartsLemmas::takes_struct), unfolding(naga_json::specs::Fields::struct_in))]
fn take_expression_access_index(alloc: Global, reader: &mut Reader<'_>) -> Option<Expression>
    ensures { IfSome result (λ found. Takes (held_in expression_access_index) (value_of found) reader.old reader.new) }
{
    take_struct! { alloc, reader => Expression::AccessIndex { base, index } }
}

/// Takes what a `Splat` holds.
#[tactic(auto, using(naga_json_tokens::proofs::TakesPartsLemmas::takes_struct), unfolding(naga_json::specs::Fields::struct_in))]
fn take_expression_splat(alloc: Global, reader: &mut Reader<'_>) -> Option<Expression>
    ensures { IfSome result (λ found. Takes (held_in expression_splat) (value_of found) reader.old reader.new) }
{
    take_struct! { alloc, reader => Expression::Splat { size, value } }
}

/// Takes what a `Swizzle` holds.
#[tactic(auto, using(naga_json_tokens::proofs::TakesPartsLemmas::takes_struct), unfolding(naga_json::specs::Fields::struct_in))]
fn take_expression_swizzle(alloc: Global, reader: &mut Reader<'_>) -> Option<Expression>
    ensures { IfSome result (λ found. Takes (held_in expression_swizzle) (value_of found) reader.old reader.new) }
{
    take_struct! { alloc, reader => Expression::Swizzle { size, vector, pattern } }
}

/// Takes what a `Load` holds.
#[tactic(auto, using(naga_json_tokens::proofs::TakesPartsLemmas::takes_struct), unfolding(naga_json::specs::Fields::struct_in))]
fn take_expression_load(alloc: Global, reader: &mut Reader<'_>) -> Option<Expression>
    ensures { IfSome result (λ found. Takes (held_in expression_load) (value_of found) reader.old reader.new) }
{
    take_struct! { alloc, reader => Expression::Load { pointer } }
}

/// Takes what an `ImageSample` holds.
#[tactic(auto, using(naga_json_tokens::proofs::TakesPartsLemmas::takes_struct), unfolding(naga_json::specs::Fields::struct_in))]
fn take_expression_image_sample(alloc: Global, reader: &mut Reader<'_>) -> Option<Expression>
    ensures { IfSome result (λ found. Takes (held_in expression_image_sample) (value_of found) reader.old reader.new) }
{
    take_struct! { alloc, reader => Expression::ImageSample {
        image, sampler, gather, coordinate, array_index, offset, level, depth_ref, clamp_to_edge,
    } }
}

/// Takes what an `ImageLoad` holds.
#[tactic(auto, using(naga_json_tokens::proofs::TakesPartsLemmas::takes_struct), unfolding(naga_json::specs::Fields::struct_in))]
fn take_expression_image_load(alloc: Global, reader: &mut Reader<'_>) -> Option<Expression>
    ensures { IfSome result (λ found. Takes (held_in expression_image_load) (value_of found) reader.old reader.new) }
{
    take_struct! { alloc, reader => Expression::ImageLoad {
        image, coordinate, array_index, sample, level,
    } }
}

/// Takes what an `ImageQuery` holds.
#[tactic(auto, using(naga_json_tokens::proofs::TakesPartsLemmas::takes_struct), unfolding(naga_json::specs::Fields::struct_in))]
fn take_expression_image_query(alloc: Global, reader: &mut Reader<'_>) -> Option<Expression>
    ensures { IfSome result (λ found. Takes (held_in expression_image_query) (value_of found) reader.old reader.new) }
{
    take_struct! { alloc, reader => Expression::ImageQuery { image, query } }
}

/// Takes what an `Unary` holds.
#[tactic(auto, using(naga_json_tokens::proofs::TakesPartsLemmas::takes_struct), unfolding(naga_json::specs::Fields::struct_in))]
fn take_expression_unary(alloc: Global, reader: &mut Reader<'_>) -> Option<Expression>
    ensures { IfSome result (λ found. Takes (held_in expression_unary) (value_of found) reader.old reader.new) }
{
    take_struct! { alloc, reader => Expression::Unary { op, expr } }
}

/// Takes what a `Binary` holds.
#[tactic(auto, using(naga_json_tokens::proofs::TakesPartsLemmas::takes_struct), unfolding(naga_json::specs::Fields::struct_in))]
fn take_expression_binary(alloc: Global, reader: &mut Reader<'_>) -> Option<Expression>
    ensures { IfSome result (λ found. Takes (held_in expression_binary) (value_of found) reader.old reader.new) }
{
    take_struct! { alloc, reader => Expression::Binary { op, left, right } }
}

/// Takes what a `Select` holds.
#[tactic(auto, using(naga_json_tokens::proofs::TakesPartsLemmas::takes_struct), unfolding(naga_json::specs::Fields::struct_in))]
fn take_expression_select(alloc: Global, reader: &mut Reader<'_>) -> Option<Expression>
    ensures { IfSome result (λ found. Takes (held_in expression_select) (value_of found) reader.old reader.new) }
{
    take_struct! { alloc, reader => Expression::Select { condition, accept, reject } }
}

/// Takes what a `Derivative` holds.
#[tactic(auto, using(naga_json_tokens::proofs::TakesPartsLemmas::takes_struct), unfolding(naga_json::specs::Fields::struct_in))]
fn take_expression_derivative(alloc: Global, reader: &mut Reader<'_>) -> Option<Expression>
    ensures { IfSome result (λ found. Takes (held_in expression_derivative) (value_of found) reader.old reader.new) }
{
    take_struct! { alloc, reader => Expression::Derivative { axis, ctrl, expr } }
}

/// Takes what a `Relational` holds.
#[tactic(auto, using(naga_json_tokens::proofs::TakesPartsLemmas::takes_struct), unfolding(naga_json::specs::Fields::struct_in))]
fn take_expression_relational(alloc: Global, reader: &mut Reader<'_>) -> Option<Expression>
    ensures { IfSome result (λ found. Takes (held_in expression_relational) (value_of found) reader.old reader.new) }
{
    take_struct! { alloc, reader => Expression::Relational { fun, argument } }
}

/// Takes what a `Math` holds.
#[tactic(auto, using(naga_json_tokens::proofs::TakesPartsLemmas::takes_struct), unfolding(naga_json::specs::Fields::struct_in))]
fn take_expression_math(alloc: Global, reader: &mut Reader<'_>) -> Option<Expression>
    ensures { IfSome result (λ found. Takes (held_in expression_math) (value_of found) reader.old reader.new) }
{
    take_struct! { alloc, reader => Expression::Math { fun, arg, arg1, arg2, arg3 } }
}

/// Takes what an `As` holds.
#[tactic(auto, using(naga_json_tokens::proofs::TakesPartsLemmas::takes_struct), unfolding(naga_json::specs::Fields::struct_in))]
fn take_expression_as(alloc: Global, reader: &mut Reader<'_>) -> Option<Expression>
    ensures { IfSome result (λ found. Takes (held_in expression_as) (value_of found) reader.old reader.new) }
{
    take_struct! { alloc, reader => Expression::As { expr, kind, convert } }
}

/// Takes what an `AtomicResult` holds.
#[tactic(auto, using(naga_json_tokens::proofs::TakesPartsLemmas::takes_struct), unfolding(naga_json::specs::Fields::struct_in))]
fn take_expression_atomic_result(alloc: Global, reader: &mut Reader<'_>) -> Option<Expression>
    ensures { IfSome result (λ found. Takes (held_in expression_atomic_result) (value_of found) reader.old reader.new) }
{
    take_struct! { alloc, reader => Expression::AtomicResult { ty, comparison } }
}

/// Takes what a `WorkGroupUniformLoadResult` holds.
#[tactic(auto, using(naga_json_tokens::proofs::TakesPartsLemmas::takes_struct), unfolding(naga_json::specs::Fields::struct_in))]
fn take_expression_work_group_uniform_load_result(
    alloc: Global,
    reader: &mut Reader<'_>,
) -> Option<Expression>
    ensures { IfSome result
        (λ found. Takes (held_in expression_work_group_uniform_load_result) (value_of found) reader.old reader.new) }
{
    take_struct! { alloc, reader => Expression::WorkGroupUniformLoadResult { ty } }
}

/// Takes what a `RayQueryVertexPositions` holds.
#[tactic(auto, using(naga_json_tokens::proofs::TakesPartsLemmas::takes_struct), unfolding(naga_json::specs::Fields::struct_in))]
fn take_expression_ray_query_vertex_positions(
    alloc: Global,
    reader: &mut Reader<'_>,
) -> Option<Expression>
    ensures { IfSome result
        (λ found. Takes (held_in expression_ray_query_vertex_positions) (value_of found) reader.old reader.new) }
{
    take_struct! { alloc, reader => Expression::RayQueryVertexPositions { query, committed } }
}

/// Takes what a `RayQueryGetIntersection` holds.
#[tactic(auto, using(naga_json_tokens::proofs::TakesPartsLemmas::takes_struct), unfolding(naga_json::specs::Fields::struct_in))]
fn take_expression_ray_query_get_intersection(
    alloc: Global,
    reader: &mut Reader<'_>,
) -> Option<Expression>
    ensures { IfSome result
        (λ found. Takes (held_in expression_ray_query_get_intersection) (value_of found) reader.old reader.new) }
{
    take_struct! { alloc, reader => Expression::RayQueryGetIntersection { query, committed } }
}

/// Takes what a `SubgroupOperationResult` holds.
#[tactic(auto, using(naga_json_tokens::proofs::TakesPartsLemmas::takes_struct), unfolding(naga_json::specs::Fields::struct_in))]
fn take_expression_subgroup_operation_result(
    alloc: Global,
    reader: &mut Reader<'_>,
) -> Option<Expression>
    ensures { IfSome result
        (λ found. Takes (held_in expression_subgroup_operation_result) (value_of found) reader.old reader.new) }
{
    take_struct! { alloc, reader => Expression::SubgroupOperationResult { ty } }
}

/// Takes what a `CooperativeLoad` holds.
#[tactic(auto, using(naga_json_tokens::proofs::TakesPartsLemmas::takes_struct), unfolding(naga_json::specs::Fields::struct_in))]
fn take_expression_cooperative_load(alloc: Global, reader: &mut Reader<'_>) -> Option<Expression>
    ensures { IfSome result
        (λ found. Takes (held_in expression_cooperative_load) (value_of found) reader.old reader.new) }
{
    take_struct! { alloc, reader => Expression::CooperativeLoad { columns, rows, role, data } }
}

/// Takes what a `CooperativeMultiplyAdd` holds.
#[tactic(auto, using(naga_json_tokens::proofs::TakesPartsLemmas::takes_struct), unfolding(naga_json::specs::Fields::struct_in))]
fn take_expression_cooperative_multiply_add(
    alloc: Global,
    reader: &mut Reader<'_>,
) -> Option<Expression>
    ensures { IfSome result
        (λ found. Takes (held_in expression_cooperative_multiply_add) (value_of found) reader.old reader.new) }
{
    take_struct! { alloc, reader => Expression::CooperativeMultiplyAdd { a, b, c } }
}

/// Takes what a `Load` or a later variant holds.
#[tactic(auto, using(naga_json_tokens::proofs::TakesMapLemmas::takes_map))]
fn take_expression_from_load(
    alloc: Global,
    reader: &mut Reader<'_>,
    name: &str,
) -> Option<Expression>
    ensures { IfSome result
        (λ found. Takes (λ held. choose (expression_rows held) name.now) (value_of found) reader.old reader.new) }
{
    match name {
        "Load" => take_expression_load(alloc, reader),
        "ImageSample" => take_expression_image_sample(alloc, reader),
        "ImageLoad" => take_expression_image_load(alloc, reader),
        "ImageQuery" => take_expression_image_query(alloc, reader),
        "Unary" => take_expression_unary(alloc, reader),
        "Binary" => take_expression_binary(alloc, reader),
        "Select" => take_expression_select(alloc, reader),
        "Derivative" => take_expression_derivative(alloc, reader),
        "Relational" => take_expression_relational(alloc, reader),
        "Math" => take_expression_math(alloc, reader),
        "As" => take_expression_as(alloc, reader),
        "CallResult" => Some(Expression::CallResult(Take::take(alloc, reader)?)),
        _ => take_expression_from_atomic_result(alloc, reader, name),
    }
}

/// Takes what an `AtomicResult` or a later variant holds.
#[tactic(auto, using(naga_json_tokens::proofs::TakesMapLemmas::takes_map))]
fn take_expression_from_atomic_result(
    alloc: Global,
    reader: &mut Reader<'_>,
    name: &str,
) -> Option<Expression>
    ensures { IfSome result
        (λ found. Takes (λ held. choose (expression_rows held) name.now) (value_of found) reader.old reader.new) }
{
    match name {
        "AtomicResult" => take_expression_atomic_result(alloc, reader),
        "WorkGroupUniformLoadResult" => {
            take_expression_work_group_uniform_load_result(alloc, reader)
        }
        "ArrayLength" => Some(Expression::ArrayLength(Take::take(alloc, reader)?)),
        "RayQueryVertexPositions" => take_expression_ray_query_vertex_positions(alloc, reader),
        "RayQueryGetIntersection" => take_expression_ray_query_get_intersection(alloc, reader),
        "SubgroupOperationResult" => take_expression_subgroup_operation_result(alloc, reader),
        "CooperativeLoad" => take_expression_cooperative_load(alloc, reader),
        "CooperativeMultiplyAdd" => take_expression_cooperative_multiply_add(alloc, reader),
        _ => None,
    }
}

/// Returns an `Expression` that is a name alone.
pub(crate) fn named_expression(name: &str) -> Option<Expression>
    ensures { IfSome result (λ found. find_row expression_names name.now ≡ Some (value_of found)) }
{
    match name {
        "RayQueryProceedResult" => Some(Expression::RayQueryProceedResult),
        "SubgroupBallotResult" => Some(Expression::SubgroupBallotResult),
        _ => None,
    }
}

/// Takes what an `Expression` that contains data holds.
#[tactic(auto, using(naga_json_tokens::proofs::TakesMapLemmas::takes_map))]
pub(crate) fn take_held_expression(
    alloc: Global,
    reader: &mut Reader<'_>,
    name: &str,
) -> Option<Expression>
    ensures { IfSome result
        (λ found. Takes (λ held. choose (expression_rows held) name.now) (value_of found) reader.old reader.new) }
{
    match name {
        "Literal" => Some(Expression::Literal(Take::take(alloc, reader)?)),
        "Constant" => Some(Expression::Constant(Take::take(alloc, reader)?)),
        "Override" => Some(Expression::Override(Take::take(alloc, reader)?)),
        "ZeroValue" => Some(Expression::ZeroValue(Take::take(alloc, reader)?)),
        "Compose" => take_expression_compose(alloc, reader),
        "Access" => take_expression_access(alloc, reader),
        "AccessIndex" => take_expression_access_index(alloc, reader),
        "Splat" => take_expression_splat(alloc, reader),
        "Swizzle" => take_expression_swizzle(alloc, reader),
        "FunctionArgument" => Some(Expression::FunctionArgument(Take::take(alloc, reader)?)),
        "GlobalVariable" => Some(Expression::GlobalVariable(Take::take(alloc, reader)?)),
        "LocalVariable" => Some(Expression::LocalVariable(Take::take(alloc, reader)?)),
        _ => take_expression_from_load(alloc, reader, name),
    }
}

/// Takes an `Expression`.
pub fn take_expression(alloc: Global, reader: &mut Reader<'_>) -> Option<Expression>
    ensures { IfSome result (λ found. Takes expression_form.decode (value_of found) reader.old reader.new) }
{
    match reader.next()? {
        Token::String(name) => named_expression(name),
        Token::BeginObject => {
            let name = take_name(reader)?;
            let found = take_held_expression(alloc, reader, name)?;
            take_end(reader)?;
            Some(found)
        }
        _ => None,
    }
}
