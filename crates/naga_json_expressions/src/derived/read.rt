// Made by tests/derive from the declarations of naga_kinds and naga_ir.
//! How an `Expression` is read.
ghost use Rattle.std.specs.Prelude.{drop, option_map, ◌≡◌};
ghost use Rattle.std.specs.Result.{result_ok};
ghost use Rattle.json.specs.Value.{value_view};
ghost use Rattle.naga_json.specs.Objects.{choose, find_row};
ghost use Rattle.naga_json.specs.Variants.{held_in};
ghost use Rattle.naga_json_values.specs.Reads.{Reads};
ghost use Rattle.naga_json.specs.Expression.{value_of};
ghost use Rattle.naga_json.specs.derived.Expression.{expression_access, expression_access_index, expression_as, expression_atomic_result, expression_binary, expression_compose, expression_cooperative_load, expression_cooperative_multiply_add, expression_derivative, expression_form, expression_image_load, expression_image_query, expression_image_sample, expression_load, expression_math, expression_names, expression_ray_query_get_intersection, expression_ray_query_vertex_positions, expression_relational, expression_rows, expression_select, expression_splat, expression_subgroup_operation_result, expression_swizzle, expression_unary, expression_work_group_uniform_load_result};

use json::Value;
use naga_ir::Expression;
use naga_json_values::lists::coded_list_field;
use naga_json_values::objects::variant;
use naga_json_values::{Cause, Coded, read_literal, read_struct};
use std::alloc::Global;

/// Reads an `Expression` that is a name alone.
pub(crate) fn read_named_expression(name: &str) -> Result<Expression, Cause>
    ensures { option_map value_of (result_ok result) ≡ find_row expression_names name.now }
{
    match name {
        "RayQueryProceedResult" => Ok(Expression::RayQueryProceedResult),
        "SubgroupBallotResult" => Ok(Expression::SubgroupBallotResult),
        _ => Err(Cause::UnknownVariant),
    }
}

/// Reads a `Compose`.
#[tactic(auto, unfolding(naga_json::specs::Fields::struct_in))]
fn read_expression_compose(alloc: Global, held: &Value<'_>) -> Result<Expression, Cause>
    ensures { Reads value_of result (held_in expression_compose (value_view held.now)) }
{
    read_struct! { held => Expression::Compose { ty, components: coded_list_field(alloc) } }
}

/// Reads an `Access`.
#[tactic(auto, unfolding(naga_json::specs::Fields::struct_in))]
fn read_expression_access(held: &Value<'_>) -> Result<Expression, Cause>
    ensures { option_map value_of (result_ok result) ≡ held_in expression_access (value_view held.now) }
{
    read_struct! { held => Expression::Access { base, index } }
}

/// Reads an `AccessIndex`.
#[tactic(auto, unfolding(naga_json::specs::Fields::struct_in))]
fn read_expression_access_index(held: &Value<'_>) -> Result<Expression, Cause>
    ensures { option_map value_of (result_ok result) ≡ held_in expression_access_index (value_view held.now) }
{
    read_struct! { held => Expression::AccessIndex { base, index } }
}

/// Reads a `Splat`.
#[tactic(auto, unfolding(naga_json::specs::Fields::struct_in))]
fn read_expression_splat(held: &Value<'_>) -> Result<Expression, Cause>
    ensures { option_map value_of (result_ok result) ≡ held_in expression_splat (value_view held.now) }
{
    read_struct! { held => Expression::Splat { size, value } }
}

/// Reads a `Swizzle`.
#[tactic(auto, unfolding(naga_json::specs::Fields::struct_in))]
fn read_expression_swizzle(held: &Value<'_>) -> Result<Expression, Cause>
    ensures { option_map value_of (result_ok result) ≡ held_in expression_swizzle (value_view held.now) }
{
    read_struct! { held => Expression::Swizzle { size, vector, pattern } }
}

/// Reads a `Load`.
#[tactic(auto, unfolding(naga_json::specs::Fields::struct_in))]
fn read_expression_load(held: &Value<'_>) -> Result<Expression, Cause>
    ensures { option_map value_of (result_ok result) ≡ held_in expression_load (value_view held.now) }
{
    read_struct! { held => Expression::Load { pointer } }
}

/// Reads an `ImageSample`.
#[tactic(auto, unfolding(naga_json::specs::Fields::struct_in))]
fn read_expression_image_sample(held: &Value<'_>) -> Result<Expression, Cause>
    ensures { option_map value_of (result_ok result) ≡ held_in expression_image_sample (value_view held.now) }
{
    read_struct! { held => Expression::ImageSample {
        image, sampler, gather, coordinate, array_index, offset, level, depth_ref, clamp_to_edge,
    } }
}

/// Reads an `ImageLoad`.
#[tactic(auto, unfolding(naga_json::specs::Fields::struct_in))]
fn read_expression_image_load(held: &Value<'_>) -> Result<Expression, Cause>
    ensures { option_map value_of (result_ok result) ≡ held_in expression_image_load (value_view held.now) }
{
    read_struct! { held => Expression::ImageLoad { image, coordinate, array_index, sample, level } }
}

/// Reads an `ImageQuery`.
#[tactic(auto, unfolding(naga_json::specs::Fields::struct_in))]
fn read_expression_image_query(held: &Value<'_>) -> Result<Expression, Cause>
    ensures { option_map value_of (result_ok result) ≡ held_in expression_image_query (value_view held.now) }
{
    read_struct! { held => Expression::ImageQuery { image, query } }
}

/// Reads an `Unary`.
#[tactic(auto, unfolding(naga_json::specs::Fields::struct_in))]
fn read_expression_unary(held: &Value<'_>) -> Result<Expression, Cause>
    ensures { option_map value_of (result_ok result) ≡ held_in expression_unary (value_view held.now) }
{
    read_struct! { held => Expression::Unary { op, expr } }
}

/// Reads a `Binary`.
#[tactic(auto, unfolding(naga_json::specs::Fields::struct_in))]
fn read_expression_binary(held: &Value<'_>) -> Result<Expression, Cause>
    ensures { option_map value_of (result_ok result) ≡ held_in expression_binary (value_view held.now) }
{
    read_struct! { held => Expression::Binary { op, left, right } }
}

/// Reads a `Select`.
#[tactic(auto, unfolding(naga_json::specs::Fields::struct_in))]
fn read_expression_select(held: &Value<'_>) -> Result<Expression, Cause>
    ensures { option_map value_of (result_ok result) ≡ held_in expression_select (value_view held.now) }
{
    read_struct! { held => Expression::Select { condition, accept, reject } }
}

/// Reads a `Derivative`.
#[tactic(auto, unfolding(naga_json::specs::Fields::struct_in))]
fn read_expression_derivative(held: &Value<'_>) -> Result<Expression, Cause>
    ensures { option_map value_of (result_ok result) ≡ held_in expression_derivative (value_view held.now) }
{
    read_struct! { held => Expression::Derivative { axis, ctrl, expr } }
}

/// Reads a `Relational`.
#[tactic(auto, unfolding(naga_json::specs::Fields::struct_in))]
fn read_expression_relational(held: &Value<'_>) -> Result<Expression, Cause>
    ensures { option_map value_of (result_ok result) ≡ held_in expression_relational (value_view held.now) }
{
    read_struct! { held => Expression::Relational { fun, argument } }
}

/// Reads a `Math`.
#[tactic(auto, unfolding(naga_json::specs::Fields::struct_in))]
fn read_expression_math(held: &Value<'_>) -> Result<Expression, Cause>
    ensures { option_map value_of (result_ok result) ≡ held_in expression_math (value_view held.now) }
{
    read_struct! { held => Expression::Math { fun, arg, arg1, arg2, arg3 } }
}

/// Reads an `As`.
#[tactic(auto, unfolding(naga_json::specs::Fields::struct_in))]
fn read_expression_as(held: &Value<'_>) -> Result<Expression, Cause>
    ensures { option_map value_of (result_ok result) ≡ held_in expression_as (value_view held.now) }
{
    read_struct! { held => Expression::As { expr, kind, convert } }
}

/// Reads an `AtomicResult`.
#[tactic(auto, unfolding(naga_json::specs::Fields::struct_in))]
fn read_expression_atomic_result(held: &Value<'_>) -> Result<Expression, Cause>
    ensures { option_map value_of (result_ok result) ≡ held_in expression_atomic_result (value_view held.now) }
{
    read_struct! { held => Expression::AtomicResult { ty, comparison } }
}

/// Reads a `WorkGroupUniformLoadResult`.
#[tactic(auto, unfolding(naga_json::specs::Fields::struct_in))]
fn read_expression_work_group_uniform_load_result(held: &Value<'_>) -> Result<Expression, Cause>
    ensures { option_map value_of (result_ok result)
        ≡ held_in expression_work_group_uniform_load_result (value_view held.now) }
{
    read_struct! { held => Expression::WorkGroupUniformLoadResult { ty } }
}

/// Reads a `RayQueryVertexPositions`.
#[tactic(auto, unfolding(naga_json::specs::Fields::struct_in))]
fn read_expression_ray_query_vertex_positions(held: &Value<'_>) -> Result<Expression, Cause>
    ensures { option_map value_of (result_ok result)
        ≡ held_in expression_ray_query_vertex_positions (value_view held.now) }
{
    read_struct! { held => Expression::RayQueryVertexPositions { query, committed } }
}

/// Reads a `RayQueryGetIntersection`.
#[tactic(auto, unfolding(naga_json::specs::Fields::struct_in))]
fn read_expression_ray_query_get_intersection(held: &Value<'_>) -> Result<Expression, Cause>
    ensures { option_map value_of (result_ok result)
        ≡ held_in expression_ray_query_get_intersection (value_view held.now) }
{
    read_struct! { held => Expression::RayQueryGetIntersection { query, committed } }
}

/// Reads a `SubgroupOperationResult`.
#[tactic(auto, unfolding(naga_json::specs::Fields::struct_in))]
fn read_expression_subgroup_operation_result(held: &Value<'_>) -> Result<Expression, Cause>
    ensures { option_map value_of (result_ok result)
        ≡ held_in expression_subgroup_operation_result (value_view held.now) }
{
    read_struct! { held => Expression::SubgroupOperationResult { ty } }
}

/// Reads a `CooperativeLoad`.
#[tactic(auto, unfolding(naga_json::specs::Fields::struct_in))]
fn read_expression_cooperative_load(held: &Value<'_>) -> Result<Expression, Cause>
    ensures { option_map value_of (result_ok result) ≡ held_in expression_cooperative_load (value_view held.now) }
{
    read_struct! { held => Expression::CooperativeLoad { columns, rows, role, data } }
}

/// Reads a `CooperativeMultiplyAdd`.
#[tactic(auto, unfolding(naga_json::specs::Fields::struct_in))]
fn read_expression_cooperative_multiply_add(held: &Value<'_>) -> Result<Expression, Cause>
    ensures { option_map value_of (result_ok result)
        ≡ held_in expression_cooperative_multiply_add (value_view held.now) }
{
    read_struct! { held => Expression::CooperativeMultiplyAdd { a, b, c } }
}

/// Reads an `Expression` that contains data.
#[tactic(auto, using(naga_json_values::proofs::ReadsLemmas::reads_exact))]
pub(crate) fn read_held_expression(
    alloc: Global,
    name: &str,
    held: &Value<'_>,
) -> Result<Expression, Cause>
    ensures { Reads value_of result (choose (expression_rows (value_view held.now)) name.now) }
{
    match name {
        "Literal" => Ok(Expression::Literal(read_literal(held)?)),
        "Constant" => Ok(Expression::Constant(Coded::read_value(held)?)),
        "Override" => Ok(Expression::Override(Coded::read_value(held)?)),
        "ZeroValue" => Ok(Expression::ZeroValue(Coded::read_value(held)?)),
        "Compose" => read_expression_compose(alloc, held),
        "Access" => read_expression_access(held),
        "AccessIndex" => read_expression_access_index(held),
        "Splat" => read_expression_splat(held),
        _ => read_held_expression_from_swizzle(name, held),
    }
}

/// Reads a `Swizzle` or a later variant.
fn read_held_expression_from_swizzle(name: &str, held: &Value<'_>) -> Result<Expression, Cause>
    ensures { option_map value_of (result_ok result)
        ≡ choose (drop 8 (expression_rows (value_view held.now))) name.now }
{
    match name {
        "Swizzle" => read_expression_swizzle(held),
        "FunctionArgument" => Ok(Expression::FunctionArgument(Coded::read_value(held)?)),
        "GlobalVariable" => Ok(Expression::GlobalVariable(Coded::read_value(held)?)),
        "LocalVariable" => Ok(Expression::LocalVariable(Coded::read_value(held)?)),
        "Load" => read_expression_load(held),
        "ImageSample" => read_expression_image_sample(held),
        "ImageLoad" => read_expression_image_load(held),
        "ImageQuery" => read_expression_image_query(held),
        _ => read_held_expression_from_unary(name, held),
    }
}

/// Reads an `Unary` or a later variant.
fn read_held_expression_from_unary(name: &str, held: &Value<'_>) -> Result<Expression, Cause>
    ensures { option_map value_of (result_ok result)
        ≡ choose (drop 16 (expression_rows (value_view held.now))) name.now }
{
    match name {
        "Unary" => read_expression_unary(held),
        "Binary" => read_expression_binary(held),
        "Select" => read_expression_select(held),
        "Derivative" => read_expression_derivative(held),
        "Relational" => read_expression_relational(held),
        "Math" => read_expression_math(held),
        "As" => read_expression_as(held),
        "CallResult" => Ok(Expression::CallResult(Coded::read_value(held)?)),
        _ => read_held_expression_from_atomic_result(name, held),
    }
}

/// Reads an `AtomicResult` or a later variant.
fn read_held_expression_from_atomic_result(
    name: &str,
    held: &Value<'_>,
) -> Result<Expression, Cause>
    ensures { option_map value_of (result_ok result)
        ≡ choose (drop 24 (expression_rows (value_view held.now))) name.now }
{
    match name {
        "AtomicResult" => read_expression_atomic_result(held),
        "WorkGroupUniformLoadResult" => read_expression_work_group_uniform_load_result(held),
        "ArrayLength" => Ok(Expression::ArrayLength(Coded::read_value(held)?)),
        "RayQueryVertexPositions" => read_expression_ray_query_vertex_positions(held),
        "RayQueryGetIntersection" => read_expression_ray_query_get_intersection(held),
        "SubgroupOperationResult" => read_expression_subgroup_operation_result(held),
        "CooperativeLoad" => read_expression_cooperative_load(held),
        "CooperativeMultiplyAdd" => read_expression_cooperative_multiply_add(held),
        _ => Err(Cause::UnknownVariant),
    }
}

/// Reads an `Expression`.
#[tactic(auto, using(naga_json_values::proofs::ReadsLemmas::reads_exact))]
pub fn read_expression(alloc: Global, value: &Value<'_>) -> Result<Expression, Cause>
    ensures { Reads value_of result (expression_form.decode (value_view value.now)) }
{
    match variant(value)? {
        (name, None) => read_named_expression(name),
        (name, Some(held)) => read_held_expression(alloc, name, held),
    }
}
