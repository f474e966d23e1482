// Made by tests/derive from the declarations of naga_kinds and naga_ir.
//! How a `Statement` is read.
ghost use Rattle.std.specs.Prelude.{drop, option_map, ◌≡◌};
ghost use Rattle.std.specs.Result.{result_ok};
ghost use Rattle.json.specs.Value.{value_view};
ghost use Rattle.naga_json.specs.Objects.{choose, find_row};
ghost use Rattle.naga_json.specs.Variants.{held_in};
ghost use Rattle.naga_json_values.specs.Reads.{Reads};
ghost use Rattle.naga_json.specs.StatementValue.{value_of_statement};
ghost use Rattle.naga_json.specs.derived.Statement.{simple_statement_rows, statement_atomic, statement_call, statement_cooperative_store, statement_image_atomic, statement_image_store, statement_names, statement_ray_query, statement_return, statement_store, statement_subgroup_ballot, statement_subgroup_collective_operation, statement_subgroup_gather, statement_work_group_uniform_load};

use json::Value;
use naga_ir::Statement;
use naga_json_values::lists::coded_list_field;
use naga_json_values::{Cause, Coded, read_struct};
use std::alloc::Global;

/// Reads a `Statement` that is a name alone.
pub(crate) fn read_named_statement(name: &str) -> Result<Statement, Cause>
    ensures { option_map value_of_statement (result_ok result) ≡ find_row statement_names name.now }
{
    match name {
        "Break" => Ok(Statement::Break),
        "Continue" => Ok(Statement::Continue),
        "Kill" => Ok(Statement::Kill),
        _ => Err(Cause::UnknownVariant),
    }
}

/// Reads a `Return`.
#[tactic(auto, unfolding(naga_json::specs::Fields::struct_in))]
fn read_statement_return(held: &Value<'_>) -> Result<Statement, Cause>
    ensures { option_map value_of_statement (result_ok result) ≡ held_in statement_return (value_view held.now) }
{
    read_struct! { held => Statement::Return { value } }
}

/// Reads a `Store`.
#[tactic(auto, unfolding(naga_json::specs::Fields::struct_in))]
fn read_statement_store(held: &Value<'_>) -> Result<Statement, Cause>
    ensures { option_map value_of_statement (result_ok result) ≡ held_in statement_store (value_view held.now) }
{
    read_struct! { held => Statement::Store { pointer, value } }
}

/// Reads an `ImageStore`.
#[tactic(auto, unfolding(naga_json::specs::Fields::struct_in))]
fn read_statement_image_store(held: &Value<'_>) -> Result<Statement, Cause>
    ensures { option_map value_of_statement (result_ok result) ≡ held_in statement_image_store (value_view held.now) }
{
    read_struct! { held => Statement::ImageStore { image, coordinate, array_index, value } }
}

/// Reads an `Atomic`.
#[tactic(auto, unfolding(naga_json::specs::Fields::struct_in))]
fn read_statement_atomic(held: &Value<'_>) -> Result<Statement, Cause>
    ensures { option_map value_of_statement (result_ok result) ≡ held_in statement_atomic (value_view held.now) }
{
    read_struct! { held => Statement::Atomic { pointer, fun, value, result } }
}

/// Reads an `ImageAtomic`.
#[tactic(auto, unfolding(naga_json::specs::Fields::struct_in))]
fn read_statement_image_atomic(held: &Value<'_>) -> Result<Statement, Cause>
    ensures { option_map value_of_statement (result_ok result) ≡ held_in statement_image_atomic (value_view held.now) }
{
    read_struct! { held => Statement::ImageAtomic { image, coordinate, array_index, fun, value } }
}

/// Reads a `WorkGroupUniformLoad`.
#[tactic(auto, unfolding(naga_json::specs::Fields::struct_in))]
fn read_statement_work_group_uniform_load(held: &Value<'_>) -> Result<Statement, Cause>
    ensures { option_map value_of_statement (result_ok result)
        ≡ held_in statement_work_group_uniform_load (value_view held.now) }
{
    read_struct! { held => Statement::WorkGroupUniformLoad { pointer, result } }
}

/// Reads a `Call`.
#[tactic(auto, unfolding(naga_json::specs::Fields::struct_in))]
fn read_statement_call(alloc: Global, held: &Value<'_>) -> Result<Statement, Cause>
    ensures { Reads value_of_statement result (held_in statement_call (value_view held.now)) }
{
    read_struct! { held => Statement::Call {
        function, arguments: coded_list_field(alloc), result,
    } }
}

/// Reads a `RayQuery`.
#[tactic(auto, unfolding(naga_json::specs::Fields::struct_in))]
fn read_statement_ray_query(held: &Value<'_>) -> Result<Statement, Cause>
    ensures { option_map value_of_statement (result_ok result) ≡ held_in statement_ray_query (value_view held.now) }
{
    read_struct! { held => Statement::RayQuery { query, fun } }
}

/// Reads a `SubgroupBallot`.
#[tactic(auto, unfolding(naga_json::specs::Fields::struct_in))]
fn read_statement_subgroup_ballot(held: &Value<'_>) -> Result<Statement, Cause>
    ensures { option_map value_of_statement (result_ok result)
        ≡ held_in statement_subgroup_ballot (value_view held.now) }
{
    read_struct! { held => Statement::SubgroupBallot { result, predicate } }
}

/// Reads a `SubgroupGather`.
#[tactic(auto, unfolding(naga_json::specs::Fields::struct_in))]
fn read_statement_subgroup_gather(held: &Value<'_>) -> Result<Statement, Cause>
    ensures { option_map value_of_statement (result_ok result)
        ≡ held_in statement_subgroup_gather (value_view held.now) }
{
    read_struct! { held => Statement::SubgroupGather { mode, argument, result } }
}

/// Reads a `SubgroupCollectiveOperation`.
#[tactic(auto, unfolding(naga_json::specs::Fields::struct_in))]
fn read_statement_subgroup_collective_operation(held: &Value<'_>) -> Result<Statement, Cause>
    ensures { option_map value_of_statement (result_ok result)
        ≡ held_in statement_subgroup_collective_operation (value_view held.now) }
{
    read_struct! { held => Statement::SubgroupCollectiveOperation {
        op, collective_op, argument, result,
    } }
}

/// Reads a `CooperativeStore`.
#[tactic(auto, unfolding(naga_json::specs::Fields::struct_in))]
fn read_statement_cooperative_store(held: &Value<'_>) -> Result<Statement, Cause>
    ensures { option_map value_of_statement (result_ok result)
        ≡ held_in statement_cooperative_store (value_view held.now) }
{
    read_struct! { held => Statement::CooperativeStore { target, data } }
}

/// Reads a `Statement` that contains data and no block.
#[tactic(auto, using(naga_json_values::proofs::ReadsLemmas::reads_exact))]
pub(crate) fn read_simple_statement(
    alloc: Global,
    name: &str,
    held: &Value<'_>,
) -> Result<Statement, Cause>
    ensures { Reads value_of_statement result (choose (simple_statement_rows (value_view held.now)) name.now) }
{
    match name {
        "Emit" => Ok(Statement::Emit(Coded::read_value(held)?)),
        "Return" => read_statement_return(held),
        "ControlBarrier" => Ok(Statement::ControlBarrier(Coded::read_value(held)?)),
        "MemoryBarrier" => Ok(Statement::MemoryBarrier(Coded::read_value(held)?)),
        "Store" => read_statement_store(held),
        "ImageStore" => read_statement_image_store(held),
        "Atomic" => read_statement_atomic(held),
        "ImageAtomic" => read_statement_image_atomic(held),
        _ => read_simple_statement_from_work_group_uniform_load(alloc, name, held),
    }
}

/// Reads a `WorkGroupUniformLoad` or a later variant.
#[tactic(auto, using(naga_json_values::proofs::ReadsLemmas::reads_exact))]
fn read_simple_statement_from_work_group_uniform_load(
    alloc: Global,
    name: &str,
    held: &Value<'_>,
) -> Result<Statement, Cause>
    ensures { Reads value_of_statement result (choose (drop 8 (simple_statement_rows (value_view held.now))) name.now) }
{
    match name {
        "WorkGroupUniformLoad" => read_statement_work_group_uniform_load(held),
        "Call" => read_statement_call(alloc, held),
        "RayQuery" => read_statement_ray_query(held),
        "RayPipelineFunction" => Ok(Statement::RayPipelineFunction(Coded::read_value(held)?)),
        "SubgroupBallot" => read_statement_subgroup_ballot(held),
        "SubgroupGather" => read_statement_subgroup_gather(held),
        "SubgroupCollectiveOperation" => read_statement_subgroup_collective_operation(held),
        "CooperativeStore" => read_statement_cooperative_store(held),
        _ => Err(Cause::UnknownVariant),
    }
}
