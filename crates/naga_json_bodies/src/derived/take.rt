// Made by tests/derive from the declarations of naga_kinds and naga_ir.
//! How a `Statement` is taken.
ghost use Rattle.std.specs.Prelude.{IfSome, Some, ◌≡◌};
ghost use Rattle.naga_json.specs.Objects.{choose, find_row};
ghost use Rattle.naga_json.specs.Variants.{held_in};
ghost use Rattle.naga_json_tokens.specs.Takes.{Takes};
ghost use Rattle.naga_json.specs.StatementValue.{value_of_statement};
ghost use Rattle.naga_json.specs.derived.Statement.{simple_statement_rows, statement_atomic, statement_call, statement_cooperative_store, statement_image_atomic, statement_image_store, statement_names, statement_ray_query, statement_return, statement_store, statement_subgroup_ballot, statement_subgroup_collective_operation, statement_subgroup_gather, statement_work_group_uniform_load};

use naga_ir::Statement;
use naga_json_tokens::{Reader, Take, take_struct};
use std::alloc::Global;

/// Takes what a `Return` holds.
#[tactic(auto, using(naga_json_tokens::proofs::TakesPartsLemmas::takes_struct), unfolding(naga_json::specs::Fields::struct_in))]
fn take_statement_return(alloc: Global, reader: &mut Reader<'_>) -> Option<Statement>
    ensures { IfSome result
        (λ found. Takes (held_in statement_return) (value_of_statement found) reader.old reader.new) }
{
    take_struct! { alloc, reader => Statement::Return { value } }
}

/// Takes what a `Store` holds.
#[tactic(auto, using(naga_json_tokens::proofs::TakesPartsLemmas::takes_struct), unfolding(naga_json::specs::Fields::struct_in))]
fn take_statement_store(alloc: Global, reader: &mut Reader<'_>) -> Option<Statement>
    ensures { IfSome result
        (λ found. Takes (held_in statement_store) (value_of_statement found) reader.old reader.new) }
{
    take_struct! { alloc, reader => Statement::Store { pointer, value } }
}

/// Takes what an `ImageStore` holds.
#[tactic(auto, using(naga_json_tokens::proofs::TakesPartsLemmas::takes_struct), unfolding(naga_json::specs::Fields::struct_in))]
fn take_statement_image_store(alloc: Global, reader: &mut Reader<'_>) -> Option<Statement>
    ensures { IfSome result
        (λ found. Takes (held_in statement_image_store) (value_of_statement found) reader.old reader.new) }
{
    take_struct! { alloc, reader => Statement::ImageStore {
        image, coordinate, array_index, value,
    } }
}

/// Takes what an `Atomic` holds.
#[tactic(auto, using(naga_json_tokens::proofs::TakesPartsLemmas::takes_struct), unfolding(naga_json::specs::Fields::struct_in))]
fn take_statement_atomic(alloc: Global, reader: &mut Reader<'_>) -> Option<Statement>
    ensures { IfSome result
        (λ found. Takes (held_in statement_atomic) (value_of_statement found) reader.old reader.new) }
{
    take_struct! { alloc, reader => Statement::Atomic { pointer, fun, value, result } }
}

/// Takes what an `ImageAtomic` holds.
#[tactic(auto, using(naga_json_tokens::proofs::TakesPartsLemmas::takes_struct), unfolding(naga_json::specs::Fields::struct_in))]
fn take_statement_image_atomic(alloc: Global, reader: &mut Reader<'_>) -> Option<Statement>
    ensures { IfSome result
        (λ found. Takes (held_in statement_image_atomic) (value_of_statement found) reader.old reader.new) }
{
    take_struct! { alloc, reader => Statement::ImageAtomic {
        image, coordinate, array_index, fun, value,
    } }
}

/// Takes what a `WorkGroupUniformLoad` holds.
#[tactic(auto, using(naga_json_tokens::proofs::TakesPartsLemmas::takes_struct), unfolding(naga_json::specs::Fields::struct_in))]
fn take_statement_work_group_uniform_load(
    alloc: Global,
    reader: &mut Reader<'_>,
) -> Option<Statement>
    ensures { IfSome result
        (λ found. Takes (held_in statement_work_group_uniform_load) (value_of_statement found) reader.old reader.new) }
{
    take_struct! { alloc, reader => Statement::WorkGroupUniformLoad { pointer, result } }
}

/// Takes what a `Call` holds.
#[tactic(auto, using(naga_json_tokens::proofs::TakesPartsLemmas::takes_struct), unfolding(naga_json::specs::Fields::struct_in))]
fn take_statement_call(alloc: Global, reader: &mut Reader<'_>) -> Option<Statement>
    ensures { IfSome result (λ found. Takes (held_in statement_call) (value_of_statement found) reader.old reader.new) }
{
    take_struct! { alloc, reader => Statement::Call { function, arguments, result } }
}

/// Takes what a `RayQuery` holds.
#[tactic(auto, using(naga_json_tokens::proofs::TakesPartsLemmas::takes_struct), unfolding(naga_json::specs::Fields::struct_in))]
fn take_statement_ray_query(alloc: Global, reader: &mut Reader<'_>) -> Option<Statement>
    ensures { IfSome result
        (λ found. Takes (held_in statement_ray_query) (value_of_statement found) reader.old reader.new) }
{
    take_struct! { alloc, reader => Statement::RayQuery { query, fun } }
}

/// Takes what a `SubgroupBallot` holds.
#[tactic(auto, using(naga_json_tokens::proofs::TakesPartsLemmas::takes_struct), unfolding(naga_json::specs::Fields::struct_in))]
fn take_statement_subgroup_ballot(alloc: Global, reader: &mut Reader<'_>) -> Option<Statement>
    ensures { IfSome result
        (λ found. Takes (held_in statement_subgroup_ballot) (value_of_statement found) reader.old reader.new) }
{
    take_struct! { alloc, reader => Statement::SubgroupBallot { result, predicate } }
}

/// Takes what a `SubgroupGather` holds.
#[tactic(auto, using(naga_json_tokens::proofs::TakesPartsLemmas::takes_struct), unfolding(naga_json::specs::Fields::struct_in))]
fn take_statement_subgroup_gather(alloc: Global, reader: &mut Reader<'_>) -> Option<Statement>
    ensures { IfSome result
        (λ found. Takes (held_in statement_subgroup_gather) (value_of_statement found) reader.old reader.new) }
{
    take_struct! { alloc, reader => Statement::SubgroupGather { mode, argument, result } }
}

/// Takes what a `SubgroupCollectiveOperation` holds.
#[tactic(auto, using(naga_json_tokens::proofs::TakesPartsLemmas::takes_struct), unfolding(naga_json::specs::Fields::struct_in))]
fn take_statement_subgroup_collective_operation(
    alloc: Global,
    reader: &mut Reader<'_>,
) -> Option<Statement>
    ensures { IfSome result
        (λ found. Takes (held_in statement_subgroup_collective_operation) (value_of_statement found) reader.old reader.new) }
{
    take_struct! { alloc, reader => Statement::SubgroupCollectiveOperation {
        op, collective_op, argument, result,
    } }
}

/// Takes what a `CooperativeStore` holds.
#[tactic(auto, using(naga_json_tokens::proofs::TakesPartsLemmas::takes_struct), unfolding(naga_json::specs::Fields::struct_in))]
fn take_statement_cooperative_store(alloc: Global, reader: &mut Reader<'_>) -> Option<Statement>
    ensures { IfSome result
        (λ found. Takes (held_in statement_cooperative_store) (value_of_statement found) reader.old reader.new) }
{
    take_struct! { alloc, reader => Statement::CooperativeStore { target, data } }
}

/// Takes what a `SubgroupBallot` or a later variant holds.
fn take_statement_from_subgroup_ballot(
    alloc: Global,
    reader: &mut Reader<'_>,
    name: &str,
) -> Option<Statement>
    ensures { IfSome result
        (λ found. Takes (λ held. choose (simple_statement_rows held) name.now) (value_of_statement found) reader.old reader.new) }
{
    match name {
        "SubgroupBallot" => take_statement_subgroup_ballot(alloc, reader),
        "SubgroupGather" => take_statement_subgroup_gather(alloc, reader),
        "SubgroupCollectiveOperation" => {
            take_statement_subgroup_collective_operation(alloc, reader)
        }
        "CooperativeStore" => take_statement_cooperative_store(alloc, reader),
        _ => None,
    }
}

/// Returns a `Statement` that is a name alone.
pub(crate) fn named_statement(name: &str) -> Option<Statement>
    ensures { IfSome result (λ found. find_row statement_names name.now ≡ Some (value_of_statement found)) }
{
    match name {
        "Break" => Some(Statement::Break),
        "Continue" => Some(Statement::Continue),
        "Kill" => Some(Statement::Kill),
        _ => None,
    }
}

/// Takes what a `Statement` that contains data and no block holds.
#[tactic(auto, using(naga_json_tokens::proofs::TakesMapLemmas::takes_map))]
pub(crate) fn take_simple_statement(
    alloc: Global,
    reader: &mut Reader<'_>,
    name: &str,
) -> Option<Statement>
    ensures { IfSome result
        (λ found. Takes (λ held. choose (simple_statement_rows held) name.now) (value_of_statement found) reader.old reader.new) }
{
    match name {
        "Emit" => Some(Statement::Emit(Take::take(alloc, reader)?)),
        "Return" => take_statement_return(alloc, reader),
        "ControlBarrier" => Some(Statement::ControlBarrier(Take::take(alloc, reader)?)),
        "MemoryBarrier" => Some(Statement::MemoryBarrier(Take::take(alloc, reader)?)),
        "Store" => take_statement_store(alloc, reader),
        "ImageStore" => take_statement_image_store(alloc, reader),
        "Atomic" => take_statement_atomic(alloc, reader),
        "ImageAtomic" => take_statement_image_atomic(alloc, reader),
        "WorkGroupUniformLoad" => take_statement_work_group_uniform_load(alloc, reader),
        "Call" => take_statement_call(alloc, reader),
        "RayQuery" => take_statement_ray_query(alloc, reader),
        "RayPipelineFunction" => Some(Statement::RayPipelineFunction(Take::take(alloc, reader)?)),
        _ => take_statement_from_subgroup_ballot(alloc, reader, name),
    }
}
