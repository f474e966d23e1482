// Made by tests/derive from the declarations of naga_kinds and naga_ir.
//! Appends the texts of the enums of `statement`.
ghost use Rattle.std.specs.Prelude.{codes, OnOk, ◌++◌, ◌≡◌};
ghost use Rattle.naga_text.specs.Parts.{barrier_text};
ghost use Rattle.naga_text.specs.Words.{word};
ghost use Rattle.naga_kinds.specs.derived.Names.{collective_operation_name, subgroup_operation_name};
ghost use Rattle.naga_text.specs.derived.Statement.{action_text, ray_query_function_text};
ghost use Rattle.naga_text.specs.derived.Expression.{atomic_function_text, gather_mode_text};

use crate::derived::expression::{push_atomic_function, push_gather_mode};
use crate::parts::{push_barrier, push_loop};
use crate::pieces::{push_flagged, push_kind_name};
use crate::text::Text;
use naga_ir::{
    AtomicFunction, Barrier, CollectiveOperation, GatherMode, RayQueryFunction, Statement,
    SubgroupOperation,
};
use std::alloc::AllocError;

/// Appends a `RayQueryFunction`, with a space before it.
///
/// Returns `Err` if allocation fails. The text may then end with a part of this.
// One line for each variant.
#[rattlefmt::skip]
pub(crate) fn push_ray_query_function(text: &mut Text, ray_query_function: &RayQueryFunction) -> Result<(), AllocError>
    ensures { OnOk result (text.new ≡ text.old ++ ray_query_function_text ray_query_function.now) }
{
    match ray_query_function {
        RayQueryFunction::Initialize { .. } => text.push(" Initialize"),
        RayQueryFunction::Proceed { .. } => text.push(" Proceed"),
        RayQueryFunction::GenerateIntersection { .. } => text.push(" GenerateIntersection"),
        RayQueryFunction::ConfirmIntersection => text.push(" ConfirmIntersection"),
        RayQueryFunction::Terminate => text.push(" Terminate"),
    }
}

/// Appends the name of a statement, and its fields that are neither handles nor blocks.
///
/// Returns `Err` if allocation fails. The text may then end with a part of this.
// One line for each variant.
#[rattlefmt::skip]
pub fn push_action(text: &mut Text, statement: &Statement) -> Result<(), AllocError>
    ensures { OnOk result (text.new ≡ text.old ++ action_text statement.now) }
{
    match statement {
        Statement::Emit(_) => text.push("emit"),
        Statement::Block(_) => text.push("block"),
        Statement::If { .. } => text.push("if"),
        Statement::Switch { .. } => text.push("switch"),
        Statement::Loop { break_if, .. } => push_loop(text, *break_if),
        Statement::Break => text.push("break"),
        Statement::Continue => text.push("continue"),
        Statement::Return { .. } => text.push("return"),
        Statement::Kill => text.push("kill"),
        Statement::ControlBarrier(barrier) => push_statement_control_barrier(text, *barrier),
        Statement::MemoryBarrier(barrier) => push_statement_memory_barrier(text, *barrier),
        Statement::Store { .. } => text.push("store"),
        Statement::ImageStore { .. } => text.push("image_store"),
        Statement::Atomic { fun, .. } => push_statement_atomic(text, fun),
        Statement::ImageAtomic { fun, .. } => push_statement_image_atomic(text, fun),
        Statement::WorkGroupUniformLoad { .. } => text.push("workgroup_uniform_load"),
        Statement::Call { .. } => text.push("call"),
        Statement::RayQuery { fun, .. } => push_statement_ray_query(text, fun),
        Statement::RayPipelineFunction(_) => text.push("trace_ray"),
        Statement::SubgroupBallot { .. } => text.push("subgroup_ballot"),
        Statement::SubgroupGather { mode, .. } => push_statement_subgroup_gather(text, mode),
        Statement::SubgroupCollectiveOperation { op, collective_op, .. } =>
            push_statement_subgroup_collective_operation(text, *op, *collective_op),
        Statement::CooperativeStore { data, .. } =>
            push_flagged(text, "cooperative_store", data.row_major, "row_major"),
    }
}

/// Appends the text of a `Statement::ControlBarrier`.
fn push_statement_control_barrier(text: &mut Text, barrier: Barrier) -> Result<(), AllocError>
    ensures { OnOk result (text.new ≡ text.old ++ (codes "control_barrier" ++ barrier_text barrier)) }
{
    text.push("control_barrier")?;
    push_barrier(text, barrier)
}

/// Appends the text of a `Statement::MemoryBarrier`.
fn push_statement_memory_barrier(text: &mut Text, barrier: Barrier) -> Result<(), AllocError>
    ensures { OnOk result (text.new ≡ text.old ++ (codes "memory_barrier" ++ barrier_text barrier)) }
{
    text.push("memory_barrier")?;
    push_barrier(text, barrier)
}

/// Appends the text of a `Statement::Atomic`.
fn push_statement_atomic(text: &mut Text, fun: &AtomicFunction) -> Result<(), AllocError>
    ensures { OnOk result (text.new ≡ text.old ++ (codes "atomic" ++ atomic_function_text fun.now)) }
{
    text.push("atomic")?;
    push_atomic_function(text, fun)
}

/// Appends the text of a `Statement::ImageAtomic`.
fn push_statement_image_atomic(text: &mut Text, fun: &AtomicFunction) -> Result<(), AllocError>
    ensures { OnOk result (text.new ≡ text.old ++ (codes "image_atomic" ++ atomic_function_text fun.now)) }
{
    text.push("image_atomic")?;
    push_atomic_function(text, fun)
}

/// Appends the text of a `Statement::RayQuery`.
fn push_statement_ray_query(text: &mut Text, fun: &RayQueryFunction) -> Result<(), AllocError>
    ensures { OnOk result (text.new ≡ text.old ++ (codes "ray_query" ++ ray_query_function_text fun.now)) }
{
    text.push("ray_query")?;
    push_ray_query_function(text, fun)
}

/// Appends the text of a `Statement::SubgroupGather`.
fn push_statement_subgroup_gather(text: &mut Text, mode: &GatherMode) -> Result<(), AllocError>
    ensures { OnOk result (text.new ≡ text.old ++ (codes "subgroup_gather" ++ gather_mode_text mode.now)) }
{
    text.push("subgroup_gather")?;
    push_gather_mode(text, mode)
}

/// Appends the text of a `Statement::SubgroupCollectiveOperation`.
fn push_statement_subgroup_collective_operation(
    text: &mut Text,
    op: SubgroupOperation,
    collective_op: CollectiveOperation,
) -> Result<(), AllocError>
    ensures { OnOk result (text.new ≡ text.old
        ++ (codes "subgroup_collective" ++ (word (subgroup_operation_name op)
        ++ word (collective_operation_name collective_op)))) }
{
    text.push("subgroup_collective")?;
    push_kind_name(text, op)?;
    push_kind_name(text, collective_op)
}
