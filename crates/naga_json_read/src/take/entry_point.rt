//! Entry points.
ghost use Rattle.std.specs.Prelude.{IfSome};
ghost use Rattle.naga_json.specs.EntryPoint.{entry_point_form, entry_point_value};
ghost use Rattle.naga_json.specs.Function.{function_form, function_value};
ghost use Rattle.naga_json_read.specs.Taken.{TakesInvocation, TakesWork};
ghost use Rattle.naga_json_tokens.specs.Takes.{Takes, TakesField};

use super::function::take_function;
use super::lists::TakeJson;
use super::trees::{take_nullable_field, take_tree_field};
use crate::parts::{Invocation, Work};
use naga_arena::Handle;
use naga_ir::{EntryPoint, Expression, Function, MeshStageInfo};
use naga_json_tokens::tokens::{take_begin, take_end, take_key};
use naga_json_tokens::{Reader, take_field};
use naga_kinds::EarlyDepthTest;
use std::alloc::Global;

/// Takes the function in a field.
#[tactic(auto, using(naga_json_tokens::proofs::TakesHolderLemmas::takes_field))]
fn take_function_field(alloc: Global, reader: &mut Reader<'_>, name: &str) -> Option<Function>
    ensures { IfSome result
        (λ found. TakesField name.now function_form.decode (function_value found) reader.old reader.new) }
{
    take_key(reader, name)?;
    take_function(alloc, reader)
}

/// Takes an entry point.
fn take_entry_point(alloc: Global, reader: &mut Reader<'_>) -> Option<EntryPoint>
    ensures { IfSome result
        (λ found. Takes entry_point_form.decode (entry_point_value found) reader.old reader.new) }
{
    take_begin(reader)?;
    let invocation = take_invocation(alloc, reader)?;
    let Work {
        function,
        mesh_info,
        task_payload,
        incoming_ray_payload,
    } = take_work(alloc, reader)?;
    let workgroup_size = invocation.workgroup_size;
    Some(EntryPoint {
        name: invocation.name,
        stage: invocation.stage,
        early_depth_test: invocation.early_depth_test,
        workgroup_size,
        workgroup_size_overrides: invocation.workgroup_size_overrides,
        function,
        mesh_info,
        task_payload,
        incoming_ray_payload,
    })
}

/// Takes the fields of an entry point that say how it is invoked.
fn take_invocation(alloc: Global, reader: &mut Reader<'_>) -> Option<Invocation>
    ensures { IfSome result (λ found. TakesInvocation found reader.old reader.new) }
{
    let name = take_field(alloc, reader, "name")?;
    let stage = take_field(alloc, reader, "stage")?;
    let early_depth_test = take_nullable_field::<EarlyDepthTest>(
        alloc,
        reader,
        "early_depth_test",
    )?;
    let workgroup_size = take_tree_field::<[u32; 3]>(alloc, reader, "workgroup_size")?;
    let workgroup_size_overrides = take_nullable_field::<[Option<Handle<Expression>>; 3]>(
        alloc,
        reader,
        "workgroup_size_overrides",
    )?;
    Some(Invocation {
        name,
        stage,
        early_depth_test,
        workgroup_size,
        workgroup_size_overrides,
    })
}

/// Takes the other fields of an entry point, and the end of it.
fn take_work(alloc: Global, reader: &mut Reader<'_>) -> Option<Work>
    ensures { IfSome result (λ found. TakesWork found reader.old reader.new) }
{
    let function = take_function_field(alloc, reader, "function")?;
    let mesh_info = take_nullable_field::<MeshStageInfo>(alloc, reader, "mesh_info")?;
    let task_payload = take_field(alloc, reader, "task_payload")?;
    let incoming_ray_payload = take_field(alloc, reader, "incoming_ray_payload")?;
    take_end(reader)?;
    Some(Work {
        function,
        mesh_info,
        task_payload,
        incoming_ray_payload,
    })
}

impl TakeJson for EntryPoint {
    fn take(alloc: Global, reader: &mut Reader<'_>) -> Option<Self> {
        take_entry_point(alloc, reader)
    }
}
