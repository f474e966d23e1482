//! Entry points.
ghost use Rattle.json.specs.Value.{value_view};
ghost use Rattle.naga_json.specs.EntryPoint.{entry_point_form, entry_point_value};
ghost use Rattle.naga_json_read.specs.Parts.{entry_point_in, invocation_in, invocation_value, work_in, work_value};
ghost use Rattle.naga_json_values.specs.Reads.{Reads};

use super::lists::{FromJson, required_field};
use crate::parts::{Invocation, Work};
use json::Value;
use naga_ir::EntryPoint;
use naga_json_values::Cause;
use naga_json_values::objects::fields;
use naga_json_values::parts::Field;
use std::alloc::Global;

impl FromJson for EntryPoint {
    ghost use Rattle.naga_json.specs.EntryPoint.{EntryPointValue};

    ghost Meaning = { EntryPointValue };

    ghost value_of = { entry_point_value };

    ghost meaning = { entry_point_form.decode };

    fn from_json(alloc: Global, value: &Value<'_>) -> Result<Self, Cause> {
        let object = fields(
            value,
            &[
                "name",
                "stage",
                "early_depth_test",
                "workgroup_size",
                "workgroup_size_overrides",
                "function",
                "mesh_info",
                "task_payload",
                "incoming_ray_payload",
            ],
        )?;
        read_fields(alloc, object)
    }
}

/// Reads the fields of an entry point.
#[tactic(auto, unfolding(crate::specs::Parts::entry_point_in))]
fn read_fields(alloc: Global, value: &Value<'_>) -> Result<EntryPoint, Cause>
    ensures { Reads entry_point_value result (entry_point_in (value_view value.now)) }
{
    let invocation = read_invocation(alloc, value)?;
    let Work {
        function,
        mesh_info,
        task_payload,
        incoming_ray_payload,
    } = read_work(alloc, value)?;
    let workgroup_size = invocation.workgroup_size;
    Ok(EntryPoint {
        name: invocation.name,
        stage: invocation.stage,
        early_depth_test: invocation.early_depth_test,
        workgroup_size,
        workgroup_size_overrides: invocation.workgroup_size_overrides,
        function,
        mesh_info,
        task_payload,
        incoming_ray_payload,
    })
}

/// Reads the fields of an entry point that say how it is invoked.
#[tactic(auto, unfolding(crate::specs::Parts::invocation_in))]
fn read_invocation(alloc: Global, value: &Value<'_>) -> Result<Invocation, Cause>
    ensures { Reads invocation_value result (invocation_in (value_view value.now)) }
{
    let name = required_field(alloc, value, "name")?;
    let stage = Field::read_field(value, "stage")?;
    let early_depth_test = Field::read_field(value, "early_depth_test")?;
    let workgroup_size = Field::read_field(value, "workgroup_size")?;
    let workgroup_size_overrides = Field::read_field(value, "workgroup_size_overrides")?;
    Ok(Invocation {
        name,
        stage,
        early_depth_test,
        workgroup_size,
        workgroup_size_overrides,
    })
}

/// Reads the other fields of an entry point.
#[tactic(auto, unfolding(crate::specs::Parts::work_in))]
fn read_work(alloc: Global, value: &Value<'_>) -> Result<Work, Cause>
    ensures { Reads work_value result (work_in (value_view value.now)) }
{
    let function = required_field(alloc, value, "function")?;
    let mesh_info = Field::read_field(value, "mesh_info")?;
    let task_payload = Field::read_field(value, "task_payload")?;
    let incoming_ray_payload = Field::read_field(value, "incoming_ray_payload")?;
    Ok(Work {
        function,
        mesh_info,
        task_payload,
        incoming_ray_payload,
    })
}
