// Made by tests/derive from the declarations of naga_kinds and naga_ir.
//! What naga_ir declares in types.rt.
ghost use Rattle.std.specs.Prelude.{drop, option_map, ◌≡◌};
ghost use Rattle.std.specs.Result.{result_ok};
ghost use Rattle.json.specs.Value.{value_view};
ghost use Rattle.naga_json.specs.Objects.{choose};
ghost use Rattle.naga_json.specs.Variants.{held_in};
ghost use Rattle.naga_json_values.specs.Reads.{Reads};
ghost use Rattle.naga_ir.specs.Types.{inner_of, member_of};
ghost use Rattle.naga_json.specs.derived.Types.{struct_member_codec, type_inner_acceleration_structure, type_inner_array, type_inner_binding_array, type_inner_codec, type_inner_cooperative_matrix, type_inner_image, type_inner_matrix, type_inner_pointer, type_inner_ray_query, type_inner_rows, type_inner_sampler, type_inner_struct, type_inner_value_pointer, type_inner_vector};

use crate::members::struct_members_field;
use json::Value;
use naga_ir::{StructMember, TypeInner};
use naga_json_values::objects::holder;
use naga_json_values::text::optional_text_field;
use naga_json_values::{Cause, Coded, read_struct};
use std::alloc::Global;

/// Reads a `StructMember`.
#[tactic(auto, unfolding(naga_json::specs::Fields::struct_in))]
pub fn read_struct_member(alloc: Global, value: &Value<'_>) -> Result<StructMember, Cause>
    ensures { Reads member_of result (struct_member_codec.decode (value_view value.now)) }
{
    read_struct! { value => StructMember {
        name: optional_text_field(alloc), ty, binding, offset,
    } }
}

/// Reads a `Vector`.
#[tactic(auto, unfolding(naga_json::specs::Fields::struct_in))]
fn read_type_inner_vector(held: &Value<'_>) -> Result<TypeInner, Cause>
    ensures { option_map inner_of (result_ok result) ≡ held_in type_inner_vector (value_view held.now) }
{
    read_struct! { held => TypeInner::Vector { size, scalar } }
}

/// Reads a `Matrix`.
#[tactic(auto, unfolding(naga_json::specs::Fields::struct_in))]
fn read_type_inner_matrix(held: &Value<'_>) -> Result<TypeInner, Cause>
    ensures { option_map inner_of (result_ok result) ≡ held_in type_inner_matrix (value_view held.now) }
{
    read_struct! { held => TypeInner::Matrix { columns, rows, scalar } }
}

/// Reads a `CooperativeMatrix`.
#[tactic(auto, unfolding(naga_json::specs::Fields::struct_in))]
fn read_type_inner_cooperative_matrix(held: &Value<'_>) -> Result<TypeInner, Cause>
    ensures { option_map inner_of (result_ok result) ≡ held_in type_inner_cooperative_matrix (value_view held.now) }
{
    read_struct! { held => TypeInner::CooperativeMatrix { columns, rows, scalar, role } }
}

/// Reads a `Pointer`.
#[tactic(auto, unfolding(naga_json::specs::Fields::struct_in))]
fn read_type_inner_pointer(held: &Value<'_>) -> Result<TypeInner, Cause>
    ensures { option_map inner_of (result_ok result) ≡ held_in type_inner_pointer (value_view held.now) }
{
    read_struct! { held => TypeInner::Pointer { base, space } }
}

/// Reads a `ValuePointer`.
#[tactic(auto, unfolding(naga_json::specs::Fields::struct_in))]
fn read_type_inner_value_pointer(held: &Value<'_>) -> Result<TypeInner, Cause>
    ensures { option_map inner_of (result_ok result) ≡ held_in type_inner_value_pointer (value_view held.now) }
{
    read_struct! { held => TypeInner::ValuePointer { size, scalar, space } }
}

/// Reads an `Array`.
#[tactic(auto, unfolding(naga_json::specs::Fields::struct_in))]
fn read_type_inner_array(held: &Value<'_>) -> Result<TypeInner, Cause>
    ensures { option_map inner_of (result_ok result) ≡ held_in type_inner_array (value_view held.now) }
{
    read_struct! { held => TypeInner::Array { base, size, stride } }
}

/// Reads a `Struct`.
#[tactic(auto, unfolding(naga_json::specs::Fields::struct_in))]
fn read_type_inner_struct(alloc: Global, held: &Value<'_>) -> Result<TypeInner, Cause>
    ensures { Reads inner_of result (held_in type_inner_struct (value_view held.now)) }
{
    read_struct! { held => TypeInner::Struct { members: struct_members_field(alloc), span } }
}

/// Reads an `Image`.
#[tactic(auto, unfolding(naga_json::specs::Fields::struct_in))]
fn read_type_inner_image(held: &Value<'_>) -> Result<TypeInner, Cause>
    ensures { option_map inner_of (result_ok result) ≡ held_in type_inner_image (value_view held.now) }
{
    read_struct! { held => TypeInner::Image { dim, arrayed, class } }
}

/// Reads a `Sampler`.
#[tactic(auto, unfolding(naga_json::specs::Fields::struct_in))]
fn read_type_inner_sampler(held: &Value<'_>) -> Result<TypeInner, Cause>
    ensures { option_map inner_of (result_ok result) ≡ held_in type_inner_sampler (value_view held.now) }
{
    read_struct! { held => TypeInner::Sampler { comparison } }
}

/// Reads an `AccelerationStructure`.
#[tactic(auto, unfolding(naga_json::specs::Fields::struct_in))]
fn read_type_inner_acceleration_structure(held: &Value<'_>) -> Result<TypeInner, Cause>
    ensures { option_map inner_of (result_ok result) ≡ held_in type_inner_acceleration_structure (value_view held.now) }
{
    read_struct! { held => TypeInner::AccelerationStructure { vertex_return } }
}

/// Reads a `RayQuery`.
#[tactic(auto, unfolding(naga_json::specs::Fields::struct_in))]
fn read_type_inner_ray_query(held: &Value<'_>) -> Result<TypeInner, Cause>
    ensures { option_map inner_of (result_ok result) ≡ held_in type_inner_ray_query (value_view held.now) }
{
    read_struct! { held => TypeInner::RayQuery { vertex_return } }
}

/// Reads a `BindingArray`.
#[tactic(auto, unfolding(naga_json::specs::Fields::struct_in))]
fn read_type_inner_binding_array(held: &Value<'_>) -> Result<TypeInner, Cause>
    ensures { option_map inner_of (result_ok result) ≡ held_in type_inner_binding_array (value_view held.now) }
{
    read_struct! { held => TypeInner::BindingArray { base, size } }
}

/// Reads a `TypeInner` that contains data.
#[tactic(auto, using(naga_json_values::proofs::ReadsLemmas::reads_exact))]
pub(crate) fn read_held_type_inner(
    alloc: Global,
    name: &str,
    held: &Value<'_>,
) -> Result<TypeInner, Cause>
    ensures { Reads inner_of result (choose (type_inner_rows (value_view held.now)) name.now) }
{
    match name {
        "Scalar" => Ok(TypeInner::Scalar(Coded::read_value(held)?)),
        "Vector" => read_type_inner_vector(held),
        "Matrix" => read_type_inner_matrix(held),
        "CooperativeMatrix" => read_type_inner_cooperative_matrix(held),
        "Atomic" => Ok(TypeInner::Atomic(Coded::read_value(held)?)),
        "Pointer" => read_type_inner_pointer(held),
        "ValuePointer" => read_type_inner_value_pointer(held),
        "Array" => read_type_inner_array(held),
        _ => read_held_type_inner_from_struct(alloc, name, held),
    }
}

/// Reads a `Struct` or a later variant.
#[tactic(auto, using(naga_json_values::proofs::ReadsLemmas::reads_exact))]
fn read_held_type_inner_from_struct(
    alloc: Global,
    name: &str,
    held: &Value<'_>,
) -> Result<TypeInner, Cause>
    ensures { Reads inner_of result (choose (drop 8 (type_inner_rows (value_view held.now))) name.now) }
{
    match name {
        "Struct" => read_type_inner_struct(alloc, held),
        "Image" => read_type_inner_image(held),
        "Sampler" => read_type_inner_sampler(held),
        "AccelerationStructure" => read_type_inner_acceleration_structure(held),
        "RayQuery" => read_type_inner_ray_query(held),
        "BindingArray" => read_type_inner_binding_array(held),
        _ => Err(Cause::UnknownVariant),
    }
}

/// Reads a `TypeInner`.
#[tactic(auto, using(naga_json_values::proofs::ReadsLemmas::reads_exact))]
pub fn read_type_inner(alloc: Global, value: &Value<'_>) -> Result<TypeInner, Cause>
    ensures { Reads inner_of result (type_inner_codec.decode (value_view value.now)) }
{
    let (name, held) = holder(value)?;
    read_held_type_inner(alloc, name, held)
}
