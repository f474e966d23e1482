// Made by tests/derive from the declarations of naga_kinds and naga_ir.
//! What naga_ir declares in expression.rt.
ghost use Rattle.std.specs.Prelude.{◌≡◌};
ghost use Rattle.std.specs.Result.{result_ok};
ghost use Rattle.json.specs.Value.{value_view};
ghost use Rattle.naga_json.specs.Objects.{choose, find_row};
ghost use Rattle.naga_json.specs.Variants.{held_in};
ghost use Rattle.naga_json.specs.derived.Expression.{atomic_function_codec, atomic_function_exchange, atomic_function_names, atomic_function_rows, cooperative_data_codec, gather_mode_codec, gather_mode_names, gather_mode_rows, image_query_codec, image_query_names, image_query_rows, image_query_size, sample_level_codec, sample_level_gradient, sample_level_names, sample_level_rows};

use crate::objects::variant;
use crate::{Cause, Coded, read_struct};
use json::Value;
use naga_ir::{AtomicFunction, CooperativeData, GatherMode, ImageQuery, SampleLevel};

/// Reads an `AtomicFunction` that is a name alone.
pub(crate) fn read_named_atomic_function(name: &str) -> Result<AtomicFunction, Cause>
    ensures { result_ok result ≡ find_row atomic_function_names name.now }
{
    match name {
        "Add" => Ok(AtomicFunction::Add),
        "Subtract" => Ok(AtomicFunction::Subtract),
        "And" => Ok(AtomicFunction::And),
        "ExclusiveOr" => Ok(AtomicFunction::ExclusiveOr),
        "InclusiveOr" => Ok(AtomicFunction::InclusiveOr),
        "Min" => Ok(AtomicFunction::Min),
        "Max" => Ok(AtomicFunction::Max),
        _ => Err(Cause::UnknownVariant),
    }
}

/// Reads an `Exchange`.
#[tactic(auto, unfolding(naga_json::specs::Fields::struct_in))]
fn read_atomic_function_exchange(held: &Value<'_>) -> Result<AtomicFunction, Cause>
    ensures { result_ok result ≡ held_in atomic_function_exchange (value_view held.now) }
{
    read_struct! { held => AtomicFunction::Exchange { compare } }
}

/// Reads an `AtomicFunction` that contains data.
pub(crate) fn read_held_atomic_function(
    name: &str,
    held: &Value<'_>,
) -> Result<AtomicFunction, Cause>
    ensures { result_ok result ≡ choose (atomic_function_rows (value_view held.now)) name.now }
{
    match name {
        "Exchange" => read_atomic_function_exchange(held),
        _ => Err(Cause::UnknownVariant),
    }
}

impl Coded for AtomicFunction {
    ghost codec = { atomic_function_codec };

    fn read_value(value: &Value<'_>) -> Result<Self, Cause> {
        match variant(value)? {
            (name, None) => read_named_atomic_function(name),
            (name, Some(held)) => read_held_atomic_function(name, held),
        }
    }
}

/// Reads a `SampleLevel` that is a name alone.
pub(crate) fn read_named_sample_level(name: &str) -> Result<SampleLevel, Cause>
    ensures { result_ok result ≡ find_row sample_level_names name.now }
{
    match name {
        "Auto" => Ok(SampleLevel::Auto),
        "Zero" => Ok(SampleLevel::Zero),
        _ => Err(Cause::UnknownVariant),
    }
}

/// Reads a `Gradient`.
#[tactic(auto, unfolding(naga_json::specs::Fields::struct_in))]
fn read_sample_level_gradient(held: &Value<'_>) -> Result<SampleLevel, Cause>
    ensures { result_ok result ≡ held_in sample_level_gradient (value_view held.now) }
{
    read_struct! { held => SampleLevel::Gradient { x, y } }
}

/// Reads a `SampleLevel` that contains data.
pub(crate) fn read_held_sample_level(name: &str, held: &Value<'_>) -> Result<SampleLevel, Cause>
    ensures { result_ok result ≡ choose (sample_level_rows (value_view held.now)) name.now }
{
    match name {
        "Exact" => Ok(SampleLevel::Exact(Coded::read_value(held)?)),
        "Bias" => Ok(SampleLevel::Bias(Coded::read_value(held)?)),
        "Gradient" => read_sample_level_gradient(held),
        _ => Err(Cause::UnknownVariant),
    }
}

impl Coded for SampleLevel {
    ghost codec = { sample_level_codec };

    fn read_value(value: &Value<'_>) -> Result<Self, Cause> {
        match variant(value)? {
            (name, None) => read_named_sample_level(name),
            (name, Some(held)) => read_held_sample_level(name, held),
        }
    }
}

/// Reads an `ImageQuery` that is a name alone.
pub(crate) fn read_named_image_query(name: &str) -> Result<ImageQuery, Cause>
    ensures { result_ok result ≡ find_row image_query_names name.now }
{
    match name {
        "NumLevels" => Ok(ImageQuery::NumLevels),
        "NumLayers" => Ok(ImageQuery::NumLayers),
        "NumSamples" => Ok(ImageQuery::NumSamples),
        _ => Err(Cause::UnknownVariant),
    }
}

/// Reads a `Size`.
#[tactic(auto, unfolding(naga_json::specs::Fields::struct_in))]
fn read_image_query_size(held: &Value<'_>) -> Result<ImageQuery, Cause>
    ensures { result_ok result ≡ held_in image_query_size (value_view held.now) }
{
    read_struct! { held => ImageQuery::Size { level } }
}

/// Reads an `ImageQuery` that contains data.
pub(crate) fn read_held_image_query(name: &str, held: &Value<'_>) -> Result<ImageQuery, Cause>
    ensures { result_ok result ≡ choose (image_query_rows (value_view held.now)) name.now }
{
    match name {
        "Size" => read_image_query_size(held),
        _ => Err(Cause::UnknownVariant),
    }
}

impl Coded for ImageQuery {
    ghost codec = { image_query_codec };

    fn read_value(value: &Value<'_>) -> Result<Self, Cause> {
        match variant(value)? {
            (name, None) => read_named_image_query(name),
            (name, Some(held)) => read_held_image_query(name, held),
        }
    }
}

/// Reads a `GatherMode` that is a name alone.
pub(crate) fn read_named_gather_mode(name: &str) -> Result<GatherMode, Cause>
    ensures { result_ok result ≡ find_row gather_mode_names name.now }
{
    match name {
        "BroadcastFirst" => Ok(GatherMode::BroadcastFirst),
        _ => Err(Cause::UnknownVariant),
    }
}

/// Reads a `GatherMode` that contains data.
pub(crate) fn read_held_gather_mode(name: &str, held: &Value<'_>) -> Result<GatherMode, Cause>
    ensures { result_ok result ≡ choose (gather_mode_rows (value_view held.now)) name.now }
{
    match name {
        "Broadcast" => Ok(GatherMode::Broadcast(Coded::read_value(held)?)),
        "Shuffle" => Ok(GatherMode::Shuffle(Coded::read_value(held)?)),
        "ShuffleDown" => Ok(GatherMode::ShuffleDown(Coded::read_value(held)?)),
        "ShuffleUp" => Ok(GatherMode::ShuffleUp(Coded::read_value(held)?)),
        "ShuffleXor" => Ok(GatherMode::ShuffleXor(Coded::read_value(held)?)),
        "QuadBroadcast" => Ok(GatherMode::QuadBroadcast(Coded::read_value(held)?)),
        "QuadSwap" => Ok(GatherMode::QuadSwap(Coded::read_value(held)?)),
        _ => Err(Cause::UnknownVariant),
    }
}

impl Coded for GatherMode {
    ghost codec = { gather_mode_codec };

    fn read_value(value: &Value<'_>) -> Result<Self, Cause> {
        match variant(value)? {
            (name, None) => read_named_gather_mode(name),
            (name, Some(held)) => read_held_gather_mode(name, held),
        }
    }
}

impl Coded for CooperativeData {
    ghost codec = { cooperative_data_codec };

    #[tactic(auto, unfolding(naga_json::specs::Fields::struct_in))]
    fn read_value(value: &Value<'_>) -> Result<Self, Cause> {
        read_struct! { value => CooperativeData { pointer, stride, row_major } }
    }
}
