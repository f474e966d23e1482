// Made by tests/derive from the declarations of naga_kinds and naga_ir.
//! What naga_ir declares in expression.rt.
ghost use Rattle.std.specs.Prelude.{IfSome};
ghost use Rattle.naga_json.specs.Variants.{held_in};
ghost use Rattle.naga_json_tokens.specs.Takes.{Takes};
ghost use Rattle.naga_json.specs.derived.Expression.{atomic_function_codec, atomic_function_exchange, atomic_function_names, atomic_function_rows, cooperative_data_codec, gather_mode_codec, gather_mode_names, gather_mode_rows, image_query_codec, image_query_names, image_query_rows, image_query_size, sample_level_codec, sample_level_gradient, sample_level_names, sample_level_rows};

use crate::variants::{Variants, take_variant};
use crate::{Reader, Take, take_struct};
use naga_ir::{AtomicFunction, CooperativeData, GatherMode, ImageQuery, SampleLevel};
use std::alloc::Global;

/// Takes what an `Exchange` holds.
#[tactic(auto, using(crate::proofs::TakesPartsLemmas::takes_struct), unfolding(naga_json::specs::Fields::struct_in))]
fn take_atomic_function_exchange(alloc: Global, reader: &mut Reader<'_>) -> Option<AtomicFunction>
    ensures { IfSome result (λ found. Takes (held_in atomic_function_exchange) found reader.old reader.new) }
{
    take_struct! { alloc, reader => AtomicFunction::Exchange { compare } }
}

impl Variants for AtomicFunction {
    ghost use Rattle.naga_ir.specs.declared.expression.AtomicFunction.{AtomicFunction};

    ghost Meaning = { AtomicFunction };

    ghost value_of = { λ value. value };

    ghost names = { atomic_function_names };

    ghost rows = { atomic_function_rows };

    fn named(name: &str) -> Option<Self> {
        match name {
            "Add" => Some(AtomicFunction::Add),
            "Subtract" => Some(AtomicFunction::Subtract),
            "And" => Some(AtomicFunction::And),
            "ExclusiveOr" => Some(AtomicFunction::ExclusiveOr),
            "InclusiveOr" => Some(AtomicFunction::InclusiveOr),
            "Min" => Some(AtomicFunction::Min),
            "Max" => Some(AtomicFunction::Max),
            _ => None,
        }
    }

    fn take_held(alloc: Global, reader: &mut Reader<'_>, name: &str) -> Option<Self> {
        match name {
            "Exchange" => take_atomic_function_exchange(alloc, reader),
            _ => None,
        }
    }
}

impl Take for AtomicFunction {
    ghost use Rattle.naga_ir.specs.declared.expression.AtomicFunction.{AtomicFunction};

    ghost Meaning = { AtomicFunction };

    ghost value_of = { λ value. value };

    ghost meaning = { atomic_function_codec.decode };

    fn take(alloc: Global, reader: &mut Reader<'_>) -> Option<Self> {
        take_variant::<AtomicFunction>(alloc, reader)
    }
}

/// Takes what a `Gradient` holds.
#[tactic(auto, using(crate::proofs::TakesPartsLemmas::takes_struct), unfolding(naga_json::specs::Fields::struct_in))]
fn take_sample_level_gradient(alloc: Global, reader: &mut Reader<'_>) -> Option<SampleLevel>
    ensures { IfSome result (λ found. Takes (held_in sample_level_gradient) found reader.old reader.new) }
{
    take_struct! { alloc, reader => SampleLevel::Gradient { x, y } }
}

impl Variants for SampleLevel {
    ghost use Rattle.naga_ir.specs.declared.expression.SampleLevel.{SampleLevel};

    ghost Meaning = { SampleLevel };

    ghost value_of = { λ value. value };

    ghost names = { sample_level_names };

    ghost rows = { sample_level_rows };

    fn named(name: &str) -> Option<Self> {
        match name {
            "Auto" => Some(SampleLevel::Auto),
            "Zero" => Some(SampleLevel::Zero),
            _ => None,
        }
    }

    #[tactic(auto, using(crate::proofs::TakesMapLemmas::takes_map))]
    fn take_held(alloc: Global, reader: &mut Reader<'_>, name: &str) -> Option<Self> {
        match name {
            "Exact" => Some(SampleLevel::Exact(Take::take(alloc, reader)?)),
            "Bias" => Some(SampleLevel::Bias(Take::take(alloc, reader)?)),
            "Gradient" => take_sample_level_gradient(alloc, reader),
            _ => None,
        }
    }
}

impl Take for SampleLevel {
    ghost use Rattle.naga_ir.specs.declared.expression.SampleLevel.{SampleLevel};

    ghost Meaning = { SampleLevel };

    ghost value_of = { λ value. value };

    ghost meaning = { sample_level_codec.decode };

    fn take(alloc: Global, reader: &mut Reader<'_>) -> Option<Self> {
        take_variant::<SampleLevel>(alloc, reader)
    }
}

/// Takes what a `Size` holds.
#[tactic(auto, using(crate::proofs::TakesPartsLemmas::takes_struct), unfolding(naga_json::specs::Fields::struct_in))]
fn take_image_query_size(alloc: Global, reader: &mut Reader<'_>) -> Option<ImageQuery>
    ensures { IfSome result (λ found. Takes (held_in image_query_size) found reader.old reader.new) }
{
    take_struct! { alloc, reader => ImageQuery::Size { level } }
}

impl Variants for ImageQuery {
    ghost use Rattle.naga_ir.specs.declared.expression.ImageQuery.{ImageQuery};

    ghost Meaning = { ImageQuery };

    ghost value_of = { λ value. value };

    ghost names = { image_query_names };

    ghost rows = { image_query_rows };

    fn named(name: &str) -> Option<Self> {
        match name {
            "NumLevels" => Some(ImageQuery::NumLevels),
            "NumLayers" => Some(ImageQuery::NumLayers),
            "NumSamples" => Some(ImageQuery::NumSamples),
            _ => None,
        }
    }

    fn take_held(alloc: Global, reader: &mut Reader<'_>, name: &str) -> Option<Self> {
        match name {
            "Size" => take_image_query_size(alloc, reader),
            _ => None,
        }
    }
}

impl Take for ImageQuery {
    ghost use Rattle.naga_ir.specs.declared.expression.ImageQuery.{ImageQuery};

    ghost Meaning = { ImageQuery };

    ghost value_of = { λ value. value };

    ghost meaning = { image_query_codec.decode };

    fn take(alloc: Global, reader: &mut Reader<'_>) -> Option<Self> {
        take_variant::<ImageQuery>(alloc, reader)
    }
}

impl Variants for GatherMode {
    ghost use Rattle.naga_ir.specs.declared.expression.GatherMode.{GatherMode};

    ghost Meaning = { GatherMode };

    ghost value_of = { λ value. value };

    ghost names = { gather_mode_names };

    ghost rows = { gather_mode_rows };

    fn named(name: &str) -> Option<Self> {
        match name {
            "BroadcastFirst" => Some(GatherMode::BroadcastFirst),
            _ => None,
        }
    }

    #[tactic(auto, using(crate::proofs::TakesMapLemmas::takes_map))]
    fn take_held(alloc: Global, reader: &mut Reader<'_>, name: &str) -> Option<Self> {
        match name {
            "Broadcast" => Some(GatherMode::Broadcast(Take::take(alloc, reader)?)),
            "Shuffle" => Some(GatherMode::Shuffle(Take::take(alloc, reader)?)),
            "ShuffleDown" => Some(GatherMode::ShuffleDown(Take::take(alloc, reader)?)),
            "ShuffleUp" => Some(GatherMode::ShuffleUp(Take::take(alloc, reader)?)),
            "ShuffleXor" => Some(GatherMode::ShuffleXor(Take::take(alloc, reader)?)),
            "QuadBroadcast" => Some(GatherMode::QuadBroadcast(Take::take(alloc, reader)?)),
            "QuadSwap" => Some(GatherMode::QuadSwap(Take::take(alloc, reader)?)),
            _ => None,
        }
    }
}

impl Take for GatherMode {
    ghost use Rattle.naga_ir.specs.declared.expression.GatherMode.{GatherMode};

    ghost Meaning = { GatherMode };

    ghost value_of = { λ value. value };

    ghost meaning = { gather_mode_codec.decode };

    fn take(alloc: Global, reader: &mut Reader<'_>) -> Option<Self> {
        take_variant::<GatherMode>(alloc, reader)
    }
}

impl Take for CooperativeData {
    ghost use Rattle.naga_ir.specs.declared.expression.CooperativeData.{CooperativeData};

    ghost Meaning = { CooperativeData };

    ghost value_of = { λ value. value };

    ghost meaning = { cooperative_data_codec.decode };

    #[tactic(auto, using(crate::proofs::TakesPartsLemmas::takes_struct), unfolding(naga_json::specs::Fields::struct_in))]
    fn take(alloc: Global, reader: &mut Reader<'_>) -> Option<Self> {
        take_struct! { alloc, reader => CooperativeData { pointer, stride, row_major } }
    }
}
