// Made by tests/derive from the declarations of naga_kinds and naga_ir.
//! What naga_kinds declares.
ghost use Rattle.naga_json.specs.derived.Switch.{switch_value_codec, switch_value_names, switch_value_rows};

use crate::values::Kind;
use crate::variants::{Variants, take_variant};
use crate::{Reader, Take};
use naga_kinds::{
    BinaryOperator, CollectiveOperation, ConservativeDepth, CooperativeRole, CooperativeSize,
    DerivativeAxis, DerivativeControl, Direction, ImageDimension, Interpolation, MathFunction,
    MeshOutputTopology, RelationalFunction, Sampling, ScalarKind, Severity, ShaderStage,
    StandardFilterableTriggeringRule, StorageFormat, SubgroupOperation, SwitchValue,
    SwizzleComponent, UnaryOperator, VectorSize,
};
use std::alloc::Global;

impl Variants for SwitchValue {
    ghost use Rattle.naga_kinds.specs.declared.switch.SwitchValue.{SwitchValue};

    ghost Meaning = { SwitchValue };

    ghost value_of = { λ value. value };

    ghost names = { switch_value_names };

    ghost rows = { switch_value_rows };

    fn named(name: &str) -> Option<Self> {
        match name {
            "Default" => Some(SwitchValue::Default),
            _ => None,
        }
    }

    #[tactic(auto, using(crate::proofs::TakesMapLemmas::takes_map))]
    fn take_held(alloc: Global, reader: &mut Reader<'_>, name: &str) -> Option<Self> {
        match name {
            "I32" => Some(SwitchValue::I32(Take::take(alloc, reader)?)),
            "U32" => Some(SwitchValue::U32(Take::take(alloc, reader)?)),
            _ => None,
        }
    }
}

impl Take for SwitchValue {
    ghost use Rattle.naga_kinds.specs.declared.switch.SwitchValue.{SwitchValue};

    ghost Meaning = { SwitchValue };

    ghost value_of = { λ value. value };

    ghost meaning = { switch_value_codec.decode };

    fn take(alloc: Global, reader: &mut Reader<'_>) -> Option<Self> {
        take_variant::<SwitchValue>(alloc, reader)
    }
}

impl Kind for Interpolation {}

impl Kind for Sampling {}

impl Kind for Severity {}

impl Kind for StandardFilterableTriggeringRule {}

impl Kind for ShaderStage {}

impl Kind for ConservativeDepth {}

impl Kind for MeshOutputTopology {}

impl Kind for StorageFormat {}

impl Kind for ImageDimension {}

impl Kind for MathFunction {}

impl Kind for UnaryOperator {}

impl Kind for BinaryOperator {}

impl Kind for DerivativeControl {}

impl Kind for DerivativeAxis {}

impl Kind for RelationalFunction {}

impl Kind for SwizzleComponent {}

impl Kind for VectorSize {}

impl Kind for CooperativeSize {}

impl Kind for ScalarKind {}

impl Kind for CooperativeRole {}

impl Kind for Direction {}

impl Kind for SubgroupOperation {}

impl Kind for CollectiveOperation {}
