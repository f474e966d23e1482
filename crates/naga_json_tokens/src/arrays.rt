//! Arrays.
ghost use Rattle.naga_json.specs.Lists.{array_codec};
ghost use Rattle.naga_json.specs.derived.Kinds.{swizzle_component_codec};

use crate::reader::Reader;
use crate::tokens::{take_begin_list, take_end_list};
use crate::values::Take;
use naga_kinds::SwizzleComponent;
use std::alloc::Global;

/// The pattern of a swizzle.
impl Take for [SwizzleComponent; 4] {
    ghost use Rattle.std.specs.Prelude.{List};
    ghost use Rattle.naga_kinds.specs.declared.operator.SwizzleComponent.{SwizzleComponent};

    ghost Meaning = { List SwizzleComponent };

    ghost value_of = { λ value. value };

    ghost meaning = { (array_codec 4 swizzle_component_codec).decode };

    #[tactic(auto, using(crate::proofs::TakesListsLemmas::takes_four_items))]
    fn take(alloc: Global, reader: &mut Reader<'_>) -> Option<Self> {
        take_begin_list(reader)?;
        let first = SwizzleComponent::take(alloc, reader)?;
        let second = SwizzleComponent::take(alloc, reader)?;
        let third = SwizzleComponent::take(alloc, reader)?;
        let fourth = SwizzleComponent::take(alloc, reader)?;
        take_end_list(reader)?;
        Some([first, second, third, fourth])
    }
}
