// Made by tests/derive from the declarations of naga_kinds and naga_ir.
//! What naga_ir declares in module.rt.
ghost use Rattle.naga_json.specs.Declarations.{local_variable_value};
ghost use Rattle.naga_json.specs.derived.Module.{local_variable_codec};

use crate::{Reader, Take, take_struct};
use naga_ir::LocalVariable;
use std::alloc::Global;

impl Take for LocalVariable {
    ghost use Rattle.naga_json.specs.Declarations.{LocalVariableValue};

    ghost Meaning = { LocalVariableValue };

    ghost value_of = { local_variable_value };

    ghost meaning = { local_variable_codec.decode };

    #[tactic(auto, using(crate::proofs::TakesPartsLemmas::takes_struct), unfolding(naga_json::specs::Fields::struct_in))]
    fn take(alloc: Global, reader: &mut Reader<'_>) -> Option<Self> {
        take_struct! { alloc, reader => LocalVariable { name, ty, init } }
    }
}
