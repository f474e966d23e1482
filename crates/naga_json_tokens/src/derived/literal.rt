// Made by tests/derive from the declarations of naga_kinds and naga_ir.
//! What naga_ir declares in literal.rt.
ghost use Rattle.std.specs.Prelude.{[]};
ghost use Rattle.naga_json.specs.derived.Literal.{literal_form, literal_rows};

use crate::floats::{take_double, take_single};
use crate::variants::{Variants, take_holder};
use crate::{Reader, Take};
use naga_ir::Literal;
use std::alloc::Global;

impl Variants for Literal {
    ghost use Rattle.naga_ir.specs.declared.literal.Literal.{Literal};

    ghost Meaning = { Literal };

    ghost value_of = { λ value. value };

    ghost names = { [] };

    ghost rows = { literal_rows };

    fn named(_name: &str) -> Option<Self> {
        None
    }

    #[tactic(auto, using(crate::proofs::TakesMapLemmas::takes_map))]
    fn take_held(alloc: Global, reader: &mut Reader<'_>, name: &str) -> Option<Self> {
        match name {
            "F64" => Some(Literal::F64(take_double(reader)?)),
            "F32" => Some(Literal::F32(take_single(reader)?)),
            "F16" => Some(Literal::F16(Take::take(alloc, reader)?)),
            "U16" => Some(Literal::U16(Take::take(alloc, reader)?)),
            "I16" => Some(Literal::I16(Take::take(alloc, reader)?)),
            "U32" => Some(Literal::U32(Take::take(alloc, reader)?)),
            "I32" => Some(Literal::I32(Take::take(alloc, reader)?)),
            "U64" => Some(Literal::U64(Take::take(alloc, reader)?)),
            "I64" => Some(Literal::I64(Take::take(alloc, reader)?)),
            "Bool" => Some(Literal::Bool(Take::take(alloc, reader)?)),
            "AbstractInt" => Some(Literal::AbstractInt(Take::take(alloc, reader)?)),
            "AbstractFloat" => Some(Literal::AbstractFloat(take_double(reader)?)),
            _ => None,
        }
    }
}

impl Take for Literal {
    ghost use Rattle.naga_ir.specs.declared.literal.Literal.{Literal};

    ghost Meaning = { Literal };

    ghost value_of = { λ value. value };

    ghost meaning = { literal_form.decode };

    fn take(alloc: Global, reader: &mut Reader<'_>) -> Option<Self> {
        take_holder::<Literal>(alloc, reader)
    }
}
