// Made by tests/derive from the declarations of naga_kinds and naga_ir.
//! What naga_ir declares in literal.rt.
ghost use Rattle.naga_json.specs.derived.Literal.{literal_form};

use crate::in_range::InRange;
use naga_ir::Literal;

impl InRange for Literal {
    ghost Fits = { literal_form.Fits };

    fn in_range(&self) {
        match self {
            Literal::F64(held) => held.in_range(),
            Literal::F32(held) => held.in_range(),
            Literal::F16(held) => held.in_range(),
            Literal::U16(held) => held.in_range(),
            Literal::I16(held) => held.in_range(),
            Literal::U32(held) => held.in_range(),
            Literal::I32(held) => held.in_range(),
            Literal::U64(held) => held.in_range(),
            Literal::I64(held) => held.in_range(),
            Literal::Bool(_) => {}
            Literal::AbstractInt(held) => held.in_range(),
            Literal::AbstractFloat(held) => held.in_range(),
        }
    }
}
