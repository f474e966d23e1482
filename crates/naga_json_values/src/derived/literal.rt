// Made by tests/derive from the declarations of naga_kinds and naga_ir.
//! What naga_ir declares in literal.rt.
ghost use Rattle.std.specs.Prelude.{drop, ◌≡◌};
ghost use Rattle.std.specs.Result.{result_ok};
ghost use Rattle.json.specs.Value.{value_view};
ghost use Rattle.naga_json.specs.Objects.{choose};
ghost use Rattle.naga_json.specs.derived.Literal.{literal_form, literal_rows};

use crate::numbers::{double, single};
use crate::objects::holder;
use crate::{Cause, Coded};
use json::Value;
use naga_ir::Literal;

/// Reads a `Literal` that contains data.
pub(crate) fn read_held_literal(name: &str, held: &Value<'_>) -> Result<Literal, Cause>
    ensures { result_ok result ≡ choose (literal_rows (value_view held.now)) name.now }
{
    match name {
        "F64" => Ok(Literal::F64(double(held)?)),
        "F32" => Ok(Literal::F32(single(held)?)),
        "F16" => Ok(Literal::F16(Coded::read_value(held)?)),
        "U16" => Ok(Literal::U16(Coded::read_value(held)?)),
        "I16" => Ok(Literal::I16(Coded::read_value(held)?)),
        "U32" => Ok(Literal::U32(Coded::read_value(held)?)),
        "I32" => Ok(Literal::I32(Coded::read_value(held)?)),
        "U64" => Ok(Literal::U64(Coded::read_value(held)?)),
        _ => read_held_literal_from_i64(name, held),
    }
}

/// Reads an `I64` or a later variant.
fn read_held_literal_from_i64(name: &str, held: &Value<'_>) -> Result<Literal, Cause>
    ensures { result_ok result ≡ choose (drop 8 (literal_rows (value_view held.now))) name.now }
{
    match name {
        "I64" => Ok(Literal::I64(Coded::read_value(held)?)),
        "Bool" => Ok(Literal::Bool(Coded::read_value(held)?)),
        "AbstractInt" => Ok(Literal::AbstractInt(Coded::read_value(held)?)),
        "AbstractFloat" => Ok(Literal::AbstractFloat(double(held)?)),
        _ => Err(Cause::UnknownVariant),
    }
}

/// Reads a `Literal`.
pub fn read_literal(value: &Value<'_>) -> Result<Literal, Cause>
    ensures { result_ok result ≡ literal_form.decode (value_view value.now) }
{
    let (name, held) = holder(value)?;
    read_held_literal(name, held)
}
