//! Literals.
ghost use Rattle.std.specs.Float.{binary32, binary64};
ghost use Rattle.naga_json.specs.Form.{IsFloat};
ghost use Rattle.naga_json.specs.derived.Literal.{literal_form};
ghost use Rattle.naga_json_write.specs.Encoding.{by_form};

use super::objects::{try_write_holder, write_holder};
use crate::to_json::TryToJson;
use crate::write_error::TryWriteError;
use crate::writer::Writer;
use naga_ir::Literal;

/// A float of 64 bits.
#[derive(Clone, Copy)]
struct Double(u64);

impl TryToJson for Double {
    ghost writing = { by_form (λ float. float.0) (IsFloat binary64) };

    fn try_write(&self, out: &mut Writer) -> Result<(), TryWriteError> {
        let number = std::num::f64_from_bits_with_nan(self.0);
        if number.is_finite() {
            out.float(number)?;
            Ok(())
        } else {
            Err(TryWriteError::NotFinite)
        }
    }
}

/// A float of 32 bits.
#[derive(Clone, Copy)]
struct Single(u32);

impl TryToJson for Single {
    ghost writing = { by_form (λ float. float.0) (IsFloat binary32) };

    fn try_write(&self, out: &mut Writer) -> Result<(), TryWriteError> {
        let number = std::num::f32_from_bits_with_nan(self.0);
        if number.is_finite() {
            out.float(number)?;
            Ok(())
        } else {
            Err(TryWriteError::NotFinite)
        }
    }
}

impl TryToJson for Literal {
    ghost writing = { by_form (λ literal. literal) literal_form.Writes };

    fn try_write(&self, out: &mut Writer) -> Result<(), TryWriteError> {
        match self {
            Literal::F64(bits) => try_write_holder(out, "F64", &Double(*bits)),
            Literal::F32(bits) => try_write_holder(out, "F32", &Single(*bits)),
            Literal::F16(bits) => Ok(write_holder(out, "F16", bits)?),
            Literal::U16(n) => Ok(write_holder(out, "U16", n)?),
            Literal::I16(n) => Ok(write_holder(out, "I16", n)?),
            Literal::U32(n) => Ok(write_holder(out, "U32", n)?),
            Literal::I32(n) => Ok(write_holder(out, "I32", n)?),
            Literal::U64(n) => Ok(write_holder(out, "U64", n)?),
            Literal::I64(n) => Ok(write_holder(out, "I64", n)?),
            Literal::Bool(b) => Ok(write_holder(out, "Bool", b)?),
            Literal::AbstractInt(n) => Ok(write_holder(out, "AbstractInt", n)?),
            Literal::AbstractFloat(bits) => try_write_holder(out, "AbstractFloat", &Double(*bits)),
        }
    }
}
