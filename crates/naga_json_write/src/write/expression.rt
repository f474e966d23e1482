//! Expressions.
ghost use Rattle.naga_json.specs.derived.Expression.{expression_form};
ghost use Rattle.naga_json.specs.Expression.{value_of};
ghost use Rattle.naga_json.specs.derived.Kinds.{swizzle_component_codec};
ghost use Rattle.naga_json.specs.Lists.{list_json};
ghost use Rattle.naga_json_write.specs.Encoding.{by_form, direct};

use super::lists::write_list;
use super::objects::try_write_holder;
use crate::derived::expression::write_plain_expression;
use crate::to_json::{ToJson, TryToJson};
use crate::write_error::TryWriteError;
use crate::writer::Writer;
use naga_ir::Expression;
use naga_kinds::SwizzleComponent;
use std::alloc::AllocError;

impl TryToJson for Expression {
    ghost writing = { by_form value_of expression_form.Writes };

    fn try_write(&self, out: &mut Writer) -> Result<(), TryWriteError> {
        match self {
            Expression::Literal(literal) => try_write_holder(out, "Literal", literal),
            _ => Ok(write_plain_expression(out, self)?),
        }
    }
}

impl ToJson for [SwizzleComponent; 4] {
    ghost encoding = { direct (list_json swizzle_component_codec.encode) };

    fn write(&self, out: &mut Writer) -> Result<(), AllocError> {
        write_list(out, self)
    }
}
