//! Functions.
ghost use Rattle.naga_json.specs.Function.{function_form, function_value};
ghost use Rattle.naga_json_write.specs.Encoding.{by_form};

use super::objects::{try_write_field, write_field};
use crate::to_json::TryToJson;
use crate::write_error::TryWriteError;
use crate::writer::Writer;
use naga_ir::Function;
use std::alloc::AllocError;

impl TryToJson for Function {
    ghost writing = { by_form function_value function_form.Writes };

    fn try_write(&self, out: &mut Writer) -> Result<(), TryWriteError> {
        out.begin_object()?;
        write_field(out, "name", &self.name)?;
        write_field(out, "arguments", &self.arguments)?;
        write_field(out, "result", &self.result)?;
        write_field(out, "local_variables", &self.local_variables)?;
        try_write_field(out, "expressions", &self.expressions)?;
        write_field(out, "named_expressions", &self.named_expressions)?;
        write_field(out, "body", &self.body)?;
        write_field(out, "diagnostic_filter_leaf", &self.diagnostic_filter_leaf)?;
        Ok(out.end_object()?)
    }
}
