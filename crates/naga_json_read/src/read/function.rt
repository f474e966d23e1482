//! Functions.
ghost use Rattle.json.specs.Value.{value_view};
ghost use Rattle.naga_json.specs.Function.{function_form, function_value};
ghost use Rattle.naga_json_read.specs.Parts.{content_in, content_value, function_in, signature_in, signature_value};
ghost use Rattle.naga_json_values.specs.Reads.{Reads};

use super::lists::{FromJson, optional_field, required_field};
use crate::parts::{Content, Signature};
use json::Value;
use naga_ir::Function;
use naga_json_values::Cause;
use naga_json_values::objects::fields;
use naga_json_values::parts::Field;
use std::alloc::Global;

/// The spans of its expressions, local variables and statements are undefined.
impl FromJson for Function {
    ghost use Rattle.naga_json.specs.Function.{FunctionValue};

    ghost Meaning = { FunctionValue };

    ghost value_of = { function_value };

    ghost meaning = { function_form.decode };

    fn from_json(alloc: Global, value: &Value<'_>) -> Result<Self, Cause> {
        let object = fields(
            value,
            &[
                "name",
                "arguments",
                "result",
                "local_variables",
                "expressions",
                "named_expressions",
                "body",
                "diagnostic_filter_leaf",
            ],
        )?;
        read_fields(alloc, object)
    }
}

/// Reads the fields of a function.
#[tactic(auto, unfolding(crate::specs::Parts::function_in))]
fn read_fields(alloc: Global, value: &Value<'_>) -> Result<Function, Cause>
    ensures { Reads function_value result (function_in (value_view value.now)) }
{
    let signature = read_signature(alloc, value)?;
    let Content {
        local_variables,
        expressions,
        named_expressions,
        body,
        diagnostic_filter_leaf,
    } = read_content(alloc, value)?;
    Ok(Function {
        name: signature.name,
        arguments: signature.arguments,
        result: signature.result,
        local_variables,
        expressions,
        named_expressions,
        body,
        diagnostic_filter_leaf,
    })
}

/// Reads the fields of a function that its callers need.
#[tactic(auto, unfolding(crate::specs::Parts::signature_in))]
fn read_signature(alloc: Global, value: &Value<'_>) -> Result<Signature, Cause>
    ensures { Reads signature_value result (signature_in (value_view value.now)) }
{
    let name = optional_field(alloc, value, "name")?;
    let arguments = required_field(alloc, value, "arguments")?;
    let result = Field::read_field(value, "result")?;
    Ok(Signature {
        name,
        arguments,
        result,
    })
}

/// Reads the other fields of a function.
#[tactic(auto, unfolding(crate::specs::Parts::content_in))]
fn read_content(alloc: Global, value: &Value<'_>) -> Result<Content, Cause>
    ensures { Reads content_value result (content_in (value_view value.now)) }
{
    let local_variables = required_field(alloc, value, "local_variables")?;
    let expressions = required_field(alloc, value, "expressions")?;
    let named_expressions = required_field(alloc, value, "named_expressions")?;
    let body = required_field(alloc, value, "body")?;
    let diagnostic_filter_leaf = Field::read_field(value, "diagnostic_filter_leaf")?;
    Ok(Content {
        local_variables,
        expressions,
        named_expressions,
        body,
        diagnostic_filter_leaf,
    })
}
