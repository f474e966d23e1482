//! Functions.
ghost use Rattle.std.specs.Prelude.{IfSome};
ghost use Rattle.naga_json.specs.Block.{block_codec};
ghost use Rattle.naga_json.specs.Function.{function_form, function_value};
ghost use Rattle.naga_json.specs.StatementValue.{value_of_block};
ghost use Rattle.naga_json_read.specs.Taken.{TakesContent, TakesSignature};
ghost use Rattle.naga_json_tokens.specs.Takes.{Takes, TakesField};

use super::lists::{TakeJson, take_arena_field, take_list_field};
use super::trees::{take_nullable_field, take_tree_field};
use crate::parts::{Content, Signature};
use naga_ir::{
    Block, Expression, Function, FunctionArgument, FunctionResult, LocalVariable, NamedExpressions,
};
use naga_json_bodies::take_block;
use naga_json_tokens::tokens::{take_begin, take_end, take_key};
use naga_json_tokens::{Reader, take_field};
use std::alloc::Global;

/// Takes the block in a field, with undefined spans.
#[tactic(auto, using(naga_json_tokens::proofs::TakesHolderLemmas::takes_field))]
fn take_block_field(alloc: Global, reader: &mut Reader<'_>, name: &str) -> Option<Block>
    ensures { IfSome result
        (λ found. TakesField name.now block_codec.decode (value_of_block found) reader.old reader.new) }
{
    take_key(reader, name)?;
    take_block(alloc, reader)
}

/// Takes a function. The spans of its expressions, local variables and statements are undefined.
pub(crate) fn take_function(alloc: Global, reader: &mut Reader<'_>) -> Option<Function>
    ensures { IfSome result
        (λ found. Takes function_form.decode (function_value found) reader.old reader.new) }
{
    take_begin(reader)?;
    let signature = take_signature(alloc, reader)?;
    let Content {
        local_variables,
        expressions,
        named_expressions,
        body,
        diagnostic_filter_leaf,
    } = take_content(alloc, reader)?;
    Some(Function {
        name: signature.name,
        arguments: signature.arguments,
        result: signature.result,
        local_variables,
        expressions,
        named_expressions,
        body,
        diagnostic_filter_leaf,
    })
}

/// Takes the fields of a function that its callers need.
fn take_signature(alloc: Global, reader: &mut Reader<'_>) -> Option<Signature>
    ensures { IfSome result (λ found. TakesSignature found reader.old reader.new) }
{
    let name = take_field(alloc, reader, "name")?;
    let arguments = take_list_field::<FunctionArgument>(alloc, reader, "arguments")?;
    let result = take_nullable_field::<FunctionResult>(alloc, reader, "result")?;
    Some(Signature {
        name,
        arguments,
        result,
    })
}

/// Takes the other fields of a function, and the end of it.
fn take_content(alloc: Global, reader: &mut Reader<'_>) -> Option<Content>
    ensures { IfSome result (λ found. TakesContent found reader.old reader.new) }
{
    let local_variables = take_arena_field::<LocalVariable>(alloc, reader, "local_variables")?;
    let expressions = take_arena_field::<Expression>(alloc, reader, "expressions")?;
    let named_expressions = take_tree_field::<NamedExpressions>(
        alloc,
        reader,
        "named_expressions",
    )?;
    let body = take_block_field(alloc, reader, "body")?;
    let diagnostic_filter_leaf = take_field(alloc, reader, "diagnostic_filter_leaf")?;
    take_end(reader)?;
    Some(Content {
        local_variables,
        expressions,
        named_expressions,
        body,
        diagnostic_filter_leaf,
    })
}

impl TakeJson for Function {
    fn take(alloc: Global, reader: &mut Reader<'_>) -> Option<Self> {
        take_function(alloc, reader)
    }
}
