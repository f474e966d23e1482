//! Values that are taken as trees, which are then read.
ghost use Rattle.std.specs.Prelude.{◌≡◌, IfSome, Some, option_map};
ghost use Rattle.json.specs.Value.{value_view};
ghost use Rattle.naga_json.specs.DocComments.{comments_value, doc_comments_codec};
ghost use Rattle.naga_json.specs.Objects.{nullable_in};
ghost use Rattle.naga_json_tokens.specs.Takes.{Takes, TakesField};

use crate::read::FromJson;
use json::Value;
use naga_ir::DocComments;
use naga_json_tokens::Reader;
use naga_json_tokens::tokens::take_key;
use naga_json_values::Coded;
use std::alloc::Global;

/// Takes a value as a tree, and reads it.
pub(crate) fn take_as_tree<T: FromJson>(alloc: Global, reader: &mut Reader<'_>) -> Option<T>
    ensures { IfSome result (λ found. Takes T.meaning (T.value_of found) reader.old reader.new) }
{
    let value = reader.take_tree(alloc)?;
    match T::from_json(alloc, &value) {
        Ok(found) => Some(found),
        Err(_) => None,
    }
}

/// Takes the value in a field as a tree, and reads it.
#[tactic(auto, using(naga_json_tokens::proofs::TakesHolderLemmas::takes_field))]
pub(crate) fn take_tree_field<T: FromJson>(
    alloc: Global,
    reader: &mut Reader<'_>,
    name: &str,
) -> Option<T>
    ensures { IfSome result
        (λ found. TakesField name.now T.meaning (T.value_of found) reader.old reader.new) }
{
    take_key(reader, name)?;
    take_as_tree(alloc, reader)
}

/// Reads a value that may be null, or returns `None` if it is neither null nor what naga writes for a value.
fn read_nullable<T: Coded>(value: &Value<'_>) -> Option<Option<T>>
    ensures { IfSome result (λ found. nullable_in T.codec.decode (value_view value.now) ≡ Some found) }
{
    if value.is_null() {
        return Some(None);
    }
    match T::read_value(value) {
        Ok(found) => Some(Some(found)),
        Err(_) => None,
    }
}

/// Takes a value that may be null as a tree, and reads it.
fn take_nullable<T: Coded>(alloc: Global, reader: &mut Reader<'_>) -> Option<Option<T>>
    ensures { IfSome result (λ found. Takes (nullable_in T.codec.decode) found reader.old reader.new) }
{
    let value = reader.take_tree(alloc)?;
    read_nullable(&value)
}

/// Takes the value in a field that may be null as a tree, and reads it.
#[tactic(auto, using(naga_json_tokens::proofs::TakesHolderLemmas::takes_field))]
pub(crate) fn take_nullable_field<T: Coded>(
    alloc: Global,
    reader: &mut Reader<'_>,
    name: &str,
) -> Option<Option<T>>
    ensures { IfSome result
        (λ found. TakesField name.now (nullable_in T.codec.decode) found reader.old reader.new) }
{
    take_key(reader, name)?;
    take_nullable(alloc, reader)
}

/// Reads doc comments that may be null, into a box. Returns `None` if they are neither null nor what naga writes, or if an
/// allocation fails.
fn read_comments(alloc: Global, value: &Value<'_>) -> Option<Option<Box<DocComments>>>
    ensures { IfSome result (λ found. nullable_in doc_comments_codec.decode (value_view value.now)
        ≡ Some (option_map (λ comments. comments_value comments.value) found)) }
{
    if value.is_null() {
        return Some(None);
    }
    let Ok(comments) = DocComments::from_json(alloc, value) else {
        return None;
    };
    let Ok(boxed) = Box::new(alloc, comments) else {
        return None;
    };
    Some(Some(boxed))
}

/// Takes doc comments that may be null as a tree, and reads them into a box.
fn take_comments(alloc: Global, reader: &mut Reader<'_>) -> Option<Option<Box<DocComments>>>
    ensures { IfSome result (λ found. Takes (nullable_in doc_comments_codec.decode)
        (option_map (λ comments. comments_value comments.value) found) reader.old reader.new) }
{
    let value = reader.take_tree(alloc)?;
    read_comments(alloc, &value)
}

/// Takes the doc comments in a field that may be null as a tree, and reads them into a box.
#[tactic(auto, using(naga_json_tokens::proofs::TakesHolderLemmas::takes_field))]
pub(crate) fn take_comments_field(
    alloc: Global,
    reader: &mut Reader<'_>,
    name: &str,
) -> Option<Option<Box<DocComments>>>
    ensures { IfSome result (λ found. TakesField name.now (nullable_in doc_comments_codec.decode)
        (option_map (λ comments. comments_value comments.value) found) reader.old reader.new) }
{
    take_key(reader, name)?;
    take_comments(alloc, reader)
}
