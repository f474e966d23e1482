//! Lists and arenas that are taken value by value.
ghost use Rattle.std.specs.Prelude.{◌≡◌, IfSome, map};
ghost use Rattle.naga_json.specs.Arenas.{arena_in, arena_value};
ghost use Rattle.naga_json.specs.Lists.{each_in};
ghost use Rattle.naga_json_tokens.specs.Takes.{Takes, TakesField};

use super::trees::take_as_tree;
use crate::read::FromJson;
use naga_arena::{Arena, KindName, Span};
use naga_ir::{Constant, Expression, FunctionArgument, GlobalVariable, LocalVariable, Override};
use naga_json_expressions::take_expression;
use naga_json_tokens::tokens::{take_begin_list, take_key};
use naga_json_tokens::{Reader, Take};
use naga_kinds::DiagnosticFilterNode;
use std::alloc::Global;

/// A type whose values are taken from tokens.
pub(crate) trait TakeJson: FromJson {
    /// Takes a value.
    fn take(alloc: Global, reader: &mut Reader<'_>) -> Option<Self>
        ensures { IfSome result
            (λ found. Takes Self.meaning (Self.value_of found) reader.old reader.new) };
}

impl TakeJson for Expression {
    fn take(alloc: Global, reader: &mut Reader<'_>) -> Option<Self> {
        take_expression(alloc, reader)
    }
}

impl TakeJson for LocalVariable {
    fn take(alloc: Global, reader: &mut Reader<'_>) -> Option<Self> {
        Take::take(alloc, reader)
    }
}

impl TakeJson for FunctionArgument {
    fn take(alloc: Global, reader: &mut Reader<'_>) -> Option<Self> {
        take_as_tree::<FunctionArgument>(alloc, reader)
    }
}

impl TakeJson for Constant {
    fn take(alloc: Global, reader: &mut Reader<'_>) -> Option<Self> {
        take_as_tree::<Constant>(alloc, reader)
    }
}

impl TakeJson for Override {
    fn take(alloc: Global, reader: &mut Reader<'_>) -> Option<Self> {
        take_as_tree::<Override>(alloc, reader)
    }
}

impl TakeJson for GlobalVariable {
    fn take(alloc: Global, reader: &mut Reader<'_>) -> Option<Self> {
        take_as_tree::<GlobalVariable>(alloc, reader)
    }
}

impl TakeJson for DiagnosticFilterNode {
    fn take(alloc: Global, reader: &mut Reader<'_>) -> Option<Self> {
        take_as_tree::<DiagnosticFilterNode>(alloc, reader)
    }
}

/// Takes the list in a field.
pub(crate) fn take_list_field<T: TakeJson>(
    alloc: Global,
    reader: &mut Reader<'_>,
    name: &str,
) -> Option<Vec<T>>
    ensures { IfSome result (λ found. TakesField name.now (each_in T.meaning)
        (map T.value_of found.items) reader.old reader.new) }
{
    take_key(reader, name)?;
    take_begin_list(reader)?;
    let mut found = Vec::new(alloc);
    'items: while !reader.take_end_array() {
        let item = T::take(alloc, reader)?;
        let Ok(()) = found.push(item) else {
            return None;
        };
    }
    Some(found)
}

/// Takes the arena in a field, with undefined spans.
pub(crate) fn take_arena_field<T: TakeJson + KindName>(
    alloc: Global,
    reader: &mut Reader<'_>,
    name: &str,
) -> Option<Arena<T>>
    ensures { IfSome result (λ found. TakesField name.now (arena_in T.meaning)
        (arena_value T.value_of found) reader.old reader.new) }
{
    take_key(reader, name)?;
    take_begin_list(reader)?;
    let mut arena = Arena::new(alloc);
    'items: while !reader.take_end_array() {
        let item = T::take(alloc, reader)?;
        let Ok(_) = arena.append(item, Span::UNDEFINED) else {
            return None;
        };
    }
    Some(arena)
}
