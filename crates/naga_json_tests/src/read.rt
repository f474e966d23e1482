//! Tests of the reader: each of its calls, and what a table cannot show, which are handles that are in no arena, values
//! that may be null in a module, and blocks that are nested deeper than a text may be.
mod refusals;

use crate::doubling::{DOUBLING, is_doubling};
use json::{Scratch, Value};
use naga_arena::{Arena, KindHandle, Span, UniqueArena};
use naga_ir::{Block, Constant, DocComments, Expression, Function, SpecialTypes, Statement, Type};
use naga_json_read::{Cause, Coded, FromJson, read_module, read_types, take_module};
use naga_kinds::{BinaryOperator, Binding, EarlyDepthTest};
use std::alloc::Global;
use std::fmt::{Debug, Display};

/// A module whose fields are not in the order in which naga writes them.
const REORDERED: &str =
    r#"{"doc_comments":null,"diagnostic_filter_leaf":null,"diagnostic_filters":[],"entry_points":[],"functions":[],"global_expressions":[],"global_variables":[],"overrides":[],"constants":[],"special_types":{"predeclared_types":{}},"types":[]}"#;

/// A module with an expression whose fields are not in the order in which naga writes them.
const EXCHANGED: &str =
    r#"{"types":[],"special_types":{"ray_desc":null,"ray_intersection":null,"ray_vertex_return":null,"external_texture_params":null,"external_texture_transfer_function":null,"predeclared_types":{}},"constants":[],"overrides":[],"global_variables":[],"global_expressions":[{"Binary":{"left":0,"op":"Add","right":1}}],"functions":[],"entry_points":[],"diagnostic_filters":[],"diagnostic_filter_leaf":null,"doc_comments":null}"#;

/// Reads a text, or returns `None` if it is not JSON or allocation fails in the parser.
pub(crate) fn read_text<T: FromJson>(alloc: Global, text: &str) -> Option<Result<T, Cause>> {
    let mut scratch = Scratch::new(alloc);
    let value = Value::parse(alloc, text, &mut scratch).ok()?;
    Some(T::from_json(alloc, &value))
}

/// Reads the types of a module, or returns `None` if the text is not JSON or allocation fails in the parser.
pub(crate) fn types_of_text(alloc: Global, text: &str) -> Option<Result<UniqueArena<Type>, Cause>> {
    let mut scratch = Scratch::new(alloc);
    let value = Value::parse(alloc, text, &mut scratch).ok()?;
    Some(read_types(alloc, &value))
}

/// Returns whether the debug text of a value is `want`.
pub(crate) fn is_shown<T: Debug>(alloc: Global, value: &T, want: &str) -> bool {
    format!(in alloc; "{value:?}").is_ok_and(|text| text.as_str() == want)
}

/// Returns whether the message for an error is `want`.
fn is_message<T: Display>(alloc: Global, error: &T, want: &str) -> bool {
    format!(in alloc; "{error}").is_ok_and(|text| text.as_str() == want)
}

/// Returns whether a text is read as the value with this debug text.
fn is_read<T: FromJson + Debug>(alloc: Global, text: &str, shown: &str) -> bool {
    match read_text::<T>(alloc, text) {
        Some(Ok(value)) => is_shown(alloc, &value, shown),
        _ => false,
    }
}

/// Returns whether null is refused, for this cause.
fn is_null_refused<T: FromJson>(alloc: Global, cause: Cause) -> bool {
    match T::from_json(alloc, &Value::Null) {
        Ok(_) => false,
        Err(found) => found == cause,
    }
}

/// Returns whether the shader that doubles numbers is read.
fn is_doubling_read(alloc: Global) -> bool {
    match read_module(alloc, DOUBLING) {
        Ok(module) => is_doubling(&module),
        Err(_) => false,
    }
}

/// Returns whether the shader that doubles numbers is taken from tokens.
fn is_doubling_taken(alloc: Global) -> bool {
    match take_module(alloc, DOUBLING) {
        Some(module) => is_doubling(&module),
        None => false,
    }
}

/// Returns whether all elements of an arena that is read have undefined spans.
fn have_no_spans(alloc: Global) -> bool {
    match read_text::<Arena<Constant>>(alloc, r#"[{"ty":0,"init":1},{"ty":0,"init":2}]"#) {
        Some(Ok(arena)) => {
            arena.len() == 2
                && arena.get_span(KindHandle::at(0)) == Span::UNDEFINED
                && arena.get_span(KindHandle::at(1)) == Span::UNDEFINED
        }
        _ => false,
    }
}

/// Returns a block that holds this number of blocks, one in another, or `None` if allocation fails.
fn nest(alloc: Global, count: usize) -> Option<Value<'static>> {
    let mut block: Value<'static> = Value::Array(Vec::new(alloc));
    'blocks: for _ in 0..count {
        let mut members = Vec::new(alloc);
        members.push(("Block", block)).ok()?;
        let mut statements = Vec::new(alloc);
        statements.push(Value::Object(members)).ok()?;
        block = Value::Array(statements);
    }
    Some(block)
}

/// Returns whether a block consists of one block.
fn holds_a_block(block: &Block) -> bool {
    match block.get(0) {
        Some(Statement::Block(_)) => block.len() == 1,
        _ => false,
    }
}

/// Returns whether a block that holds 126 blocks is read, or allocation failed.
fn is_deepest_read(alloc: Global) -> bool {
    let Some(value) = nest(alloc, 126) else {
        return true;
    };
    match Block::from_json(alloc, &value) {
        Ok(block) => holds_a_block(&block),
        Err(cause) => cause == Cause::Memory,
    }
}

/// Returns whether a block that holds 127 blocks is refused, or allocation failed.
fn is_deeper_refused(alloc: Global) -> bool {
    let Some(value) = nest(alloc, 127) else {
        return true;
    };
    match Block::from_json(alloc, &value) {
        Ok(_) => false,
        Err(cause) => cause == Cause::Nesting || cause == Cause::Memory,
    }
}

#[test]
fn modules_are_read(rt: HostRuntime) {
    assert!(rt; is_doubling_read(rt.alloc()));
}

#[test]
fn modules_are_taken_in_their_order(rt: HostRuntime) {
    let alloc = rt.alloc();
    assert!(rt; is_doubling_taken(alloc));
    assert!(rt; take_module(alloc, REORDERED).is_none());
    assert!(rt; take_module(alloc, EXCHANGED).is_none());
}

#[test]
fn kinds_are_read_without_an_allocator(rt: HostRuntime) {
    let operator = BinaryOperator::read_value(&Value::String("Add"));
    assert!(rt; operator == Ok(BinaryOperator::Add));
    let unknown = BinaryOperator::read_value(&Value::String("Nand"));
    assert!(rt; unknown == Err(Cause::UnknownVariant));
}

#[test]
fn the_greatest_handles_are_read(rt: HostRuntime) {
    let alloc = rt.alloc();
    assert!(rt;
        is_read::<Type>(
            alloc,
            r#"{"inner":{"Struct":{"span":1,"members":[{"offset":0,"ty":4294967294}]}}}"#,
            "Type { name: None, inner: Struct { members: [StructMember { name: None, ty: [4294967294], binding: None, offset: 0 }], span: 1 } }",
        )
    );
    assert!(rt;
        is_read::<Expression>(
            alloc,
            r#"{"Load":{"pointer":4294967294}}"#,
            "Load { pointer: [4294967294] }",
        )
    );
    assert!(rt;
        is_read::<Constant>(
            alloc,
            r#"{"init":4294967294,"ty":2}"#,
            "Constant { name: None, ty: [2], init: [4294967294] }",
        )
    );
    assert!(rt;
        is_read::<SpecialTypes>(
            alloc,
            r#"{"predeclared_types":{},"ray_desc":4294967294}"#,
            "SpecialTypes { ray_desc: Some([4294967294]), ray_intersection: None, ray_vertex_return: None, external_texture_params: None, external_texture_transfer_function: None, predeclared_types: {} }",
        )
    );
}

#[test]
fn the_greatest_handles_in_statements_are_read(rt: HostRuntime) {
    let alloc = rt.alloc();
    assert!(rt;
        is_read::<Statement>(
            alloc,
            r#"{"Emit":{"start":4294967294,"end":4294967295}}"#,
            "Emit([4294967294..4294967295])",
        )
    );
    assert!(rt;
        is_read::<Statement>(
            alloc,
            r#"{"Return":{"value":4294967294}}"#,
            "Return { value: Some([4294967294]) }",
        )
    );
}

#[test]
fn functions_are_read_whose_handles_are_in_no_arena(rt: HostRuntime) {
    assert!(rt;
        is_read::<Function>(
            rt.alloc(),
            r#"{"body":["Kill"],"named_expressions":{},"expressions":[],"local_variables":[{"ty":3,"init":1}],"arguments":[]}"#,
            "Function { name: None, arguments: [], result: None, local_variables: {[0]: LocalVariable { name: None, ty: [3], init: Some([1]) }}, expressions: {}, named_expressions: {}, body: Block { entries: [(Kill, Span { start: 0, end: 0 })] }, diagnostic_filter_leaf: None }",
        )
    );
}

#[test]
fn null_is_refused_where_nothing_is_optional(rt: HostRuntime) {
    let alloc = rt.alloc();
    assert!(rt; is_null_refused::<Binding>(alloc, Cause::Variant));
    assert!(rt; is_null_refused::<EarlyDepthTest>(alloc, Cause::Variant));
    assert!(rt; is_null_refused::<DocComments>(alloc, Cause::Object));
}

#[test]
fn elements_have_no_spans(rt: HostRuntime) {
    assert!(rt; have_no_spans(rt.alloc()));
}

#[test]
fn nesting_is_limited(rt: HostRuntime) {
    assert!(rt; is_deepest_read(rt.alloc()));
    assert!(rt; is_deeper_refused(rt.alloc()));
}

#[test]
fn causes_have_messages(rt: HostRuntime) {
    let alloc = rt.alloc();
    assert!(rt; is_message(alloc, &Cause::Memory, "out of memory"));
    assert!(rt; is_message(alloc, &Cause::Float, "expected a finite number"));
    assert!(rt; is_message(alloc, &Cause::MissingField, "missing field"));
    assert!(rt; is_message(alloc, &Cause::UnknownField, "unknown or repeated field"));
}
