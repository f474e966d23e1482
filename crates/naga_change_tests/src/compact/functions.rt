//! Compacting a function that has named expressions, local variables and a body.
use super::{is_shown, nth};
use naga_arena::Span;
use naga_compact::{
    Rename, Renumbering, compact_body, compact_function, operands_precede, rename_block,
};
use naga_fixtures::module_of;
use naga_ir::{Block, Expression, Function, Statement};
use naga_sets::HandleSet;
use std::alloc::Global;

/// A module with an entry point, whose function has arguments and a negation of the last one, of which the first and
/// the third are not needed.
const MODULE: &str = r#"{"types":[{"name":null,"inner":{"Scalar":{"kind":"Uint","width":4}}}],
"special_types":{"predeclared_types":{}},"constants":[],"overrides":[],"global_variables":[],"global_expressions":[],
"functions":[],"entry_points":[{"name":"","stage":"Compute","early_depth_test":null,"workgroup_size":[1,1,1],
"workgroup_size_overrides":null,"function":{"name":null,"arguments":[],"result":null,
"local_variables":[{"name":null,"ty":0,"init":4},{"name":null,"ty":0,"init":null}],
"expressions":[{"FunctionArgument":7},{"FunctionArgument":0},{"FunctionArgument":8},{"FunctionArgument":1},
{"Unary":{"op":"Negate","expr":3}}],"named_expressions":{"3":"b","1":"a"},
"body":[{"Emit":{"start":2,"end":5}},{"Return":{"value":4}}],"diagnostic_filter_leaf":null},
"mesh_info":null,"task_payload":null,"incoming_ray_payload":null}],
"diagnostic_filters":[],"diagnostic_filter_leaf":null,"doc_comments":null}"#;

/// The function as it is formatted: before it is compacted, after, and once only its body is compacted.
const TEXTS: [&str; 3] = [
    "Function { name: None, arguments: [], result: None, \
     local_variables: {[0]: LocalVariable { name: None, ty: [0], init: Some([4]) }, \
     [1]: LocalVariable { name: None, ty: [0], init: None }}, \
     expressions: {[0]: FunctionArgument(7), [1]: FunctionArgument(0), [2]: FunctionArgument(8), \
     [3]: FunctionArgument(1), [4]: Unary { op: Negate, expr: [3] }}, \
     named_expressions: {[3]: \"b\", [1]: \"a\"}, \
     body: Block { entries: [(Emit([2..5]), Span { start: 0, end: 0 }), \
     (Return { value: Some([4]) }, Span { start: 0, end: 0 })] }, diagnostic_filter_leaf: None }",
    "Function { name: None, arguments: [], result: None, \
     local_variables: {[0]: LocalVariable { name: None, ty: [0], init: Some([2]) }, \
     [1]: LocalVariable { name: None, ty: [0], init: None }}, \
     expressions: {[0]: FunctionArgument(0), [1]: FunctionArgument(1), [2]: Unary { op: Negate, expr: [1] }}, \
     named_expressions: {[1]: \"b\", [0]: \"a\"}, \
     body: Block { entries: [(Emit([1..3]), Span { start: 0, end: 0 }), \
     (Return { value: Some([2]) }, Span { start: 0, end: 0 })] }, diagnostic_filter_leaf: None }",
    "Function { name: None, arguments: [], result: None, \
     local_variables: {[0]: LocalVariable { name: None, ty: [0], init: Some([4]) }, \
     [1]: LocalVariable { name: None, ty: [0], init: None }}, \
     expressions: {[0]: FunctionArgument(1), [1]: Unary { op: Negate, expr: [0] }}, \
     named_expressions: {[3]: \"b\", [1]: \"a\"}, \
     body: Block { entries: [(Emit([0..2]), Span { start: 0, end: 0 }), \
     (Return { value: Some([1]) }, Span { start: 0, end: 0 })] }, diagnostic_filter_leaf: None }",
];

/// Returns the texts above. They are returned by a function so that no other proof has to handle all of them.
fn texts() -> &'static [&'static str; 3] {
    &TEXTS
}

/// Returns whether the handles of an expression and of a block are renamed.
fn renames(alloc: Global, renumbering: &Renumbering<Expression>) -> bool {
    let mut block = Block::new(alloc);
    let value = Some(nth::<Expression>(3));
    if block
        .push(Statement::Return { value }, Span::UNDEFINED)
        .is_err()
    {
        return true;
    }
    rename_block(&mut block, renumbering);
    let mut load = Expression::Load {
        pointer: nth::<Expression>(4),
    };
    load.rename(renumbering);
    matches!(&load, Expression::Load { pointer } if *pointer == nth::<Expression>(2))
        && matches!(block.last(), Some(Statement::Return { value: Some(value) }) if *value == nth::<Expression>(1))
}

/// Returns whether the new handles are those of the three expressions that are kept.
fn are_new(renumbering: &Renumbering<Expression>) -> bool {
    let (argument, negation) = (nth::<Expression>(3), nth::<Expression>(4));
    renumbering.keeps(argument)
        && !renumbering.keeps(nth::<Expression>(2))
        && renumbering.handle(argument) == nth::<Expression>(1)
        && renumbering.handle(negation) == nth::<Expression>(2)
}

/// Compacts a function, and returns whether it is then formatted as it should be. If an allocation fails while the
/// function is compacted, it must be unchanged. Returns `None` if one fails.
fn compacts(alloc: Global, function: &mut Function) -> Option<bool> {
    if !operands_precede(&function.expressions) {
        return Some(false);
    }
    let [before, after, _] = texts();
    match compact_function(alloc, function) {
        Ok(renumbering) if are_new(&renumbering) && renames(alloc, &renumbering) => {
            is_shown(alloc, function, after)
        }
        Ok(_) => Some(false),
        Err(_) => is_unchanged(alloc, function, before),
    }
}

/// Returns `Some(false)` if a function is not formatted as `before`, and otherwise `None`.
fn is_unchanged(alloc: Global, function: &Function, before: &str) -> Option<bool> {
    match is_shown(alloc, function, before) {
        Some(false) => Some(false),
        _ => None,
    }
}

/// Compacts the body of a function, and returns whether the function is then formatted as it should be. If an
/// allocation fails while the body is compacted, the function must be unchanged. Returns `None` if one fails.
fn compacts_body(alloc: Global, function: &mut Function) -> Option<bool> {
    if !operands_precede(&function.expressions) {
        return Some(false);
    }
    let [before, _, after] = texts();
    let Ok(needed) = HandleSet::<Expression>::for_arena(alloc, &function.expressions) else {
        return None;
    };
    match compact_body(alloc, &mut function.expressions, &mut function.body, needed) {
        Ok(_) => is_shown(alloc, function, after),
        Err(_) => is_unchanged(alloc, function, before),
    }
}

/// Compacts the function or only its body.
fn is_compacted(alloc: Global, is_whole: bool) -> Option<bool> {
    let mut module = module_of(alloc, MODULE)?;
    let function = &mut module.entry_points.last_mut()?.function;
    if is_whole {
        compacts(alloc, function)
    } else {
        compacts_body(alloc, function)
    }
}

#[test]
fn what_is_not_needed_is_removed(rt: HostRuntime) {
    assert!(rt; is_compacted(rt.alloc(), true) == Some(true));
    assert!(rt; is_compacted(rt.alloc(), false) == Some(true));
}

/// Tests in which allocations may fail.
mod refusals {
    use super::*;

    #[test]
    fn a_refused_compaction_leaves_the_function(rt: HostRuntime) {
        assert!(rt; is_compacted(rt.alloc(), true) != Some(false));
        assert!(rt; is_compacted(rt.alloc(), false) != Some(false));
    }
}
