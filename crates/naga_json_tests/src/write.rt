//! Tests of the writer: each of its calls, and values without a JSON.
mod refusals;
mod writer;

use crate::doubling::DOUBLING;
use crate::read::{is_shown, read_text, types_of_text};
use naga_arena::{Arena, KindHandle, Span};
use naga_ir::{Block, DocComments, EntryPoint, Expression, Function, Literal, Module, Statement};
use naga_json_read::{read_module, take_module};
use naga_json_write::{ToJson, TryToJson, TryWriteError, WriteError, Writer, write_module};
use naga_kinds::{DiagnosticFilterNode, PredeclaredType, Scalar, ShaderStage};
use std::alloc::{AllocError, Global};

/// A module without declarations up to its diagnostic filters.
const BEFORE_FILTERS: &str =
    r#"{"types":[],"special_types":{"ray_desc":null,"ray_intersection":null,"ray_vertex_return":null,"external_texture_params":null,"external_texture_transfer_function":null,"predeclared_types":{}},"constants":[],"overrides":[],"global_variables":[],"global_expressions":[],"functions":[],"entry_points":[],"diagnostic_filters":"#;

/// Doc comments on elements that are in no arena.
const COMMENTS: &str =
    r#"{"types":{"4294967294":["t"]},"struct_members":{},"entry_points":{"18446744073709551615":["e"],"10":[]},"functions":{},"constants":{},"global_variables":{},"module":[]}"#;

/// The debug text of these doc comments.
const COMMENTS_SHOWN: &str =
    r#"DocComments { types: {[4294967294]: ["t"]}, struct_members: {}, entry_points: {18446744073709551615: ["e"], 10: []}, functions: {}, constants: {}, global_variables: {}, module: [] }"#;

/// A list of types, one of which refers to a type that is not in the list.
const TYPES: &str =
    r#"[{"name":null,"inner":{"Array":{"base":0,"size":{"Constant":7},"stride":4}}},{"name":null,"inner":{"Array":{"base":0,"size":{"Pending":0},"stride":4}}},{"name":null,"inner":{"Array":{"base":0,"size":"Dynamic","stride":4}}},{"name":"Struct","inner":{"Struct":{"members":[{"name":"a","ty":0,"binding":null,"offset":0},{"name":null,"ty":11,"binding":{"BuiltIn":{"Position":{"invariant":true}}},"offset":16},{"name":"c","ty":1,"binding":{"BuiltIn":"VertexIndex"},"offset":32},{"name":"d","ty":1,"binding":{"Location":{"location":3,"interpolation":"Flat","sampling":"First","blend_src":1,"per_primitive":true}},"offset":36},{"name":"e","ty":0,"binding":{"Location":{"location":4,"interpolation":null,"sampling":null,"blend_src":null,"per_primitive":false}},"offset":40}],"span":48}}}]"#;

/// The debug text of these types.
const TYPES_SHOWN: &str =
    r#"{[0]: Type { name: None, inner: Array { base: [0], size: Constant(7), stride: 4 } }, [1]: Type { name: None, inner: Array { base: [0], size: Pending([0]), stride: 4 } }, [2]: Type { name: None, inner: Array { base: [0], size: Dynamic, stride: 4 } }, [3]: Type { name: Some("Struct"), inner: Struct { members: [StructMember { name: Some("a"), ty: [0], binding: None, offset: 0 }, StructMember { name: None, ty: [11], binding: Some(BuiltIn(Position { invariant: true })), offset: 16 }, StructMember { name: Some("c"), ty: [1], binding: Some(BuiltIn(VertexIndex)), offset: 32 }, StructMember { name: Some("d"), ty: [1], binding: Some(Location { location: 3, interpolation: Some(Flat), sampling: Some(First), blend_src: Some(1), per_primitive: true }), offset: 36 }, StructMember { name: Some("e"), ty: [0], binding: Some(Location { location: 4, interpolation: None, sampling: None, blend_src: None, per_primitive: false }), offset: 40 }], span: 48 } }}"#;

/// A node of diagnostic filters with the greatest handle.
const NODE: &str =
    r#"{"inner":{"new_severity":"Error","triggering_rule":{"Standard":"DerivativeUniformity"}},"parent":4294967294}"#;

/// The debug text of this node.
const NODE_SHOWN: &str =
    "DiagnosticFilterNode { inner: DiagnosticFilter { new_severity: Error, triggering_rule: Standard(DerivativeUniformity) }, parent: Some([4294967294]) }";

/// Literals that are a NaN or an infinity.
const NOT_FINITE: &[Literal] = &[
    Literal::F64(9221120237041090560),
    Literal::F64(9218868437227405312),
    Literal::F64(18442240474082181120),
    Literal::AbstractFloat(9221120237041090560),
    Literal::AbstractFloat(18442240474082181120),
    Literal::F32(2143289344),
    Literal::F32(2139095040),
    Literal::F32(4286578688),
];

/// Returns whether the JSON of a value is `want`.
fn is_json<T: ToJson>(alloc: Global, value: &T, want: &str) -> bool {
    let mut out = Writer::new(Vec::new(alloc));
    match value.write(&mut out) {
        Ok(()) => out.into_inner().as_slice() == want.as_bytes(),
        Err(_) => false,
    }
}

/// Returns whether an expression has a JSON, which is `want`.
fn has_json(alloc: Global, value: &Expression, want: &str) -> bool {
    let mut out = Writer::new(Vec::new(alloc));
    match value.try_write(&mut out) {
        Ok(()) => out.into_inner().as_slice() == want.as_bytes(),
        Err(_) => false,
    }
}

/// Returns whether a literal has no JSON because it is not finite.
fn has_no_json(alloc: Global, value: &Literal) -> bool {
    let mut out = Writer::new(Vec::new(alloc));
    match value.try_write(&mut out) {
        Ok(()) => false,
        Err(error) => error == TryWriteError::NotFinite,
    }
}

/// Returns the first literal that is not refused because it is not finite.
fn first_with_json(alloc: Global, literals: &[Literal]) -> Option<Literal> {
    for literal in literals {
        if !has_no_json(alloc, literal) {
            return Some(*literal);
        }
    }
    None
}

/// Returns whether a module is read from a text and written after `front` as the same text.
fn is_written_after(alloc: Global, front: &str, text: &str) -> Result<bool, AllocError> {
    let mut out = String::from_str(alloc, front)?;
    let Ok(module) = read_module(alloc, text) else {
        return Ok(false);
    };
    let mut want = String::from_str(alloc, front)?;
    want.push_str(text)?;
    Ok(write_module(&mut out, &module).is_ok() && out.as_str() == want.as_str())
}

/// Returns the text of a module that has these diagnostic filters and doc comments.
fn text_with(alloc: Global, filters: &str, comments: &str) -> Result<String, AllocError> {
    format!(in alloc;
        "{BEFORE_FILTERS}{filters},\"diagnostic_filter_leaf\":null,\"doc_comments\":{comments}}}"
    )
}

/// Returns whether a module with these doc comments has this text, and is taken from it.
fn is_module_with(alloc: Global, comments: DocComments, text: &str) -> bool {
    let mut module = Module::new(alloc);
    module.doc_comments = Box::new(alloc, comments).ok();
    let mut out = String::new(alloc);
    write_module(&mut out, &module).is_ok()
        && out.as_str() == text
        && take_module(alloc, text).is_some()
}

/// Returns whether doc comments on elements that are in no arena are read, and written as they were read.
fn are_comments_kept(alloc: Global) -> bool {
    let Ok(text) = text_with(alloc, "[]", COMMENTS) else {
        return false;
    };
    match read_text::<DocComments>(alloc, COMMENTS) {
        Some(Ok(comments)) => {
            let shown = is_shown(alloc, &comments, COMMENTS_SHOWN);
            is_module_with(alloc, comments, text.as_str()) && shown
        }
        _ => false,
    }
}

/// Returns whether the list of types is read, and written as it was read.
fn are_types_kept(alloc: Global) -> bool {
    match types_of_text(alloc, TYPES) {
        Some(Ok(types)) => is_shown(alloc, &types, TYPES_SHOWN) && is_json(alloc, &types, TYPES),
        _ => false,
    }
}

/// Returns whether the node is read, and written as it was read.
fn is_node_kept(alloc: Global) -> bool {
    match read_text::<DiagnosticFilterNode>(alloc, NODE) {
        Some(Ok(node)) => is_shown(alloc, &node, NODE_SHOWN) && is_json(alloc, &node, NODE),
        _ => false,
    }
}

/// Returns whether a module with the node is taken.
fn is_node_taken(alloc: Global) -> bool {
    match format!(in alloc; "[{NODE}]") {
        Ok(list) => text_with(alloc, list.as_str(), "null").is_ok_and(|text| take_module(
            alloc,
            text.as_str(),
        ).is_some()),
        Err(_) => false,
    }
}

/// Returns whether an expression is read, and written as it was read.
fn is_expression_kept(alloc: Global) -> bool {
    let text = r#"{"Access":{"base":0,"index":1}}"#;
    match read_text::<Expression>(alloc, text) {
        Some(Ok(expression)) => has_json(alloc, &expression, text),
        _ => false,
    }
}

/// Returns whether a module is not written, for this reason, and the text is unchanged.
fn is_without_json(alloc: Global, module: &Module, reason: WriteError) -> bool {
    let Ok(mut out) = String::from_str(alloc, "front") else {
        return false;
    };
    match write_module(&mut out, module) {
        Ok(()) => false,
        Err(error) => error == reason && out.as_str() == "front",
    }
}

/// Returns whether a module with a type of the results of a built-in function is not written.
fn has_predeclared_types(alloc: Global) -> bool {
    let mut module = Module::new(alloc);
    let key = PredeclaredType::ModfResult {
        size: None,
        scalar: Scalar::F32,
    };
    let types = &mut module.special_types.predeclared_types;
    if types.insert(key, KindHandle::at(0)).is_err() {
        return false;
    }
    is_without_json(alloc, &module, WriteError::PredeclaredTypes)
}

/// Returns whether a module with a comment on a member of a structure is not written.
fn has_member_comments(alloc: Global) -> bool {
    let mut comments = DocComments::new(alloc);
    let key = (KindHandle::at(0), 1);
    if comments
        .struct_members
        .insert(key, Vec::new(alloc))
        .is_err()
    {
        return false;
    }
    let mut module = Module::new(alloc);
    module.doc_comments = Box::new(alloc, comments).ok();
    is_without_json(alloc, &module, WriteError::MemberComments)
}

/// Returns expressions, of which the only one is a NaN.
fn only_nan(alloc: Global) -> Option<Arena<Expression>> {
    let mut expressions = Arena::new(alloc);
    let nan = Expression::Literal(Literal::F32(2143289344));
    expressions.append(nan, Span::UNDEFINED).ok()?;
    Some(expressions)
}

/// Returns a function that does nothing, with an expression that is a NaN.
fn function_with_nan(alloc: Global) -> Option<Function> {
    let mut function = Function::new(alloc);
    function.expressions = only_nan(alloc)?;
    Some(function)
}

/// Returns a module of which a global expression is a NaN.
pub(crate) fn nan_in_module(alloc: Global) -> Option<Module> {
    let mut module = Module::new(alloc);
    module.global_expressions = only_nan(alloc)?;
    Some(module)
}

/// Returns a module with a function in which an expression is a NaN.
pub(crate) fn nan_in_function(alloc: Global) -> Option<Module> {
    let mut module = Module::new(alloc);
    let function = function_with_nan(alloc)?;
    module.functions.append(function, Span::UNDEFINED).ok()?;
    Some(module)
}

/// Returns a module with an entry point in which an expression is a NaN.
pub(crate) fn nan_in_entry_point(alloc: Global) -> Option<Module> {
    let entry_point = EntryPoint {
        name: String::new(alloc),
        stage: ShaderStage::Compute,
        early_depth_test: None,
        workgroup_size: [1, 1, 1],
        workgroup_size_overrides: None,
        function: function_with_nan(alloc)?,
        mesh_info: None,
        task_payload: None,
        incoming_ray_payload: None,
    };
    let mut module = Module::new(alloc);
    module.entry_points.push(entry_point).ok()?;
    Some(module)
}

/// Returns whether a module was made, and is not written because a literal is not finite.
fn is_not_finite(alloc: Global, module: Option<Module>) -> bool {
    match module {
        Some(module) => is_without_json(alloc, &module, WriteError::NotFinite),
        None => false,
    }
}

/// Returns a body of this number of blocks, each in the one before it.
fn nested_blocks(alloc: Global, count: usize) -> Option<Block> {
    let mut body = Block::new(alloc);
    for _ in 0..count {
        let mut outer = Block::new(alloc);
        outer.push(Statement::Block(body), Span::UNDEFINED).ok()?;
        body = outer;
    }
    Some(body)
}

/// Returns a module with a function of which the body has this number of nested blocks.
fn module_of_blocks(alloc: Global, count: usize) -> Option<Module> {
    let mut function = Function::new(alloc);
    function.body = nested_blocks(alloc, count)?;
    let mut module = Module::new(alloc);
    module.functions.append(function, Span::UNDEFINED).ok()?;
    Some(module)
}

/// Returns whether 61 nested blocks are written, whose JSON is nested 126 deep, and 62 are not, whose JSON is nested
/// 128 deep.
fn is_nesting_limited(alloc: Global) -> bool {
    let Some(shallow) = module_of_blocks(alloc, 61) else {
        return false;
    };
    let Some(deep) = module_of_blocks(alloc, 62) else {
        return false;
    };
    let mut out = String::new(alloc);
    write_module(&mut out, &shallow).is_ok() && is_without_json(alloc, &deep, WriteError::TooDeep)
}

#[test]
fn modules_are_written_after_what_the_text_has(rt: HostRuntime) {
    assert!(rt; is_written_after(rt.alloc(), "front", DOUBLING).is_ok_and(|written| written));
}

#[test]
fn values_are_written(rt: HostRuntime) {
    let alloc = rt.alloc();
    assert!(rt; is_expression_kept(alloc));
    assert!(rt; is_node_kept(alloc));
    assert!(rt; is_node_taken(alloc));
    assert!(rt; are_types_kept(alloc));
    assert!(rt; are_comments_kept(alloc));
}

#[test]
fn literals_that_are_not_finite_have_no_json(rt: HostRuntime) {
    let alloc = rt.alloc();
    let literal = first_with_json(alloc, NOT_FINITE);
    assert!(rt; literal.is_none(), "at fault: {literal:?}");
}

#[test]
fn some_modules_have_no_json(rt: HostRuntime) {
    let alloc = rt.alloc();
    assert!(rt; has_predeclared_types(alloc));
    assert!(rt; has_member_comments(alloc));
}

#[test]
fn modules_with_a_nan_have_no_json(rt: HostRuntime) {
    let alloc = rt.alloc();
    assert!(rt; is_not_finite(alloc, nan_in_module(alloc)));
    assert!(rt; is_not_finite(alloc, nan_in_function(alloc)));
    assert!(rt; is_not_finite(alloc, nan_in_entry_point(alloc)));
}

#[test]
fn modules_that_are_nested_too_deep_are_not_written(rt: HostRuntime) {
    assert!(rt; is_nesting_limited(rt.alloc()));
}
