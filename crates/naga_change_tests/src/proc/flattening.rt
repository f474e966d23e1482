//! The flattened components of vectors, in small arenas.
ghost use Rattle.std.specs.Prelude.{◌<◌, IsTrue, All};

use naga_arena::{Arena, Handle, UniqueArena};
use naga_fixtures::module_of;
use naga_ir::{Expression, Module, Type, chains_precede};
use naga_proc::flatten_compose;
use naga_proc::laws::flattening::preceding_chains_can_be_flattened;
use std::alloc::Global;

/// Returns whether each of these handles is below `len`.
fn are_below(handles: &[Handle<Expression>], len: usize) -> bool
    ensures { IsTrue result → All (λ handle. handle < len) handles.now }
{
    for handle in handles {
        if handle.index() >= len {
            return false;
        }
    }
    true
}

/// Returns whether flattening a value of this type yields exactly the handles with the indices `want`.
fn flattens(
    types: &UniqueArena<Type>,
    ty: Handle<Type>,
    expressions: &Arena<Expression>,
    components: &[Handle<Expression>],
    want: &[usize],
) -> bool {
    preceding_chains_can_be_flattened();
    if !chains_precede(expressions) || !are_below(components, expressions.len()) {
        return false;
    }
    if types.check_contains_handle(ty).is_err() {
        return false;
    }
    let mut parts = flatten_compose(ty, components, expressions, types);
    for index in want {
        match parts.next() {
            Some(handle) if handle.index() == *index => {}
            _ => return false,
        }
    }
    parts.next().is_none()
}

/// Returns whether flattening the last expression of the only function yields exactly the handles with the indices
/// `want`.
fn yields(module: &Module, want: &[usize]) -> bool {
    let [function] = module.functions.as_slice() else {
        return false;
    };
    match function.expressions.as_slice().last() {
        Some(Expression::Compose { ty, components }) => {
            flattens(
                &module.types,
                *ty,
                &function.expressions,
                components.as_slice(),
                want,
            )
        }
        _ => false,
    }
}

/// A module up to the size of its vector type, and then up to the expressions of its function.
const BEFORE: [&str; 2] = [
    r#"{"types":[{"name":null,"inner":{"Scalar":{"kind":"Float","width":4}}},{"name":null,"inner":"#,
    r#"}],"special_types":{"predeclared_types":{}},"constants":[],"overrides":[],"global_variables":[],
"global_expressions":[],"functions":[{"name":null,"arguments":[],"result":null,"local_variables":[],"expressions":["#,
];

/// The module after the expressions.
const AFTER: &str =
    r#"],"named_expressions":{},"body":[],"diagnostic_filter_leaf":null}],"entry_points":[],
"diagnostic_filters":[],"diagnostic_filter_leaf":null,"doc_comments":null}"#;

/// Returns the module with this type and these expressions, or `None` if an allocation fails.
fn module(alloc: Global, ty: &str, expressions: &str) -> Option<Module> {
    let ([before, middle], after) = (BEFORE, AFTER);
    match format!(in alloc; "{before}{ty}{middle}{expressions}{after}") {
        Ok(text) => module_of(alloc, text.as_str()),
        Err(_) => None,
    }
}

const QUAD: &str = r#"{"Vector":{"size":"Quad","scalar":{"kind":"Float","width":4}}}"#;

const BI: &str = r#"{"Vector":{"size":"Bi","scalar":{"kind":"Float","width":4}}}"#;

const ARRAY: &str = r#"{"Array":{"base":0,"size":"Dynamic","stride":8}}"#;

/// Types, each with expressions, of which the last one is a `Compose` of the type, and with what flattening its
/// components yields.
const FLATTENED: &[(&str, &str, &[usize])] = &[
    // opened twice
    (
        QUAD,
        r#"{"FunctionArgument":0},{"FunctionArgument":0},{"Compose":{"ty":1,"components":[0,1]}},{"FunctionArgument":0},
{"Compose":{"ty":1,"components":[2,3]}},{"FunctionArgument":0},{"Compose":{"ty":1,"components":[4,5]}}"#,
        &[0, 1, 3, 5],
    ),
    (
        BI,
        r#"{"FunctionArgument":0},{"FunctionArgument":0},{"Compose":{"ty":1,"components":[0,1]}},
{"Compose":{"ty":1,"components":[2]}},{"Compose":{"ty":1,"components":[3]}},{"Compose":{"ty":1,"components":[4]}}"#,
        &[2],
    ),
    // as often as the size of a splat, and cut
    (
        QUAD,
        r#"{"FunctionArgument":0},{"Splat":{"size":"Tri","value":0}},{"FunctionArgument":0},
{"Compose":{"ty":1,"components":[1,2]}}"#,
        &[0, 0, 0, 2],
    ),
    (
        BI,
        r#"{"FunctionArgument":0},{"Splat":{"size":"Quad","value":0}},{"Compose":{"ty":1,"components":[1]}}"#,
        &[0, 0],
    ),
    // as they are
    (
        ARRAY,
        r#"{"FunctionArgument":0},{"Splat":{"size":"Quad","value":0}},{"Compose":{"ty":1,"components":[1,0]}}"#,
        &[1, 0],
    ),
    (
        QUAD,
        r#"{"FunctionArgument":0},{"Splat":{"size":"Quad","value":0}},{"Compose":{"ty":1,"components":[]}}"#,
        &[],
    ),
];

/// Returns whether flattening the last of these expressions yields exactly the handles with the indices `want`.
fn gives(alloc: Global, ty: &str, expressions: &str, want: &[usize]) -> bool {
    match module(alloc, ty, expressions) {
        Some(module) => yields(&module, want),
        None => false,
    }
}

#[test]
fn components_are_opened_twice_and_cut(rt: HostRuntime) {
    for (ty, expressions, want) in FLATTENED {
        assert!(rt; gives(rt.alloc(), ty, expressions, want));
    }
}
