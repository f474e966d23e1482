//! Tests of the values of constant expressions and of the lengths of arrays, and of contexts in which something is
//! missing.
use super::queries::{Query, ask};
use super::{at, put};
use naga_arena::Arena;
use naga_ir::{ArraySize, Constant, Expression, IndexableLength, Literal, Module, Override, Type};
use std::alloc::Global;

/// Three types, two constants, seven global expressions, and an override whose `init` is the number 3.
const SAMPLE: &str = r#"{"types":[{"inner":{"Scalar":{"kind":"Uint","width":4}}},
{"inner":{"Scalar":{"kind":"Float","width":3}}},
{"inner":{"Vector":{"size":"Bi","scalar":{"kind":"Uint","width":4}}}}],
"special_types":{"predeclared_types":{}},
"constants":[{"ty":0,"init":0},{"ty":0,"init":1}],
"overrides":[{"ty":0,"init":0}],
"global_variables":[],
"global_expressions":[{"Literal":{"U32":3}},{"Constant":0},{"Constant":1},
{"ZeroValue":0},{"ZeroValue":1},{"ZeroValue":2},{"Literal":{"Bool":true}}],
"functions":[],"entry_points":[],"diagnostic_filters":[]}"#;

/// Returns whether the global expression that refers to the first constant is the number 3.
fn is_three(module: &Module) -> bool {
    let (ctx, handle) = (module.to_ctx(), at::<Expression>(1));
    ctx.global_expressions.check_contains_handle(handle).is_ok()
        && ctx.is_closed_over(ctx.global_expressions)
        && ctx.get_const_val::<u32>(handle) == Ok(3)
}

/// Returns the value that the only expression of another arena has in the sample.
fn value_in(module: &Module, arena: &Arena<Expression>) -> Option<Literal> {
    let (ctx, handle) = (module.to_ctx(), at::<Expression>(0));
    if arena.check_contains_handle(handle).is_err() || !ctx.is_closed_over(arena) {
        return None;
    }
    ctx.get_const_val_from(handle, arena).ok()
}

/// Returns the value that a constant has in the sample, if another arena refers to it.
fn value_beside(alloc: Global, module: &Module, index: u8) -> Option<Literal> {
    let mut arena = Arena::new(alloc);
    if put(&mut arena, Expression::Constant(at::<Constant>(index))) {
        value_in(module, &arena)
    } else {
        None
    }
}

/// Returns whether the override of the sample, as a size, resolves to three elements.
fn is_length(module: &Module) -> bool {
    let (ctx, handle) = (module.to_ctx(), at::<Override>(0));
    ctx.overrides.check_contains_handle(handle).is_ok()
        && ctx.is_closed_over(ctx.global_expressions)
        && ArraySize::Pending(handle).resolve(ctx) == Ok(IndexableLength::Known(3))
}

/// Returns whether the first constant of the sample has its value, also if another arena refers to it, there is no third
/// constant, and the override has its length.
pub(super) fn have_values(alloc: Global, module: &Module) -> bool {
    is_three(module)
        && value_beside(alloc, module, 0) == Some(Literal::U32(3))
        && value_beside(alloc, module, 2) == None
        && is_length(module)
}

#[test]
fn constants_and_overrides_have_values(rt: HostRuntime) {
    assert!(rt; ask(rt.alloc(), SAMPLE, Query::Values) == Some(true));
}

/// A part that is added to the sample. Each number is the index of a constant, a type or a global expression.
#[derive(Clone, Copy)]
pub(super) enum Part {
    NameOfConstant(u8),
    Zero(u8),
    /// A constant with this `init`.
    Constant(u8),
    /// An override with this `init`.
    Override(Option<u8>),
}

/// Parts, and whether the sample is then closed over its global expressions.
const CLOSED: &[(Part, bool)] = &[
    (Part::NameOfConstant(1), true),
    (Part::NameOfConstant(2), false),
    (Part::Zero(2), true),
    (Part::Zero(3), false),
    (Part::Constant(6), true),
    (Part::Constant(7), false),
    (Part::Override(Some(6)), true),
    (Part::Override(Some(7)), false),
    (Part::Override(None), true),
];

/// Returns an override of the first type.
fn specialized(init: Option<u8>) -> Override {
    let init = match init {
        Some(init) => Some(at::<Expression>(init)),
        None => None,
    };
    Override {
        name: None,
        id: None,
        ty: at::<Type>(0),
        init,
    }
}

/// Returns a constant of the first type.
fn constant(init: u8) -> Constant {
    Constant {
        name: None,
        ty: at::<Type>(0),
        init: at::<Expression>(init),
    }
}

/// Adds a part, and returns whether this succeeded.
fn add(module: &mut Module, part: Part) -> bool {
    match part {
        Part::NameOfConstant(index) => put(
            &mut module.global_expressions,
            Expression::Constant(at::<Constant>(index)),
        ),
        Part::Zero(ty) => put(
            &mut module.global_expressions,
            Expression::ZeroValue(at::<Type>(ty)),
        ),
        Part::Constant(init) => put(&mut module.constants, constant(init)),
        Part::Override(init) => put(&mut module.overrides, specialized(init)),
    }
}

/// Returns whether a module is closed over its global expressions, once it has a part, if and only if that is wanted, or
/// `None` if an allocation fails.
pub(super) fn is_closed_with(module: &mut Module, part: Part, want: bool) -> Option<bool> {
    if !add(module, part) {
        return None;
    }
    Some(module.to_ctx().is_closed_over(&module.global_expressions) == want)
}

#[test]
fn a_context_is_closed_where_all_that_it_names_is_there(rt: HostRuntime) {
    for (part, want) in CLOSED {
        assert!(rt; ask(rt.alloc(), SAMPLE, Query::IsClosed(*part, *want)) == Some(true));
    }
}
