//! Tests of the texts of errors, with and without names, and of places of which no row is made.
use super::{first, module, second};
use naga_arena::Handle;
use naga_ir::{
    Constant, Expression, Function, GlobalVariable, LocalVariable, Module, Override, Type,
};
use naga_valid::{InvalidHandle, Part, Place, Reference};
use std::alloc::Global;
use std::fmt::Display;

/// Returns whether values are displayed as this text, with a semicolon after each.
pub(super) fn are_shown<T: Display>(alloc: Global, values: &[T], text: &str) -> bool {
    let mut shown = String::new(alloc);
    for value in values {
        if write!(shown, "{value};").is_err() {
            return false;
        }
    }
    shown.as_str() == text
}

/// Returns whether handles, and the parts of a module and of a function that occur once, are displayed by their names.
fn are_parts_shown(alloc: Global) -> bool {
    let handles = [
        Reference::Expressions { start: 3, end: 1 },
        Reference::LocalVariable(Handle::<LocalVariable>::at(7)),
    ];
    let places = [
        Place::SpecialTypes,
        Place::DiagnosticFilterLeaf,
        Place::TypeComments,
        Place::MemberComments,
        Place::FunctionComments,
        Place::ConstantComments,
        Place::GlobalVariableComments,
        Place::EntryPointFunction(0, Part::NamedExpressions),
        Place::EntryPointFunction(0, Part::DiagnosticFilterLeaf),
    ];
    are_shown(alloc, &handles, "expressions 3..1;local variable 7;")
        && are_shown(
            alloc,
            &places,
            "special types;diagnostic filter leaf;doc comments on types;doc comments on members;\
             doc comments on functions;doc comments on constants;doc comments on global variables;\
             entry point 0, named expressions;entry point 0, diagnostic filter leaf;",
        )
}

/// Returns whether places are displayed as one text without names, and as another text with the names of a module.
fn are_places_shown(
    alloc: Global,
    module: &Module,
    places: &[Place],
    text: &str,
    with_names: &str,
) -> bool {
    let mut shown = String::new(alloc);
    for place in places {
        let place = place.display(module);
        if write!(shown, "{place};").is_err() {
            return false;
        }
    }
    shown.as_str() == with_names && are_shown(alloc, places, text)
}

/// Returns whether places are displayed with the names of a module, also those that are not in it.
fn are_places_named(alloc: Global, module: &Module) -> bool {
    let more = second::<Expression>();
    let places = [
        Place::GlobalVariable(first::<GlobalVariable>()),
        Place::GlobalExpression(second::<Expression>()),
        Place::EntryPoint(1),
        Place::Function(first::<Function>(), Part::Expression(more)),
        Place::Function(second::<Function>(), Part::Expression(more)),
        Place::EntryPointFunction(0, Part::LocalVariable(first::<LocalVariable>())),
        Place::EntryPointFunction(1, Part::LocalVariable(first::<LocalVariable>())),
    ];
    are_places_shown(
        alloc,
        module,
        &places,
        "global variable 0;global expression 1;entry point 1;function 0, expression 1;function 1, expression 1;\
         entry point 0, local variable 0;entry point 1, local variable 0;",
        "global variable 0 \"a\\nb\";global expression 1;entry point 1;\
         function 0 \"shade\", expression 1 \"more\";function 1, expression 1;\
         entry point 0 \"main\", local variable 0 \"sum\";entry point 1, local variable 0;",
    )
}

/// Returns whether errors are displayed as one text without names, and as another text with the names of a module.
fn are_errors_shown(alloc: Global, module: &Module, text: &str, with_names: &str) -> bool {
    let errors = [
        InvalidHandle::BadHandle {
            handle: Reference::Constant(second::<Constant>()),
            place: Place::EntryPoint(0),
        },
        InvalidHandle::BadRange {
            start: 2,
            end: 1,
            place: Place::EntryPointFunction(0, Part::Body),
        },
        InvalidHandle::BadRange {
            start: 0,
            end: 9,
            place: Place::EntryPointFunction(0, Part::Body),
        },
        InvalidHandle::ForwardDependency {
            handle: Reference::Type(first::<Type>()),
            place: Place::Type(first::<Type>()),
        },
        InvalidHandle::ForwardDependency {
            handle: Reference::Function(first::<Function>()),
            place: Place::Function(first::<Function>(), Part::Body),
        },
        InvalidHandle::ForwardDependency {
            handle: Reference::Function(second::<Function>()),
            place: Place::Function(first::<Function>(), Part::Body),
        },
        InvalidHandle::NotConstant {
            handle: Reference::Function(first::<Function>()),
            place: Place::GlobalExpression(second::<Expression>()),
        },
        InvalidHandle::InitDependency {
            expression: first::<Expression>(),
            handle: Reference::Constant(first::<Constant>()),
            init: second::<Expression>(),
        },
        InvalidHandle::SizeDependency {
            ty: first::<Type>(),
            expression: second::<Expression>(),
            depends_on: second::<Type>(),
        },
        InvalidHandle::OverrideDependency {
            ty: first::<Type>(),
            size: second::<Override>(),
            depends_on: second::<Type>(),
        },
    ];
    let mut shown = String::new(alloc);
    for error in &errors {
        let error = error.display(module);
        if write!(shown, "{error};").is_err() {
            return false;
        }
    }
    shown.as_str() == with_names && are_shown(alloc, &errors, text)
}

#[test]
fn places_and_errors_are_shown(rt: HostRuntime) {
    let Some(module) = module(rt.alloc()) else {
        return assert!(rt; false);
    };
    assert!(rt; are_parts_shown(rt.alloc()));
    assert!(rt; are_places_named(rt.alloc(), &module));
    assert!(rt;
        are_errors_shown(
            rt.alloc(),
            &module,
            "entry point 0: constant 1 is not in its arena;\
             entry point 0, body: range 2..1 of expressions is inverted;\
             entry point 0, body: range 0..9 of expressions is not in its arena;\
             type 0: type 0 does not come earlier;\
             function 0, body: the function calls itself;\
             function 0, body: function 1 must come before function 0, which calls it;\
             global expression 1: function 0 is not constant;\
             global expression 0: the init of constant 0 is global expression 1, which does not come earlier;\
             type 0: its size comes after global expression 1, which depends on type 1;\
             type 0: its size is override 1, which depends on type 1;",
            "entry point 0 \"main\": constant 1 is not in its arena;\
             entry point 0 \"main\", body: range 2..1 of expressions is inverted;\
             entry point 0 \"main\", body: range 0..9 of expressions is not in its arena;\
             type 0 \"Light\": type 0 does not come earlier;\
             function 0 \"shade\", body: the function calls itself;\
             function 0 \"shade\", body: function 1 must come before function 0, which calls it;\
             global expression 1: function 0 is not constant;\
             global expression 0: the init of constant 0 is global expression 1, which does not come earlier;\
             type 0 \"Light\": its size comes after global expression 1, which depends on type 1;\
             type 0 \"Light\": its size is override 1, which depends on type 1;",
        )
    );
}
