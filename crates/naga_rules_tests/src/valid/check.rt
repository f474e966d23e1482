//! Tests of `check_handles`, and of the names of places.
use super::texts::are_shown;
use super::{first, module, second};
use naga_arena::{Handle, Range, Span};
use naga_ir::{DiagnosticFilterNode, Expression, Function, Module, Statement};
use naga_valid::{Part, Place, check_handles};
use std::alloc::Global;

/// Returns whether `check_handles` returns an error that is displayed as this text, and whose place is displayed as
/// another one, with a semicolon after each.
fn is_found(alloc: Global, module: &Module, place: &str, text: &str) -> bool {
    match check_handles(module) {
        Ok(()) => false,
        Err(error) => are_shown(alloc, &[error.place()], place) && are_shown(alloc, &[error], text),
    }
}

/// Adds the evaluation of an inverted range to the entry point. Returns whether this succeeds.
fn add_range(module: &mut Module) -> bool {
    let Some(entry_point) = module.entry_points.last_mut() else {
        return false;
    };
    let start = Handle::<Expression>::at(2);
    let range = Range::<Expression>::new_from_bounds(start, first::<Expression>());
    let emit = Statement::Emit(range);
    entry_point
        .function
        .body
        .push(emit, Span::UNDEFINED)
        .is_ok()
}

/// Returns whether the inverted range is found, and then an innermost filter that is not in the module.
fn are_found(alloc: Global, module: &mut Module) -> bool {
    let is_range_found = is_found(
        alloc,
        module,
        "entry point 0, body;",
        "entry point 0, body: range 2..1 of expressions is inverted;",
    );
    module.diagnostic_filter_leaf = Some(Handle::<DiagnosticFilterNode>::at(2));
    let is_filter_found = is_found(
        alloc,
        module,
        "diagnostic filter leaf;",
        "diagnostic filter leaf: diagnostic filter 2 is not in its arena;",
    );
    is_range_found && is_filter_found
}

#[test]
fn handles_are_checked(rt: HostRuntime) {
    let Some(mut module) = module(rt.alloc()) else {
        return assert!(rt; false);
    };
    assert!(rt; check_handles(&module).is_ok());
    assert!(rt; add_range(&mut module));
    assert!(rt; are_found(rt.alloc(), &mut module));
}

/// Returns whether the function and its expression have their names.
fn are_named(module: &Module) -> bool {
    let part = Part::Expression(second::<Expression>());
    let place = Place::Function(first::<Function>(), part);
    match module.functions.as_slice() {
        [function] => place.name(module) == Some("shade") && part.name(function) == Some("more"),
        _ => false,
    }
}

#[test]
fn places_have_names(rt: HostRuntime) {
    let Some(module) = module(rt.alloc()) else {
        return assert!(rt; false);
    };
    assert!(rt; are_named(&module));
}
