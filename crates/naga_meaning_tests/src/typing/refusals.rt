//! Checks in which allocations may fail.
use crate::modules::{at, entry_point_text, module_with};
use naga_arena::Span;
use naga_flow::BodyOwner;
use naga_ir::{Constant, Expression, Literal, Module, Type};
use naga_typing::{InvalidTypes, check_types, faults_of_declarations, faults_of_function};
use std::alloc::Global;

const TYPES: &str =
    r#"{"name":null,"inner":{"Scalar":{"kind":"Float","width":4}}},{"name":null,"inner":{"Scalar":{"kind":"Sint","width":4}}},{"name":null,"inner":{"Pointer":{"base":0,"space":"Function"}}}"#;

/// A function that stores a float.
const TYPED: &str =
    r#"{"name":null,"arguments":[{"name":null,"ty":2,"binding":null}],"result":null,"local_variables":[],"expressions":[{"ZeroValue":0},{"FunctionArgument":0}],"named_expressions":{},"body":[{"Store":{"pointer":1,"value":0}}],"diagnostic_filter_leaf":null}"#;

/// A function that stores an integer in place of a float.
const MISTYPED: &str =
    r#"{"name":null,"arguments":[{"name":null,"ty":2,"binding":null}],"result":null,"local_variables":[],"expressions":[{"ZeroValue":1},{"FunctionArgument":0}],"named_expressions":{},"body":[{"Store":{"pointer":1,"value":0}}],"diagnostic_filter_leaf":null}"#;

/// A function that stores an integer in place of a float, and then a pointer.
const MISTYPED_TWICE: &str =
    r#"{"name":null,"arguments":[{"name":null,"ty":2,"binding":null}],"result":null,"local_variables":[],"expressions":[{"ZeroValue":1},{"FunctionArgument":0}],"named_expressions":{},"body":[{"Store":{"pointer":1,"value":0}},{"Store":{"pointer":1,"value":1}}],"diagnostic_filter_leaf":null}"#;

/// Returns a module of which entry point 1 is at fault, or `None` if allocation fails.
fn mistyped(alloc: Global) -> Option<Module> {
    let (first, second) = (
        entry_point_text(alloc, TYPED).ok()?,
        entry_point_text(alloc, MISTYPED).ok()?,
    );
    let entry_points = format!(in alloc; "{first},{second}").ok()?;
    module_with(alloc, TYPES, TYPED, entry_points.as_str())
}

/// Returns whether the check finds entry point 1, or lacks memory.
fn finds_or_lacks_memory(alloc: Global, module: &Module) -> bool {
    match check_types(alloc, module) {
        Ok(()) => false,
        Err(InvalidTypes::Memory) => true,
        Err(InvalidTypes::Declaration(_)) => false,
        Err(InvalidTypes::Function(mistyped)) => mistyped.owner == BodyOwner::EntryPoint(1),
    }
}

#[test]
fn a_refused_check_finds_nothing(rt: HostRuntime) {
    let Some(module) = mistyped(rt.alloc()) else {
        return;
    };
    assert!(rt; finds_or_lacks_memory(rt.alloc(), &module));
}

/// Appends a constant of this type with a float as its value. Returns whether this succeeds.
fn put_constant(module: &mut Module, ty: u8) -> bool {
    let constant = Constant {
        name: None,
        ty: at::<Type>(ty),
        init: at::<Expression>(0),
    };
    module.constants.append(constant, Span::UNDEFINED).is_ok()
}

/// Adds three constants, of which the first and the last are at fault. Returns whether this succeeds.
fn put_constants(module: &mut Module) -> bool {
    let value = Expression::Literal(Literal::F32(0));
    module
        .global_expressions
        .append(value, Span::UNDEFINED)
        .is_ok()
        && put_constant(module, 1)
        && put_constant(module, 0)
        && put_constant(module, 1)
}

/// Returns whether both faults of a module are found, or allocation fails.
fn finds_both(alloc: Global, module: &Module) -> bool {
    match faults_of_declarations(alloc, module) {
        Ok(faults) => faults.len() == 2,
        Err(_) => true,
    }
}

#[test]
fn no_fault_is_left_out_for_lack_of_memory(rt: HostRuntime) {
    let Some(mut module) = module_with(rt.alloc(), TYPES, "", "") else {
        return;
    };
    if put_constants(&mut module) {
        assert!(rt; finds_both(rt.alloc(), &module));
    }
}

/// Returns whether both faults of the last function of a module are found, or allocation fails.
fn finds_both_statements(alloc: Global, module: &Module) -> bool {
    let Some(function) = module.functions.as_slice().last() else {
        return false;
    };
    match faults_of_function(alloc, module, function, usize::MAX) {
        Ok(faults) => faults.len() == 2,
        Err(_) => true,
    }
}

#[test]
fn no_statement_is_left_out_if_allocation_fails(rt: HostRuntime) {
    let Some(module) = module_with(rt.alloc(), TYPES, MISTYPED_TWICE, "") else {
        return;
    };
    assert!(rt; finds_both_statements(rt.alloc(), &module));
}
