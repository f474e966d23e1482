//! The check of the types of a module.
ghost use Rattle.std.specs.Prelude.{MatchResult};
ghost use Rattle.std.specs.List.{All};
ghost use Rattle.naga_flow.specs.Bodies.{functions_of, functions_of_entries};
ghost use Rattle.naga_typing.specs.Stages.{AreInvalidDeclarations, IsInvalidFunction};
ghost use Rattle.naga_typing.specs.TypedModules.{DeclarationsAreTyped, FunctionIsTyped, IsInvalid, IsInvalidIn, ModuleIsTyped};

use crate::invalid_types::{InvalidFunction, InvalidTypes, InvalidValues, MistypedFunction};
use crate::stage::{check_global_values, check_typed};
use crate::typed_function::TypedFunction;
use naga_arena::Handle;
use naga_flow::BodyOwner;
use naga_ir::{Function, Module};
use naga_typifier::{ResolveContext, Typifier};
use std::alloc::Global;

/// Checks that a module uses each value at its type.
///
/// Each global expression, and each expression of a function or of an entry point, must have a type and operands of the
/// types that it requires. The initial values of constants, overrides and variables must have the types declared, and
/// each body must use each value at its type, as [`check_body_types`](crate::check_body_types) checks.
///
/// Returns the first fault. Global expressions come first, then constants, overrides and global variables, functions and
/// entry points. Within a function, the expressions come first, each with its type before its operands, then the
/// variables, and then the statements as they are read. Returns [`InvalidTypes::Memory`] if allocation fails. The time
/// is linear in the size of the module.
///
/// Not examined: layouts, bindings, capabilities and rights of access, and the operands that `specs/Expressions.antt`
/// names.
///
/// Differs from naga: naga's validator examines more, and returns its own errors.
pub fn check_types(alloc: Global, module: &Module) -> Result<(), InvalidTypes>
    ensures { MatchResult result (λ _. ModuleIsTyped «module».now) (IsInvalid «module».now) }
{
    if let Err(invalid) = check_declarations(alloc, module) {
        return Err(invalid);
    }
    if let Err(invalid) = check_functions(alloc, module) {
        return Err(invalid);
    }
    check_entry_points(alloc, module)
}

/// Checks global expressions, and the initial values of constants, overrides and global variables, as [`check_types`] does.
///
/// Returns the first fault, or [`InvalidValues::Memory`] if allocation fails.
///
/// Differs from naga: naga's validator examines more, and returns its own errors.
pub fn check_types_of_declarations(alloc: Global, module: &Module) -> Result<(), InvalidValues>
    ensures { MatchResult result (λ _. DeclarationsAreTyped «module».now) (AreInvalidDeclarations «module».now) }
{
    // global expressions are as those of a function without arguments and variables
    let function = &Function::new(alloc);
    let ctx = ResolveContext::with_function(module, function);
    let mut types = Typifier::new(alloc);
    let outcome = types.grow(&module.global_expressions, &ctx);
    let known = &types;
    let typed = TypedFunction {
        module,
        function,
        known,
    };
    check_global_values(&typed, &outcome)
}

/// Checks the declarations.
fn check_declarations(alloc: Global, module: &Module) -> Result<(), InvalidTypes>
    ensures { MatchResult result (λ _. DeclarationsAreTyped «module».now) (IsInvalid «module».now) }
{
    match check_types_of_declarations(alloc, module) {
        Ok(()) => Ok(()),
        Err(InvalidValues::Memory) => Err(InvalidTypes::Memory),
        Err(InvalidValues::Fault(fault)) => Err(InvalidTypes::Declaration(fault)),
    }
}

/// Checks the functions that are not entry points, where the declarations pass.
fn check_functions(alloc: Global, module: &Module) -> Result<(), InvalidTypes>
    requires { DeclarationsAreTyped «module».now }
    ensures { MatchResult result (λ _. All (FunctionIsTyped «module».now) (functions_of «module».now))
        (IsInvalid «module».now) }
{
    'functions: for index in 0..module.functions.len() {
        let handle = Handle::<Function>::at(index);
        let owner = BodyOwner::Function(handle);
        if let Err(invalid) = check_function(alloc, module, &module.functions[handle], owner) {
            return Err(invalid);
        }
    }
    Ok(())
}

/// Checks the entry points, where the declarations and the functions pass.
fn check_entry_points(alloc: Global, module: &Module) -> Result<(), InvalidTypes>
    requires declarations { DeclarationsAreTyped «module».now }
    requires functions { All (FunctionIsTyped «module».now) (functions_of «module».now) }
    ensures { MatchResult result
        (λ _. All (FunctionIsTyped «module».now) (functions_of_entries «module».now.entry_points.items))
        (IsInvalid «module».now) }
{
    let entry_points = module.entry_points.as_slice();
    'entry_points: for position in 0..entry_points.len() {
        let owner = BodyOwner::EntryPoint(position);
        let function = &entry_points[position].function;
        if let Err(invalid) = check_function(alloc, module, function, owner) {
            return Err(invalid);
        }
    }
    Ok(())
}

/// Checks a function of a module as [`check_types`] does, whether or not the declarations and the other functions pass.
///
/// Returns the first fault, or [`InvalidFunction::Memory`] if allocation fails. The time is linear in the number of
/// expressions and statements.
///
/// Differs from naga: naga's validator examines more, and returns its own errors.
pub fn check_types_of_function(
    alloc: Global,
    module: &Module,
    function: &Function,
) -> Result<(), InvalidFunction>
    ensures { MatchResult result (λ _. FunctionIsTyped «module».now function.now)
        (IsInvalidFunction «module».now function.now) }
{
    let ctx = ResolveContext::with_function(module, function);
    let mut types = Typifier::new(alloc);
    let outcome = types.grow(&function.expressions, &ctx);
    let known = &types;
    let typed = TypedFunction {
        module,
        function,
        known,
    };
    check_typed(&typed, &outcome)
}

/// Checks a function, which is that of an owner.
fn check_function(
    alloc: Global,
    module: &Module,
    function: &Function,
    owner: BodyOwner,
) -> Result<(), InvalidTypes>
    ensures { MatchResult result (λ _. FunctionIsTyped «module».now function.now)
        (IsInvalidIn «module».now function.now owner) }
{
    match check_types_of_function(alloc, module, function) {
        Ok(()) => Ok(()),
        Err(InvalidFunction::Memory) => Err(InvalidTypes::Memory),
        Err(InvalidFunction::Fault(fault)) => {
            Err(InvalidTypes::Function(MistypedFunction { owner, fault }))
        }
    }
}
