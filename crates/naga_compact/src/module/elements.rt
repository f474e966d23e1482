//! Visiting the elements to which an element of a module refers.
ghost use Rattle.std.specs.Prelude.{◌≡◌, map};
ghost use Rattle.naga_arena.specs.Arena.{value_at};
ghost use Rattle.naga_valid.specs.Declarations.{references_of_constant, references_of_global_variable, references_of_override, references_of_type};
ghost use Rattle.naga_valid.specs.Expressions.{references_of_expression};
ghost use Rattle.naga_valid.specs.Places.{references_found};
ghost use Rattle.naga_compact.specs.Module.References.{as_global, references_of_element, references_of_function};
ghost use Rattle.naga_compact.specs.Module.Visits.{visits};

use super::function::visit_function;
use super::tracer::Tracer;
use crate::collect::collect_references;
use naga_arena::Handle;
use naga_ir::{Constant, Expression, Function, GlobalVariable, Module, Override, Type};
use naga_valid::{Reference, References, references_of};

/// Visits the elements to which an element of a module refers.
pub(super) fn visit_element(tracer: &mut Tracer, module: &Module, element: Reference)
    ensures { tracer.new ≡ visits tracer.old (references_of_element «module».now element) }
{
    match element {
        Reference::Type(handle) => visit_type(tracer, module, handle),
        Reference::Constant(handle) => visit_constant(tracer, module, handle),
        Reference::Override(handle) => visit_override(tracer, module, handle),
        Reference::GlobalVariable(handle) => visit_global_variable(tracer, module, handle),
        Reference::GlobalExpression(handle) => visit_global_expression(tracer, module, handle),
        Reference::Function(handle) => visit_declared_function(tracer, module, handle),
        Reference::Expression(_) => {}
        Reference::Expressions { .. } => {}
        Reference::LocalVariable(_) => {}
        Reference::DiagnosticFilter(_) => {}
    }
}

/// Visits the elements to which a type refers, if it is in the module.
fn visit_type(tracer: &mut Tracer, module: &Module, handle: Handle<Type>)
    ensures { tracer.new ≡ visits tracer.old (references_found references_of_type (value_at «module».now.types handle)) }
{
    match module.types.get_handle(handle) {
        Ok(ty) => collect_references(tracer, ty),
        Err(_) => {}
    }
}

/// Visits the elements to which a constant refers, if it is in the module.
fn visit_constant(tracer: &mut Tracer, module: &Module, handle: Handle<Constant>)
    ensures { tracer.new
        ≡ visits tracer.old (references_found references_of_constant (value_at «module».now.constants handle)) }
{
    match module.constants.try_get(handle) {
        Ok(constant) => collect_references(tracer, constant),
        Err(_) => {}
    }
}

/// Visits the elements to which an override refers, if it is in the module.
fn visit_override(tracer: &mut Tracer, module: &Module, handle: Handle<Override>)
    ensures { tracer.new
        ≡ visits tracer.old (references_found references_of_override (value_at «module».now.overrides handle)) }
{
    match module.overrides.try_get(handle) {
        Ok(declared) => collect_references(tracer, declared),
        Err(_) => {}
    }
}

/// Visits the elements to which a global variable refers, if it is in the module.
fn visit_global_variable(tracer: &mut Tracer, module: &Module, handle: Handle<GlobalVariable>)
    ensures { tracer.new
        ≡ visits tracer.old (references_found references_of_global_variable (value_at «module».now.global_variables handle)) }
{
    match module.global_variables.try_get(handle) {
        Ok(variable) => collect_references(tracer, variable),
        Err(_) => {}
    }
}

/// Visits the elements to which a global expression refers, if it is in the module.
fn visit_global_expression(tracer: &mut Tracer, module: &Module, handle: Handle<Expression>)
    ensures { tracer.new
        ≡ visits tracer.old
        (map as_global (references_found references_of_expression (value_at «module».now.global_expressions handle))) }
{
    match module.global_expressions.try_get(handle) {
        Ok(expression) => visit_each_global(tracer, references_of(expression)),
        Err(_) => {}
    }
}

/// Visits the elements to which a function refers, if it is in the module.
fn visit_declared_function(tracer: &mut Tracer, module: &Module, handle: Handle<Function>)
    ensures { tracer.new
        ≡ visits tracer.old (references_found references_of_function (value_at «module».now.functions handle)) }
{
    match module.functions.try_get(handle) {
        Ok(function) => visit_function(tracer, function),
        Err(_) => {}
    }
}

/// Visits the elements among the handles of a global expression, whose operands are global expressions.
fn visit_each_global(tracer: &mut Tracer, mut references: References<'_, Expression>)
    ensures { tracer.new ≡ visits tracer.old (map as_global references.entry) }
{
    'references: while let Some(reference) = references.next() {
        tracer.add(as_global(reference));
    }
}

/// Returns the global expression with the handle of an operand, and any other handle unchanged.
fn as_global(reference: Reference) -> Reference
    ensures { result ≡ as_global reference }
{
    match reference {
        Reference::Expression(handle) => Reference::GlobalExpression(handle),
        _ => reference,
    }
}
