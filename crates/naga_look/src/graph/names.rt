//! The names of what expressions and statements refer to.
ghost use Rattle.std.specs.Prelude.{◌≡◌, option_copied};
ghost use Rattle.naga_look.specs.Graph.Names.{argument_name, called_name, function_name, referent_name};

use naga_arena::Handle;
use naga_ir::{Expression, Function, Module, Statement};
use naga_valid::{Part, Place};

/// Returns the name of what an expression refers to, or `None` if it has no name, is not there, or is of another kind.
pub(crate) fn referent_name<'a>(
    module: &'a Module,
    function: &'a Function,
    expression: &Expression,
) -> Option<&'a str>
    ensures { option_copied result ≡ referent_name «module».now function.now expression.now }
{
    match expression {
        Expression::Constant(handle) => return Place::Constant(*handle).name(module),
        Expression::Override(handle) => return Place::Override(*handle).name(module),
        Expression::GlobalVariable(handle) => return Place::GlobalVariable(*handle).name(module),
        Expression::LocalVariable(handle) => return Part::LocalVariable(*handle).name(function),
        Expression::FunctionArgument(index) => return argument_name(function, *index),
        Expression::CallResult(handle) => return function_name(module, *handle),
        _ => return None,
    }
}

/// Returns the name of the function that a statement calls, if it is there and has a name.
pub(crate) fn called_name<'a>(module: &'a Module, statement: &Statement) -> Option<&'a str>
    ensures { option_copied result ≡ called_name «module».now statement.now }
{
    match statement {
        Statement::Call { function, .. } => return function_name(module, *function),
        _ => return None,
    }
}

/// Returns the name of a function, if it is there and has one.
fn function_name(module: &Module, handle: Handle<Function>) -> Option<&str>
    ensures { option_copied result ≡ function_name «module».now handle }
{
    Place::Function(handle, Part::Body).name(module)
}

/// Returns the name of the argument at an index, if it is there and has one.
fn argument_name(function: &Function, index: u32) -> Option<&str>
    ensures { option_copied result ≡ argument_name function.now index }
{
    match function.arguments.get(index as usize) {
        Some(argument) => argument.name.as_deref(),
        None => None,
    }
}
