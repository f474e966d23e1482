//! Modules with one function, for the workloads on checks and passes that need types.
use crate::fault::Fault;
use crate::item::{mixed, span};
use crate::uses::handle;
use naga_arena::{Arena, Handle, Range, Span};
use naga_ir::{Block, Expression, Function, LocalVariable, Module, Statement, Type, TypeInner};

/// Declares a type.
pub fn declare(owner: &mut Module, inner: TypeInner) -> Result<Handle<Type>, Fault> {
    let ty = Type { name: None, inner };
    Ok(owner.types.insert(ty, Span::UNDEFINED)?)
}

/// Adds a variable of this type to a function, and appends a pointer to it to its expressions.
pub fn add_variable(
    function: &mut Function,
    ty: Handle<Type>,
) -> Result<Handle<Expression>, Fault> {
    let variable = LocalVariable {
        name: None,
        ty,
        init: None,
    };
    let added = function.local_variables.append(variable, Span::UNDEFINED)?;
    let pointer = Expression::LocalVariable(added);
    Ok(function.expressions.append(pointer, Span::UNDEFINED)?)
}

/// Appends a statement that evaluates the expressions from `first` to `last`, and a store of one expression to where
/// another one points.
pub fn push_store(
    body: &mut Block,
    first: u32,
    last: u32,
    pointer: u32,
    value: u32,
) -> Result<(), Fault> {
    let emitted = Range::<Expression>::new_from_bounds(handle(first)?, handle(last)?);
    body.push(Statement::Emit(emitted), span(first))?;
    let pointer = handle(pointer)?;
    let value = handle(value)?;
    body.push(Statement::Store { pointer, value }, span(last))?;
    Ok(())
}

/// Returns a checksum of the numbers of expressions and statements of a module's functions.
pub fn sum_of_functions(owner: &Module) -> u64 {
    let mut sum = 0;
    for (_, function) in owner.functions.iter() {
        sum = mixed(sum, function.expressions.len() as u64);
        sum = mixed(sum, function.body.len() as u64);
    }
    sum
}

/// Returns a checksum of the accesses of a module's functions, with their bases and indices.
pub fn sum_of_accesses(owner: &Module) -> u64 {
    let mut sum = 0;
    for (_, function) in owner.functions.iter() {
        sum = mixed(sum, sum_of_indices(&function.expressions));
    }
    sum
}

/// Returns a checksum of the accesses of an arena, with their bases and indices.
fn sum_of_indices(expressions: &Arena<Expression>) -> u64 {
    let mut sum = 0;
    for (access, expression) in expressions.iter() {
        if let Expression::Access { base, index } = expression {
            sum = mixed(sum, access.index() as u64);
            sum = mixed(sum, base.index() as u64);
            sum = mixed(sum, index.index() as u64);
        }
    }
    sum
}
