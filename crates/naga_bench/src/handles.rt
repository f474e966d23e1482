//! A workload on the handles of a module.
use crate::fault::Fault;
use crate::item::span;
use crate::sample::{Sample, now, since};
use naga_arena::{Arena, Handle, Span};
use naga_ir::{BinaryOperator, Expression, Function, Literal, Module};
use naga_valid::check_handles;
use std::alloc::Global;

/// Times checking the handles of a module with one function of `size` expressions.
pub fn on_handles(rt: &HostRuntime, size: u32) -> Result<Sample, Fault> {
    let mut module = Module::new(rt.alloc());
    add_function(rt.alloc(), &mut module, size)?;
    let start = now(rt);
    let given = check(&module);
    let time = since(rt, start);
    Sample::of(size, given, 0, time)
}

/// Adds a function of `size` expressions.
fn add_function(alloc: Global, module: &mut Module, size: u32) -> Result<(), Fault> {
    let mut function = Function::new(alloc);
    append(&mut function.expressions, size)?;
    module.functions.append(function, Span::UNDEFINED)?;
    Ok(())
}

/// Appends `size` expressions, each of which refers only to the one before it.
pub fn append(expressions: &mut Arena<Expression>, size: u32) -> Result<(), Fault> {
    let mut previous = Handle::<Expression>::from_usize(0).unwrap();
    for number in 0..size {
        previous = expressions.append(expression(number, previous), span(number))?;
    }
    Ok(())
}

/// Returns the expression of a number, with none to three handles.
fn expression(number: u32, previous: Handle<Expression>) -> Expression {
    match number % 4 {
        0 => Expression::Literal(Literal::U32(number)),
        1 => Expression::Load { pointer: previous },
        2 => Expression::Binary {
            op: BinaryOperator::Add,
            left: previous,
            right: previous,
        },
        _ => Expression::Select {
            condition: previous,
            accept: previous,
            reject: previous,
        },
    }
}

/// Checks the handles, and returns the number of functions.
fn check(module: &Module) -> Result<u64, Fault> {
    match check_handles(module) {
        Ok(()) => Ok(module.functions.len() as u64),
        Err(_) => Err(Fault::SetUp),
    }
}
