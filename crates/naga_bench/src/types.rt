//! Workloads on the types of expressions.
use crate::declarations::{add_variable, declare, push_store, sum_of_functions};
use crate::fault::Fault;
use crate::item::span;
use crate::sample::{Sample, now, since};
use naga_arena::{Arena, Handle, Span};
use naga_ir::{
    BinaryOperator, Expression, Function, Literal, Module, Scalar, Type, TypeInner, VectorSize,
};
use naga_typifier::{ResolveContext, Typifier};
use naga_typing::check_types;
use std::alloc::Global;

/// The call that is timed.
#[derive(Clone, Copy)]
pub enum TypesWork {
    Grow,
    Check,
}

impl TypesWork {
    /// Returns the name of the workload.
    pub fn name(self) -> &'static str {
        match self {
            TypesWork::Grow => "typifier_grow",
            TypesWork::Check => "check_types",
        }
    }
}

/// Times the search for the types of `size` expressions, or the check of a module with one function of them.
pub fn on_types(rt: &HostRuntime, size: u32, work: TypesWork) -> Result<Sample, Fault> {
    match work {
        TypesWork::Grow => on_typifier(rt, size),
        TypesWork::Check => on_module(rt, size),
    }
}

/// Times the search for the types of `size` expressions.
fn on_typifier(rt: &HostRuntime, size: u32) -> Result<Sample, Fault> {
    let owner = Module::new(rt.alloc());
    let mut function = Function::new(rt.alloc());
    fill(&mut function.expressions, size)?;
    let ctx = ResolveContext::with_function(&owner, &function);
    let mut types = Typifier::new(rt.alloc());
    let start = now(rt);
    let grown = types.grow(&function.expressions, &ctx);
    let time = since(rt, start);
    match grown {
        Ok(()) => Sample::of(size, Ok(function.expressions.len() as u64), 0, time),
        Err(_) => Err(Fault::SetUp),
    }
}

/// Times checking the types of a module with one function of `size` expressions and half as many statements.
fn on_module(rt: &HostRuntime, size: u32) -> Result<Sample, Fault> {
    let mut owner = Module::new(rt.alloc());
    add_function(rt.alloc(), &mut owner, size)?;
    let start = now(rt);
    let checked = check_types(rt.alloc(), &owner);
    let time = since(rt, start);
    match checked {
        Ok(()) => Sample::of(size, Ok(sum_of_functions(&owner)), 0, time),
        Err(_) => Err(Fault::SetUp),
    }
}

/// Adds a function of `size` expressions.
fn add_function(alloc: Global, owner: &mut Module, size: u32) -> Result<(), Fault> {
    let number = declare(owner, TypeInner::Scalar(Scalar::U32))?;
    let mut function = Function::new(alloc);
    fill_function(&mut function, number, size)?;
    owner.functions.append(function, Span::UNDEFINED)?;
    Ok(())
}

/// Appends `size` expressions after a pointer to a variable of this type. Of each four, the body evaluates the last
/// three, and stores the last one.
fn fill_function(function: &mut Function, number: Handle<Type>, size: u32) -> Result<(), Fault> {
    add_variable(function, number)?;
    fill(&mut function.expressions, size)?;
    for group in 0..size / 4 {
        let first = group.saturating_mul(4).saturating_add(2);
        let last = first.saturating_add(2);
        push_store(&mut function.body, first, last, 0, last)?;
    }
    Ok(())
}

/// Appends `size` expressions: by turns a literal, a vector of it, the product of both, and a component of that.
fn fill(expressions: &mut Arena<Expression>, size: u32) -> Result<(), Fault> {
    let mut scalar = Handle::<Expression>::from_usize(0).unwrap();
    let mut last = scalar;
    for number in 0..size {
        let appended = expressions.append(expression(number, scalar, last), span(number))?;
        if number % 4 == 0 {
            scalar = appended;
        }
        last = appended;
    }
    Ok(())
}

/// Returns the expression of a number, by the last literal and the last expression.
fn expression(number: u32, scalar: Handle<Expression>, last: Handle<Expression>) -> Expression {
    match number % 4 {
        0 => Expression::Literal(Literal::U32(number)),
        1 => Expression::Splat {
            size: VectorSize::Quad,
            value: last,
        },
        2 => Expression::Binary {
            op: BinaryOperator::Multiply,
            left: last,
            right: scalar,
        },
        _ => Expression::AccessIndex {
            base: last,
            index: number % 4,
        },
    }
}
