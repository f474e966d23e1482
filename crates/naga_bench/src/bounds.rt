//! Workloads on accesses: the check that they are in bounds, and the pass that clamps them.
use crate::declarations::{add_variable, declare, push_store, sum_of_accesses, sum_of_functions};
use crate::fault::Fault;
use crate::item::span;
use crate::sample::{Sample, now, since};
use naga_arena::{Handle, Span};
use naga_bounds::{check_bounds, restrict};
use naga_ir::{
    ArraySize, BinaryOperator, Expression, Function, Literal, MathFunction, Module, Scalar, Type,
    TypeInner,
};
use std::alloc::Global;
use std::num::NonZeroU32;

/// The call that is timed.
#[derive(Clone, Copy)]
pub enum BoundsWork {
    Check,
    Restrict,
}

impl BoundsWork {
    /// Returns the name of the workload.
    pub fn name(self) -> &'static str {
        match self {
            BoundsWork::Check => "check_bounds",
            BoundsWork::Restrict => "restrict",
        }
    }
}

/// Times a call on the accesses of a module with one function of `size` expressions and half as many statements.
pub fn on_bounds(rt: &HostRuntime, size: u32, work: BoundsWork) -> Result<Sample, Fault> {
    match work {
        BoundsWork::Check => on_check(rt, size),
        BoundsWork::Restrict => on_restriction(rt, size),
    }
}

/// Times checking the accesses, which are half of the expressions.
fn on_check(rt: &HostRuntime, size: u32) -> Result<Sample, Fault> {
    let mut owner = Module::new(rt.alloc());
    add_function(rt.alloc(), &mut owner, size, BoundsWork::Check)?;
    let start = now(rt);
    let checked = check_bounds(rt.alloc(), &owner);
    let time = since(rt, start);
    match checked {
        Ok(()) => Sample::of(size, Ok(sum_of_functions(&owner)), 0, time),
        Err(_) => Err(Fault::SetUp),
    }
}

/// Times clamping the accesses that are not known to be in bounds, which are a fourth of the expressions.
fn on_restriction(rt: &HostRuntime, size: u32) -> Result<Sample, Fault> {
    let mut owner = Module::new(rt.alloc());
    add_function(rt.alloc(), &mut owner, size, BoundsWork::Restrict)?;
    let start = now(rt);
    let restricted = restrict(rt.alloc(), &mut owner);
    let time = since(rt, start);
    match restricted {
        Ok(()) => Sample::of(
            size,
            Ok(sum_of_functions(&owner)),
            sum_of_accesses(&owner),
            time,
        ),
        Err(_) => Err(Fault::SetUp),
    }
}

/// Adds a function of `size` expressions, and the types of its variable.
fn add_function(
    alloc: Global,
    owner: &mut Module,
    size: u32,
    work: BoundsWork,
) -> Result<(), Fault> {
    let count = NonZeroU32::new(16).ok_or(Fault::SetUp)?;
    let base = declare(owner, TypeInner::Scalar(Scalar::U32))?;
    let array = TypeInner::Array {
        base,
        size: ArraySize::Constant(count),
        stride: 4,
    };
    let array = declare(owner, array)?;
    let mut function = Function::new(alloc);
    fill(&mut function, array, size, work)?;
    owner.functions.append(function, Span::UNDEFINED)?;
    Ok(())
}

/// Appends `size` expressions after a pointer to an array and a literal. The body evaluates each four of them, and
/// stores the second one to where the last one points.
fn fill(
    function: &mut Function,
    array: Handle<Type>,
    size: u32,
    work: BoundsWork,
) -> Result<(), Fault> {
    let pointer = add_variable(function, array)?;
    let literal = Expression::Literal(Literal::U32(15));
    let limit = function.expressions.append(literal, Span::UNDEFINED)?;
    let mut last = limit;
    for number in 0..size {
        let added = expression(number, work, pointer, limit, last);
        last = function.expressions.append(added, span(number))?;
    }
    fill_body(function, size)
}

/// Appends the statements.
fn fill_body(function: &mut Function, size: u32) -> Result<(), Fault> {
    for group in 0..size / 4 {
        let first = group.saturating_mul(4).saturating_add(2);
        let second = first.saturating_add(1);
        let last = first.saturating_add(3);
        push_store(&mut function.body, first, last, last, second)?;
    }
    Ok(())
}

/// Returns the expression of a number: by turns an access to the element at the limit, a load of it, an index that is
/// computed from it and the limit, and an access to the element at this index.
fn expression(
    number: u32,
    work: BoundsWork,
    pointer: Handle<Expression>,
    limit: Handle<Expression>,
    last: Handle<Expression>,
) -> Expression {
    match number % 4 {
        0 => Expression::Access {
            base: pointer,
            index: limit,
        },
        1 => Expression::Load { pointer: last },
        2 => computed_index(work, last, limit),
        _ => Expression::Access {
            base: pointer,
            index: last,
        },
    }
}

/// Returns the minimum of two numbers, which is at most the second one, or their sum.
fn computed_index(
    work: BoundsWork,
    left: Handle<Expression>,
    right: Handle<Expression>,
) -> Expression {
    match work {
        BoundsWork::Check => Expression::Math {
            fun: MathFunction::Min,
            arg: left,
            arg1: Some(right),
            arg2: None,
            arg3: None,
        },
        BoundsWork::Restrict => Expression::Binary {
            op: BinaryOperator::Add,
            left,
            right,
        },
    }
}
