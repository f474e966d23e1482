//! Tests of calls on expressions, statements and types, whose rows are in tables, and of the order of values with
//! variants of their own.
use super::at;
use super::blocks::block;
use naga_arena::TryClone;
use naga_ir::{
    ArraySize, AtomicFunction, Block, Control, Direction, Expression, GatherMode, GlslUniformType,
    LocalVariable, Override, SampleLevel, Statement, Type, TypeInner,
};
use std::alloc::{AllocError, Global};
use std::num::NonZeroU32;
use std::test::Fail;

/// Returns whether a value is equal to its clone.
fn is_cloned<T: PartialEq + TryClone + Drop>(value: &T) -> bool {
    match TryClone::clone(value) {
        Ok(clone) => clone == *value,
        Err(AllocError) => false,
    }
}

/// Returns whether a variable has its value when a function is entered, and is equal to its clone.
fn is_entered(variable: &Expression) -> bool {
    variable.needs_pre_emit() && variable.is_dynamic_index() && is_cloned(variable)
}

/// Returns whether a composed value has its value later, and is equal to its clone but not to a variable.
fn is_later(composed: &Expression, variable: &Expression) -> bool {
    !composed.needs_pre_emit() && is_cloned(composed) && *composed != *variable
}

/// Returns a value that is composed of two.
fn composed(alloc: Global) -> Result<Expression, AllocError> {
    let components = vec![in alloc; at::<Expression>(0), at::<Expression>(1)]?;
    Ok(Expression::Compose {
        ty: at::<Type>(1),
        components,
    })
}

#[test]
fn expressions_have_their_values_in_time(rt: HostRuntime) -> Result<(), Fail> {
    let variable = Expression::LocalVariable(at::<LocalVariable>(0));
    let composed = composed(rt.alloc())?;
    assert!(rt; is_entered(&variable) && is_later(&composed, &variable));
    Ok(())
}

#[test]
fn two_levels_are_chosen_by_derivatives(rt: HostRuntime) {
    let x = at::<Expression>(0);
    assert!(rt;
        SampleLevel::Auto.implicit_derivatives() && SampleLevel::Bias(x).implicit_derivatives()
    );
    assert!(rt;
        !SampleLevel::Zero.implicit_derivatives()
            && !SampleLevel::Exact(x).implicit_derivatives()
            && !SampleLevel::Gradient { x, y: x }.implicit_derivatives()
    );
}

/// Returns whether the effect of a statement is a block of two statements.
fn holds_two(statement: &Statement) -> bool {
    match statement.control() {
        Control::Block(block) => block.len() == 2 && !statement.is_plain(),
        _ => false,
    }
}

/// Returns whether a clone of a block of two statements is such a block.
fn is_cloned_block(inner: Block) -> bool {
    let block = Statement::Block(inner);
    match TryClone::clone(&block) {
        Ok(clone) => holds_two(&block) && holds_two(&clone),
        Err(AllocError) => false,
    }
}

#[test]
fn statements_have_their_effects(rt: HostRuntime) -> Result<(), Fail> {
    let inner = block(rt.alloc(), "pb", 1)?;
    assert!(rt; is_cloned_block(inner));
    Ok(())
}

/// Returns whether a type is equal to its clone, and has no GLSL uniform.
fn is_in_no_uniform(inner: &TypeInner) -> bool {
    is_cloned(inner) && GlslUniformType::try_from(inner).is_err()
}

#[test]
fn a_sampler_is_in_no_uniform(rt: HostRuntime) {
    assert!(rt; is_in_no_uniform(&TypeInner::Sampler { comparison: true }));
}

/// Returns whether sizes, functions and modes are ordered by their variants, as these are declared, and then by their
/// fields. `small` is less than `large`.
fn are_in_order(small: NonZeroU32, large: NonZeroU32) -> bool {
    let (pending, e) = (ArraySize::Pending(at::<Override>(0)), at::<Expression>(0));
    let exchange = |compare| AtomicFunction::Exchange { compare };
    ArraySize::Constant(small) < ArraySize::Constant(large)
        && ArraySize::Constant(large) < pending
        && pending < ArraySize::Dynamic
        && AtomicFunction::Max < exchange(None)
        && exchange(None) < exchange(Some(e))
        && GatherMode::BroadcastFirst < GatherMode::Broadcast(e)
        && GatherMode::QuadSwap(Direction::X) < GatherMode::QuadSwap(Direction::Y)
}

#[test]
fn sizes_functions_and_modes_are_in_order(rt: HostRuntime) -> Result<(), Fail> {
    let small = NonZeroU32::new(4).ok_or("zero")?;
    let large = NonZeroU32::new(5).ok_or("zero")?;
    assert!(rt; are_in_order(small, large));
    Ok(())
}
