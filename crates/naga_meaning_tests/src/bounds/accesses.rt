//! Accesses whose operands are not before them, which have no JSON, and the calls that examine accesses.
use super::functions::{FITS, OPEN, TYPES};
use crate::modules::{at, entry_point_text, module_with};
use naga_arena::Span;
use naga_bounds::{InvalidAccess, check_bounds, fixed_accesses, misfit_count, unfit_accesses};
use naga_ir::{Expression, Function, LocalVariable, Module, Type};
use std::alloc::Global;

/// An expression. A number is that of an operand.
#[derive(Clone, Copy)]
enum Step {
    /// The array.
    Local,
    /// An access by this constant index.
    Index(u8, u32),
    Load(u8),
}

/// Expressions, and what is said of the first access that does not fit, or nothing if each fits.
const ROWS: &[(&[Step], &str)] = &[
    // the base of an access comes after it
    (
        &[Step::Index(1, 0), Step::Local],
        "function 0: expression 0 has a base whose type is not known",
    ),
    // an expression that is not there
    (
        &[Step::Index(9, 0)],
        "function 0: expression 0 has a base whose type is not known",
    ),
    // no type is known after an expression that has none
    (
        &[Step::Load(1), Step::Local, Step::Index(1, 0)],
        "function 0: expression 2 has a base whose type is not known",
    ),
    // an expression without a type is no fault
    (&[Step::Local, Step::Index(0, 3), Step::Load(9)], ""),
];

/// Returns the table above.
fn rows() -> &'static [(&'static [Step], &'static str)] {
    ROWS
}

/// Returns the expression of a step.
fn expression(step: Step) -> Expression {
    match step {
        Step::Local => Expression::LocalVariable(at::<LocalVariable>(0)),
        Step::Index(base, index) => Expression::AccessIndex {
            base: at::<Expression>(base),
            index,
        },
        Step::Load(pointer) => Expression::Load {
            pointer: at::<Expression>(pointer),
        },
    }
}

/// Appends the array and expressions. Returns whether this succeeds.
fn put(function: &mut Function, steps: &[Step]) -> bool {
    let array = LocalVariable {
        name: None,
        ty: at::<Type>(1),
        init: None,
    };
    if function
        .local_variables
        .append(array, Span::UNDEFINED)
        .is_err()
    {
        return false;
    }
    for step in steps {
        let step = expression(*step);
        if function.expressions.append(step, Span::UNDEFINED).is_err() {
            return false;
        }
    }
    true
}

/// Returns whether this is said of a module, or nothing is said if the text is empty.
fn is_said(alloc: Global, module: &Module, text: &str) -> bool {
    match check_bounds(alloc, module) {
        Ok(()) => text.is_empty(),
        Err(invalid) => invalid
            .to_string(alloc)
            .is_ok_and(|found| found.as_str() == text),
    }
}

/// Returns whether what a row says is said of its module.
fn is_right(alloc: Global, row: &(&[Step], &str)) -> bool {
    let Some(mut module) = module_with(alloc, TYPES, "", "") else {
        return false;
    };
    let mut function = Function::new(alloc);
    put(&mut function, row.0)
        && module.functions.append(function, Span::UNDEFINED).is_ok()
        && is_said(alloc, &module, row.1)
}

#[test]
fn operands_may_come_after(rt: HostRuntime) {
    for (number, row) in rows().iter().enumerate() {
        assert!(rt; is_right(rt.alloc(), row), "row {number}");
    }
}

/// Returns whether the only access of a function fits, as it does at a fixed index, or not.
fn is_counted(alloc: Global, function: &str, is_fixed: bool) -> bool {
    let Some(module) = module_with(alloc, TYPES, function, "") else {
        return false;
    };
    let Ok(function) = module.functions.try_get(at::<Function>(0)) else {
        return false;
    };
    let count = if is_fixed { 0 } else { 1 };
    misfit_count(alloc, &module, function) == Ok(count)
        && fixed_accesses(alloc, &module, function).is_ok_and(|found| found.contains(at::<
            Expression,
        >(1))
            == is_fixed)
}

#[test]
fn accesses_are_counted(rt: HostRuntime) {
    assert!(rt; is_counted(rt.alloc(), FITS, true));
    assert!(rt; is_counted(rt.alloc(), OPEN, false));
}

/// Returns whether this many accesses of a function are listed, up to a limit.
fn is_listed(alloc: Global, limit: usize, count: usize) -> bool {
    let Some(module) = module_with(alloc, TYPES, OPEN, "") else {
        return false;
    };
    let Ok(function) = module.functions.try_get(at::<Function>(0)) else {
        return false;
    };
    unfit_accesses(alloc, &module, function, limit).is_ok_and(|found| found.len() == count)
}

#[test]
fn accesses_are_listed_up_to_a_limit(rt: HostRuntime) {
    assert!(rt; is_listed(rt.alloc(), 0, 0));
    assert!(rt; is_listed(rt.alloc(), 1, 1));
    assert!(rt; is_listed(rt.alloc(), usize::MAX, 1));
}

/// Tests in which allocations may fail.
mod refusals {
    use super::*;

    /// Returns whether the only access of a function is listed, or memory lacks.
    fn lists_or_lacks_memory(alloc: Global, module: &Module) -> bool {
        let Ok(function) = module.functions.try_get(at::<Function>(0)) else {
            return false;
        };
        match unfit_accesses(alloc, module, function, 20) {
            Ok(found) => found.len() == 1,
            Err(_) => true,
        }
    }

    #[test]
    fn accesses_are_listed_or_memory_lacks(rt: HostRuntime) {
        let Some(module) = module_with(rt.alloc(), TYPES, OPEN, "") else {
            return;
        };
        assert!(rt; lists_or_lacks_memory(rt.alloc(), &module));
    }

    /// Returns whether the only access of a function is counted, or memory lacks.
    fn counts_or_lacks_memory(alloc: Global, module: &Module) -> bool {
        let Ok(function) = module.functions.try_get(at::<Function>(0)) else {
            return false;
        };
        match misfit_count(alloc, module, function) {
            Ok(found) => found == 1,
            Err(_) => true,
        }
    }

    #[test]
    fn accesses_are_counted_or_memory_lacks(rt: HostRuntime) {
        let Some(module) = module_with(rt.alloc(), TYPES, OPEN, "") else {
            return;
        };
        assert!(rt; counts_or_lacks_memory(rt.alloc(), &module));
    }

    /// Returns a module of which the access of the entry point does not fit, or `None` if allocation fails.
    fn misfit(alloc: Global) -> Option<Module> {
        let entry_point = entry_point_text(alloc, OPEN).ok()?;
        module_with(alloc, TYPES, FITS, entry_point.as_str())
    }

    /// Returns whether the check finds the access of the entry point that does not fit, or lacks memory.
    fn finds_or_lacks_memory(alloc: Global, module: &Module) -> bool {
        match check_bounds(alloc, module) {
            Ok(()) => false,
            Err(InvalidAccess::Memory) => true,
            Err(InvalidAccess::Misfit(misfit)) => misfit.expression.index() == 2,
        }
    }

    #[test]
    fn a_refused_check_finds_nothing(rt: HostRuntime) {
        let Some(module) = misfit(rt.alloc()) else {
            return;
        };
        assert!(rt; finds_or_lacks_memory(rt.alloc(), &module));
    }
}
