//! Accesses that may be out of bounds.
use anyhow::Result;
use naga_bounds::{check_bounds, fixed_accesses, misfit_count, unfit_accesses};
use naga_ir::{Expression, Function, Module};
use naga_sets::HandleSet;
use std::alloc::Global;

/// Prints the answer to a question about accesses.
pub(crate) fn answer(
    rt: &impl Print,
    alloc: Global,
    question: &str,
    module: &Module,
) -> Result<()> {
    match question {
        "check" => check(rt, alloc, module),
        _ => answer_function(rt, alloc, question, module),
    }
}

/// Prints the answer to a question about the last function of a module.
fn answer_function(rt: &impl Print, alloc: Global, question: &str, module: &Module) -> Result<()> {
    match module.functions.as_slice().last() {
        Some(function) if question == "count" => show_count(rt, alloc, module, function),
        Some(function) if question == "unfit" => show_unfit(rt, alloc, module, function),
        Some(function) => show_fixed(rt, alloc, module, function),
        None => {
            println!(rt; "no function")?;
            Ok(())
        }
    }
}

/// Prints how many accesses of a function may be out of bounds.
fn show_count(rt: &impl Print, alloc: Global, module: &Module, function: &Function) -> Result<()> {
    let count = misfit_count(alloc, module, function)?;
    println!(rt; "{count}")?;
    Ok(())
}

/// Prints the accesses of a function that may be out of bounds, or `ok`.
fn show_unfit(rt: &impl Print, alloc: Global, module: &Module, function: &Function) -> Result<()> {
    let unfit = unfit_accesses(alloc, module, function, usize::MAX)?;
    if unfit.is_empty() {
        print!(rt; "ok")?;
    }
    for (position, access) in unfit.iter().enumerate() {
        if position > 0 {
            print!(rt; "; ")?;
        }
        print!(rt; "{access}")?;
    }
    println!(rt; "")?;
    Ok(())
}

/// Prints the accesses of a function by constant indices below fixed lengths.
fn show_fixed(rt: &impl Print, alloc: Global, module: &Module, function: &Function) -> Result<()> {
    let fixed = fixed_accesses(alloc, module, function)?;
    show_set(rt, function, &fixed)
}

/// Prints the first access of a module that may be out of bounds, or `ok`.
fn check(rt: &impl Print, alloc: Global, module: &Module) -> Result<()> {
    match check_bounds(alloc, module) {
        Ok(()) => println!(rt; "ok")?,
        Err(invalid) => println!(rt; "{invalid}")?,
    }
    Ok(())
}

/// Prints the expressions of a function that are in a set.
fn show_set(rt: &impl Print, function: &Function, set: &HandleSet<Expression>) -> Result<()> {
    for (handle, _) in function.expressions.iter() {
        if set.contains(handle) {
            print!(rt; "{handle:?}")?;
        }
    }
    println!(rt; "")?;
    Ok(())
}
