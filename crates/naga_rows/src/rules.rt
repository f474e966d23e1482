//! Misplaced jumps, and values that are used before they are computed.
use anyhow::Result;
use naga_flow::{InvalidUse, check_bodies, check_emitted, check_uses};
use naga_ir::{Expression, Function, Module};
use naga_sets::HandleSet;
use std::alloc::{AllocError, Global};

/// Prints the answer to a question about the bodies or the handles of a module.
pub(crate) fn answer(
    rt: &impl Print,
    alloc: Global,
    question: &str,
    module: &Module,
) -> Result<()> {
    match question {
        "bodies" => check(rt, alloc, module),
        "uses" => show_uses(rt, alloc, module),
        "emitted" => show_emitted(rt, alloc, module),
        "handles" => crate::handles::show_handles(rt, module),
        _ => {
            println!(rt; "unknown question")?;
            Ok(())
        }
    }
}

/// Prints the first fault of the bodies of a module, or `ok`.
fn check(rt: &impl Print, alloc: Global, module: &Module) -> Result<()> {
    match check_bodies(alloc, module) {
        Ok(()) => println!(rt; "ok")?,
        Err(invalid) => println!(rt; "{invalid}")?,
    }
    Ok(())
}

/// Prints the first misuse in each function that has one, with a semicolon after it, or `ok` if none has.
fn show_uses(rt: &impl Print, alloc: Global, module: &Module) -> Result<()> {
    let mut passes = true;
    for (_, function) in module.functions.iter() {
        if !show_misuse(rt, function, check_uses(alloc, function))? {
            passes = false;
        }
    }
    println!(rt; "{}", if passes { "ok" } else { "" })?;
    Ok(())
}

/// Prints the misuse that a check of a function found, with a semicolon after it, or nothing. Returns whether the
/// function passes.
fn show_misuse(
    rt: &impl Print,
    function: &Function,
    outcome: Result<(), InvalidUse>,
) -> Result<bool> {
    match outcome {
        Ok(()) => return Ok(true),
        Err(InvalidUse::Misuse(misuse)) => print!(rt; "{};", misuse.display(function))?,
        Err(InvalidUse::Memory) => print!(rt; "{};", InvalidUse::Memory)?,
    }
    Ok(false)
}

/// Prints the first misuse in each function that has one, with a semicolon after it, or `ok` if none has. Each access
/// needs an `Emit`, except for the expressions that have a name.
fn show_emitted(rt: &impl Print, alloc: Global, module: &Module) -> Result<()> {
    let mut passes = true;
    for (_, function) in module.functions.iter() {
        let at_use = named(alloc, function)?;
        if !show_misuse(rt, function, check_emitted(alloc, function, &at_use))? {
            passes = false;
        }
    }
    println!(rt; "{}", if passes { "ok" } else { "" })?;
    Ok(())
}

/// Returns the set of the expressions of a function that have a name.
fn named(alloc: Global, function: &Function) -> Result<HandleSet<Expression>, AllocError> {
    let mut found = HandleSet::for_arena(alloc, &function.expressions)?;
    for handle in function.named_expressions.keys() {
        found.insert(*handle)?;
    }
    Ok(found)
}
