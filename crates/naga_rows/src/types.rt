//! Types of expressions, and faults of types.
use anyhow::Result;
use naga_arena::Handle;
use naga_ir::{Expression, Function, Module, TypeInner};
use naga_typifier::{GrowError, ResolveContext, TypeInnerMethods, Typifier};
use naga_typing::{ValueFault, check_body_types, check_types, faults_of_declarations};
use std::alloc::Global;

/// Prints the answer to a question about types.
pub(crate) fn answer(
    rt: &impl Print,
    alloc: Global,
    question: &str,
    module: &Module,
) -> Result<()> {
    match question {
        "last" => show_last(rt, alloc, module),
        "contents" => show_contents(rt, module),
        "body" => show_body(rt, alloc, module),
        "check" => check(rt, alloc, module),
        "declarations" => show_declarations(rt, alloc, module),
        _ => {
            println!(rt; "unknown question")?;
            Ok(())
        }
    }
}

/// Prints the first fault of types of a module, or `ok`.
fn check(rt: &impl Print, alloc: Global, module: &Module) -> Result<()> {
    match check_types(alloc, module) {
        Ok(()) => println!(rt; "ok")?,
        Err(invalid) => println!(rt; "{invalid}")?,
    }
    Ok(())
}

/// Prints the faults of the declarations of a module.
fn show_declarations(rt: &impl Print, alloc: Global, module: &Module) -> Result<()> {
    let faults = faults_of_declarations(alloc, module)?;
    show_faults(rt, faults.as_slice())
}

/// Prints the faults of declarations, with a semicolon after each.
fn show_faults(rt: &impl Print, faults: &[ValueFault]) -> Result<()> {
    for fault in faults {
        print!(rt; "{fault};")?;
    }
    println!(rt; "")?;
    Ok(())
}

/// Prints the first statement of the last function with an operand of a wrong type.
fn show_body(rt: &impl Print, alloc: Global, module: &Module) -> Result<()> {
    match module.functions.as_slice().last() {
        Some(function) => check_body(rt, alloc, module, function),
        None => {
            println!(rt; "no function")?;
            Ok(())
        }
    }
}

/// Prints the first statement of a function with an operand of a wrong type, or `ok`.
fn check_body(rt: &impl Print, alloc: Global, module: &Module, function: &Function) -> Result<()> {
    let ctx = ResolveContext::with_function(module, function);
    let mut types = Typifier::new(alloc);
    match types.grow(&function.expressions, &ctx) {
        Ok(()) => show_mismatch(rt, module, function, &types),
        Err(error) => {
            println!(rt; "{error}")?;
            Ok(())
        }
    }
}

/// Prints the first statement of a function with an operand of a wrong type, given the types of its expressions, or
/// `ok`.
fn show_mismatch(
    rt: &impl Print,
    module: &Module,
    function: &Function,
    types: &Typifier,
) -> Result<()> {
    match check_body_types(module, function, types) {
        Ok(()) => println!(rt; "ok")?,
        Err(mismatch) => println!(rt; "{}", mismatch.display(function))?,
    }
    Ok(())
}

/// Prints the type of the last expression of the last function.
fn show_last(rt: &impl Print, alloc: Global, module: &Module) -> Result<()> {
    match module.functions.as_slice().last() {
        Some(function) => show_type(rt, alloc, module, function),
        None => {
            println!(rt; "no function")?;
            Ok(())
        }
    }
}

/// Prints the type of the last expression of a function, or why an expression has none.
fn show_type(rt: &impl Print, alloc: Global, module: &Module, function: &Function) -> Result<()> {
    let ctx = ResolveContext::with_function(module, function);
    let mut types = Typifier::new(alloc);
    match types.grow(&function.expressions, &ctx) {
        Ok(()) => show_last_of(rt, function, &types),
        Err(error) => show_fault(rt, function, &error),
    }
}

/// Prints why an expression of a function has no type, and which expression it is, unless it is the last.
fn show_fault(rt: &impl Print, function: &Function, error: &GrowError) -> Result<()> {
    match error {
        GrowError::NoType { expression, error }
            if expression.index().saturating_add(1) == function.expressions.len() => {
            println!(rt; "{error}")?;
        }
        _ => println!(rt; "{error}")?,
    }
    Ok(())
}

/// Prints the type of the last expression of a function.
fn show_last_of(rt: &impl Print, function: &Function, types: &Typifier) -> Result<()> {
    match function.expressions.iter().last() {
        Some((handle, _)) => show_type_at(rt, types, handle),
        None => {
            println!(rt; "no expression")?;
            Ok(())
        }
    }
}

/// Prints the type of an expression.
fn show_type_at(rt: &impl Print, types: &Typifier, handle: Handle<Expression>) -> Result<()> {
    match types.get(handle) {
        Some(ty) => println!(rt; "{ty:?}")?,
        None => println!(rt; "no type")?,
    }
    Ok(())
}

/// Prints what is read from the contents of the last type.
fn show_contents(rt: &impl Print, module: &Module) -> Result<()> {
    match module.types.iter().last() {
        Some((_, ty)) => show_parts(rt, &ty.inner),
        None => {
            println!(rt; "no type")?;
            Ok(())
        }
    }
}

/// Prints the scalar of the contents of a type, its kind, the space of a pointer, the number of components, the size,
/// and whether the type is that of a handle.
fn show_parts(rt: &impl Print, inner: &TypeInner) -> Result<()> {
    print!(rt; "{:?}, {:?}, ", inner.scalar(), inner.scalar_kind())?;
    print!(rt; "{:?}, {:?}, ", inner.pointer_space(), inner.components())?;
    println!(rt; "{:?}, {}", inner.size(), inner.is_handle())?;
    Ok(())
}
