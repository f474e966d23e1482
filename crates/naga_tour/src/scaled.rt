//! The function `scaled`, which is built from a list of commands.
use crate::declarations::Declared;
use crate::source::span_of;
use anyhow::{Result, bail};
use naga_proc::ir::{
    BinaryOperator, Expression, Function, FunctionArgument, FunctionResult, Module, Statement,
};
use naga_proc::{BuildCommand, Built, Handle, build};
use std::alloc::Global;

/// Adds `scaled` to the module, and builds it.
pub fn add_scaled(
    rt: &impl Print,
    alloc: Global,
    module: &mut Module,
    declared: &Declared,
) -> Result<Handle<Function>> {
    println!(rt;
        "Functions: their bodies are blocks of statements, which refer to expressions by handles."
    )?;
    let span = span_of("fn scaled");
    let handle = module.functions.append(Function::new(alloc), span)?;
    fill_scaled(rt, alloc, module.functions.get_mut(handle), declared)?;
    println!(rt; "  The function scaled is {handle:?}.")?;
    Ok(handle)
}

/// Fills the function. `build` runs commands on a new arena and a new block, which then become those of the function.
fn fill_scaled(
    rt: &impl Print,
    alloc: Global,
    function: &mut Function,
    declared: &Declared,
) -> Result<()> {
    add_signature(alloc, function, declared)?;
    match build(alloc, scaled_commands(alloc, declared)?) {
        Ok(built) => {
            let shown = show_built(rt, &built);
            function.expressions = built.expressions;
            function.body = built.block;
            shown
        }
        // A command is out of turn, no handle is left, or an allocation failed.
        Err(error) => bail!("building scaled failed: {error:?}"),
    }
}

/// Shows how many expressions and statements `build` made, and which ranges were emitted.
fn show_built(rt: &impl Print, built: &Built) -> Result<()> {
    let (expressions, statements) = (built.expressions.len(), built.block.len());
    let emitted = &built.emitted;
    println!(rt;
        "  build made {expressions} expressions and {statements} statements. Emitted ranges: {emitted:?}."
    )?;
    Ok(())
}

/// Returns the commands for the body. They append an argument and a constant, whose values are available at once,
/// append their product, which an `Emit` evaluates, and push the return of the product.
fn scaled_commands(alloc: Global, declared: &Declared) -> Result<Vec<BuildCommand>> {
    let argument = Expression::FunctionArgument(0);
    let factor = Expression::Constant(declared.scale);
    let (op, left, right) = (BinaryOperator::Multiply, nth(0), nth(1));
    let product = Expression::Binary { op, left, right };
    let value = Some(nth(2));
    Ok(vec![in alloc;
        BuildCommand::Append(argument, span_of("amount: u32")),
        BuildCommand::Append(factor, span_of("SCALE;")),
        BuildCommand::Start,
        BuildCommand::Append(product, span_of("amount * SCALE")),
        BuildCommand::Finish,
        BuildCommand::Push(
            Statement::Return { value },
            span_of("return amount * SCALE;")
        ),
    ]?)
}

/// Returns the handle that the expression at this position will have. There is a handle for every 16-bit position.
fn nth(position: u16) -> Handle<Expression> {
    Handle::<Expression>::from_usize(usize::from(position)).unwrap()
}

/// Sets the name, the argument and the result of the function.
fn add_signature(alloc: Global, function: &mut Function, declared: &Declared) -> Result<()> {
    function.name = Some(String::from_str(alloc, "scaled")?);
    function.result = Some(FunctionResult {
        ty: declared.uint,
        binding: None,
    });
    function.arguments.push(FunctionArgument {
        name: Some(String::from_str(alloc, "amount")?),
        ty: declared.uint,
        binding: None,
    })?;
    Ok(())
}
