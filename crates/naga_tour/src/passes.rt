//! Passes in a row: a function is culled, closed and compacted.
use anyhow::{Result, bail};
use naga_proc::compact::{compact_function, cull_unreachable, operands_precede};
use naga_proc::ir::{BinaryOperator, Block, Expression, Function, Literal, Statement};
use naga_proc::{Arena, Emitter, Handle, Span, ensure_block_returns, write_block};
use std::alloc::Global;

/// Culls, closes and compacts a function, and shows it before and after each pass.
pub fn run_passes(rt: &impl Print, alloc: Global) -> Result<()> {
    println!(rt;
        "Passes: a body in the notation of blocks, its expressions, and its plain statements"
    )?;
    let mut function = Function::new(alloc);
    run_on(rt, alloc, &mut function)
}

/// Fills an empty function, which the caller owns, and runs the passes on it.
fn run_on(rt: &impl Print, alloc: Global, function: &mut Function) -> Result<()> {
    fill(alloc, function)?;
    show(rt, alloc, "built", function)?;
    cull_unreachable(&mut function.body);
    show(rt, alloc, "culled", function)?;
    ensure_block_returns(&mut function.body)?;
    show(rt, alloc, "closed", function)?;
    if !operands_precede(&function.expressions) {
        bail!("an operand does not precede its expression");
    }
    compact_function(alloc, function)?;
    show(rt, alloc, "compacted", function)
}

/// Fills the function: if the first argument is true, it discards, and a store follows that is never reached.
/// Otherwise, it stores a sum.
fn fill(alloc: Global, function: &mut Function) -> Result<()> {
    let expressions = &mut function.expressions;
    let condition = append(expressions, Expression::FunctionArgument(0))?;
    let pointer = append(expressions, Expression::FunctionArgument(1))?;
    let unused = append(expressions, Expression::Literal(Literal::U32(1)))?;
    let used = append(expressions, Expression::Literal(Literal::U32(2)))?;
    add_discard(alloc, &mut function.body, condition, pointer, unused)?;
    add_sum(function, pointer, used)
}

/// Adds the `If` that discards, and then stores.
fn add_discard(
    alloc: Global,
    body: &mut Block,
    condition: Handle<Expression>,
    pointer: Handle<Expression>,
    value: Handle<Expression>,
) -> Result<()> {
    let mut accept = Block::new(alloc);
    fill_discard(&mut accept, pointer, value)?;
    let reject = Block::new(alloc);
    let branch = Statement::If {
        condition,
        accept,
        reject,
    };
    body.push(branch, Span::UNDEFINED)?;
    Ok(())
}

/// Adds the discard, and a store that is never reached.
fn fill_discard(
    block: &mut Block,
    pointer: Handle<Expression>,
    value: Handle<Expression>,
) -> Result<()> {
    block.push(Statement::Kill, Span::UNDEFINED)?;
    block.push(Statement::Store { pointer, value }, Span::UNDEFINED)?;
    Ok(())
}

/// Stores the sum of a number and itself.
fn add_sum(
    function: &mut Function,
    pointer: Handle<Expression>,
    number: Handle<Expression>,
) -> Result<()> {
    let mut emitter = Emitter::default();
    emitter.start(&function.expressions);
    let (op, left, right) = (BinaryOperator::Add, number, number);
    let value = function
        .expressions
        .append(Expression::Binary { op, left, right }, Span::UNDEFINED)?;
    function.body.extend(emitter.finish(&function.expressions))?;
    function
        .body
        .push(Statement::Store { pointer, value }, Span::UNDEFINED)?;
    Ok(())
}

/// Appends an expression without a span.
fn append(
    expressions: &mut Arena<Expression>,
    expression: Expression,
) -> Result<Handle<Expression>> {
    Ok(expressions.append(expression, Span::UNDEFINED)?)
}

/// Shows the body of the function, how many expressions it has, and the plain statements of the body.
fn show(rt: &impl Print, alloc: Global, pass: &str, function: &Function) -> Result<()> {
    show_outline(rt, alloc, pass, function)?;
    for statement in &function.body {
        show_plain(rt, statement)?;
    }
    Ok(())
}

/// Shows the body in the notation of blocks, and how many expressions there are.
fn show_outline(rt: &impl Print, alloc: Global, pass: &str, function: &Function) -> Result<()> {
    let mut outline = String::new(alloc);
    write_block(&mut outline, &function.body)?;
    let count = function.expressions.len();
    println!(rt; "  {pass}: {outline}, {count} expressions")?;
    Ok(())
}

/// Shows a statement if it is plain.
fn show_plain(rt: &impl Print, statement: &Statement) -> Result<()> {
    if statement.is_plain() {
        println!(rt; "    {statement:?}")?;
    }
    Ok(())
}
