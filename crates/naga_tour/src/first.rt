//! The first code that a newcomer reads: a block is built, closed and run.
use anyhow::Result;
use naga_proc::ir::{Block, Expression, Statement, UnaryOperator};
use naga_proc::{Arena, Emitter, Span, ensure_block_returns, replay};
use std::alloc::Global;

/// The lists of answers with which the block is run.
const ANSWERS: &[&[u32]] = &[&[1], &[0]];

/// Builds `if !lit { discard; }`, closes it, and runs it twice, with the answers `true` and `false` for its condition.
pub fn close_first(rt: &impl Print, alloc: Global) -> Result<()> {
    let mut expressions = Arena::<Expression>::new(alloc);
    let mut body = Block::new(alloc);
    close_and_run(rt, alloc, &mut expressions, &mut body)
}

/// Does this in an empty arena and an empty block, which the caller owns.
fn close_and_run(
    rt: &impl Print,
    alloc: Global,
    expressions: &mut Arena<Expression>,
    body: &mut Block,
) -> Result<()> {
    println!(rt; "if !lit (discard), after closing, run with a true and with a false condition:")?;
    add_branch(alloc, expressions, body)?;
    ensure_block_returns(body)?;
    for answers in ANSWERS {
        show_ending(rt, alloc, body, answers)?;
    }
    Ok(())
}

/// Appends the condition, and adds its `Emit` and the `If` to the block.
fn add_branch(alloc: Global, expressions: &mut Arena<Expression>, body: &mut Block) -> Result<()> {
    let lit = expressions.append(Expression::FunctionArgument(0), Span::UNDEFINED)?;
    let mut emitter = Emitter::default();
    emitter.start(expressions);
    let (op, expr) = (UnaryOperator::LogicalNot, lit);
    let condition = expressions.append(Expression::Unary { op, expr }, Span::UNDEFINED)?;
    body.extend(emitter.finish(expressions))?;

    let mut accept = Block::new(alloc);
    accept.push(Statement::Kill, Span::UNDEFINED)?;
    let reject = Block::new(alloc);
    let branch = Statement::If {
        condition,
        accept,
        reject,
    };
    body.push(branch, Span::UNDEFINED)?;
    Ok(())
}

/// Runs the block with these answers, and shows how the run ends.
fn show_ending(rt: &impl Print, alloc: Global, body: &Block, answers: &[u32]) -> Result<()> {
    let run = replay(alloc, body, answers, 1)?;
    println!(rt; "  {answers:?} ends: {:?}", run.ending)?;
    Ok(())
}
