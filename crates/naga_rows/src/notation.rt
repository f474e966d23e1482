//! Bodies in the notation: misplaced jumps, what culling leaves, and runs.
use anyhow::Result;
use naga_compact::cull_unreachable;
use naga_flow::check_jumps;
use naga_ir::{Block, Function, Statement};
use naga_notation::{ShapeError, read_block, write_block};
use naga_runs::{Replay, replay};
use std::alloc::Global;

/// Prints the answer to a question about a body.
pub(crate) fn answer(rt: &impl Print, alloc: Global, question: &str, text: &str) -> Result<()> {
    match question {
        "jumps" => show_jump(rt, alloc, text),
        "cull" => show_culled(rt, alloc, text),
        "replay" => show_run(rt, alloc, text),
        _ => {
            println!(rt; "unknown question")?;
            Ok(())
        }
    }
}

/// Prints why a body was not read.
fn show_unread(rt: &impl Print, error: ShapeError) -> Result<()> {
    println!(rt; "unread: {error:?}")?;
    Ok(())
}

/// Prints the first misplaced jump of a body, or `ok`.
fn show_jump(rt: &impl Print, alloc: Global, text: &str) -> Result<()> {
    let mut function = Function::new(alloc);
    match read_block(alloc, text.as_bytes()) {
        Ok(body) => function.body = body,
        Err(error) => return show_unread(rt, error),
    }
    match check_jumps(&function) {
        Ok(()) => println!(rt; "ok")?,
        Err(misplaced) => println!(rt; "{}", misplaced.display(&function))?,
    }
    Ok(())
}

/// Prints what culling leaves of a body.
fn show_culled(rt: &impl Print, alloc: Global, text: &str) -> Result<()> {
    let mut block = match read_block(alloc, text.as_bytes()) {
        Ok(block) => block,
        Err(error) => return show_unread(rt, error),
    };
    cull_unreachable(&mut block);
    let mut left = String::new(alloc);
    write_block(&mut left, &block)?;
    println!(rt; "{left}")?;
    Ok(())
}

/// Prints a run of a body. The text is the number of turns that a loop may make, the answers with commas between them,
/// and the body.
fn show_run(rt: &impl Print, alloc: Global, text: &str) -> Result<()> {
    let (turns, rest) = text.split_once(' ').unwrap_or((text, ""));
    let (answers, body) = rest.split_once(' ').unwrap_or((rest, ""));
    let (turns, answers) = (turns.parse::<u32>()?, numbers_of(alloc, answers)?);
    match read_block(alloc, body.as_bytes()) {
        Ok(block) => show_replay(rt, alloc, &block, answers.as_slice(), turns),
        Err(error) => show_unread(rt, error),
    }
}

/// Returns the numbers of a text, which has commas between them.
fn numbers_of(alloc: Global, text: &str) -> Result<Vec<u32>> {
    let mut numbers = Vec::new(alloc);
    for number in text.split(',') {
        if !number.is_empty() {
            numbers.push(number.parse::<u32>()?)?;
        }
    }
    Ok(numbers)
}

/// Prints the run of a block: the number of plain statements that it met, its ending, the number of answers that it
/// used, and whether it slipped.
fn show_replay(
    rt: &impl Print,
    alloc: Global,
    block: &Block,
    answers: &[u32],
    turns: u32,
) -> Result<()> {
    let told = replay(alloc, block, answers, turns)?;
    let (met, used) = (told.trace.len(), told.used);
    let what = if is_plain(&told) { "met" } else { "met others" };
    let slipped = if told.slipped { ", slipped" } else { "" };
    println!(rt; "{what} {met}, {:?}, used {used}{slipped}", told.ending)?;
    Ok(())
}

/// Returns whether the last statement that a run met is the plain statement of the notation.
fn is_plain(told: &Replay<'_>) -> bool {
    match told.trace.last() {
        Some(statement) => matches!(*statement, Statement::MemoryBarrier(_)),
        None => true,
    }
}
