//! Workloads on operations on blocks.
use crate::fault::Fault;
use crate::item::{mixed, span};
use crate::returns::condition;
use crate::sample::{Sample, now, since};
use naga_arena::{Range, Span};
use naga_ir::{Block, Expression, Literal, Statement};
use naga_proc::{BuildCommand, build, replay, reshape};
use std::alloc::{AllocError, Global};

/// Appends a command.
fn put(commands: &mut Vec<BuildCommand>, command: BuildCommand) -> Result<(), AllocError> {
    commands.push(command)?;
    Ok(())
}

/// Returns the commands that append `size` expressions, each between a start and a finish of the emitter.
fn commands_of(alloc: Global, size: u32) -> Result<Vec<BuildCommand>, AllocError> {
    let mut commands = Vec::new(alloc);
    for number in 0..size {
        let literal = Expression::Literal(Literal::U32(number));
        put(&mut commands, BuildCommand::Start)?;
        put(&mut commands, BuildCommand::Append(literal, span(number)))?;
        put(&mut commands, BuildCommand::Finish)?;
    }
    Ok(commands)
}

/// Times building an arena, and a block of as many `Emit` statements.
pub fn on_commands(rt: &HostRuntime, size: u32) -> Result<Sample, Fault> {
    let commands = commands_of(rt.alloc(), size)?;
    let start = now(rt);
    let built = build(rt.alloc(), commands);
    let time = since(rt, start);
    match built {
        Ok(built) => Sample::of(
            size,
            Ok(built.expressions.len() as u64),
            built.block.len() as u64,
            time,
        ),
        Err(_) => Err(Fault::Memory),
    }
}

/// Returns a block that contains a loop. Each turn of the loop meets one plain statement, and then reads an answer for
/// `break_if`.
fn loop_of(alloc: Global) -> Result<Block, AllocError> {
    let mut body = Block::new(alloc);
    let emit = Statement::Emit(Range::<Expression>::up_to(1));
    body.push(emit, Span::UNDEFINED)?;
    let turned = Statement::Loop {
        body,
        continuing: Block::new(alloc),
        break_if: Some(condition()),
    };
    let mut block = Block::new(alloc);
    block.push(turned, Span::UNDEFINED)?;
    Ok(block)
}

/// Times replaying a loop of `size` turns.
pub fn on_loop(rt: &HostRuntime, size: u32) -> Result<Sample, Fault> {
    let answers = vec![in rt.alloc(); 0_u32; size as usize]?;
    let block = loop_of(rt.alloc())?;
    let start = now(rt);
    let run = replay(rt.alloc(), &block, answers.as_slice(), size);
    let time = since(rt, start);
    match run {
        Ok(run) => Sample::of(size, Ok(run.used as u64), run.trace.len() as u64, time),
        Err(_) => Err(Fault::Memory),
    }
}

/// Times reading a line of `size` groups of nine bytes, inserting returns, and writing the line.
pub fn on_line(rt: &HostRuntime, size: u32) -> Result<Sample, Fault> {
    let text = "{p}i{k}{}".repeat(rt.alloc(), size as usize)?;
    let start = now(rt);
    let answer = reshape(rt.alloc(), text.as_str());
    let time = since(rt, start);
    match answer {
        Ok(answer) => Sample::of(size, Ok(text.len() as u64), answer.len() as u64, time),
        Err(_) => Err(Fault::Memory),
    }
}
