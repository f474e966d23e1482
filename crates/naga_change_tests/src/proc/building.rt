//! Lists of commands, each with what it builds or the error of building it, and the emitter by itself.
use naga_arena::{Arena, Span};
use naga_ir::{Barrier, Block, Expression, Flags, Statement};
use naga_proc::{BuildCommand, BuildError, Built, Emitter, build};
use std::alloc::{AllocError, Global};

/// A command, with a fixed expression or statement.
enum Step {
    Start,
    Append(u32, u32),
    Finish,
    Push(u32, u32),
}

use Step::{Append, Finish, Push, Start};

/// Returns the expression of every append.
fn expression() -> Expression {
    Expression::RayQueryProceedResult
}

/// Returns the command of a step.
fn command(step: &Step) -> BuildCommand {
    match *step {
        Start => BuildCommand::Start,
        Append(start, end) => BuildCommand::Append(expression(), Span::new(start, end)),
        Finish => BuildCommand::Finish,
        Push(start, end) => {
            let barrier = Statement::MemoryBarrier(Barrier::empty());
            BuildCommand::Push(barrier, Span::new(start, end))
        }
    }
}

/// Returns the commands of these steps.
fn commands(alloc: Global, steps: &[Step]) -> Result<Vec<BuildCommand>, AllocError> {
    let mut commands = Vec::with_capacity(alloc, steps.len())?;
    for step in steps {
        commands.push(command(step))?;
    }
    Ok(commands)
}

/// Appends the statements of a block to `text`, each with its span: `p` for a push, and the range for an emit.
fn list(text: &mut String, block: &Block) -> Result<(), AllocError> {
    for (statement, span) in block.span_iter() {
        let Span { start, end } = *span;
        match statement {
            Statement::Emit(range) => write!(text, "{range:?}{start}..{end} ")?,
            _ => write!(text, "p{start}..{end} ")?,
        }
    }
    Ok(())
}

/// Appends the statements, the number of expressions, and the emitted ranges to `text`.
fn show(text: &mut String, built: &Built) -> Result<(), AllocError> {
    let (len, emitted) = (built.expressions.len(), &built.emitted);
    list(text, &built.block)?;
    write!(text, "of {len}, {emitted:?}")
}

/// Returns whether this was built. Also returns `true` if out of memory for the text.
fn is(alloc: Global, built: &Built, want: &str) -> bool {
    let mut text = String::new(alloc);
    match show(&mut text, built) {
        Ok(()) => text.as_str() == want,
        Err(AllocError) => true,
    }
}

/// Returns whether building the steps has this result.
fn gives(alloc: Global, steps: &[Step], want: Result<&str, BuildError>) -> bool {
    let Ok(commands) = commands(alloc, steps) else {
        return false;
    };
    match build(alloc, commands) {
        Ok(built) => match want {
            Ok(want) => is(alloc, &built, want),
            Err(_) => false,
        },
        Err(error) => want == Err(error),
    }
}

/// Lists of commands, each with what it builds, or with its first command out of turn.
const RESULTS: &[(&[Step], Result<&str, BuildError>)] = &[
    (
        &[
            Append(1, 2),
            Append(1, 2),
            Append(1, 2),
            Start,
            Append(4, 6),
            Append(1, 2),
            Finish,
        ],
        Ok("[3..5]1..6 of 5, [[3..5]]"),
    ),
    (
        &[Start, Append(1, 3), Push(5, 6), Append(0, 0), Finish],
        Ok("p5..6 [0..2]1..3 of 2, [[0..2]]"),
    ),
    (
        &[
            Start,
            Append(1, 2),
            Finish,
            Append(3, 4),
            Start,
            Append(5, 6),
            Finish,
        ],
        Ok("[0..1]1..2 [2..3]5..6 of 3, [[0..1], [2..3]]"),
    ),
    (&[Start, Finish], Ok("of 0, []")),
    (&[Start, Append(1, 2)], Ok("of 1, []")),
    (&[], Ok("of 0, []")),
    (&[Finish], Err(BuildError::NotRunning(0))),
    (&[Start, Start], Err(BuildError::AlreadyRunning(1))),
    (&[Start, Finish, Finish], Err(BuildError::NotRunning(2))),
];

#[test]
fn commands_are_carried_out_or_out_of_turn(rt: HostRuntime) {
    for (steps, want) in RESULTS {
        assert!(rt; gives(rt.alloc(), steps, *want));
    }
}

/// Appends what an emitter emits for one expression, and returns whether the emitter stopped.
fn emits_one(arena: &mut Arena<Expression>, block: &mut Block) -> bool {
    let mut emitter = Emitter::default();
    emitter.start(arena);
    let started = emitter.is_running() && arena.append(expression(), Span::new(3, 9)).is_ok();
    let emitted = block.extend(emitter.finish(arena)).is_ok();
    started && emitted && !emitter.is_running()
}

#[test]
fn an_emitter_emits_what_is_appended(rt: HostRuntime) {
    let alloc = rt.alloc();
    let (mut arena, mut block) = (Arena::new(alloc), Block::new(alloc));
    assert!(rt; emits_one(&mut arena, &mut block));
    let mut text = String::new(alloc);
    assert!(rt; list(&mut text, &block).is_ok());
    assert!(rt; text.as_str() == "[0..1]3..9 ");
}

/// Allocations that fail while commands are run.
mod refusals {
    use super::*;

    #[test]
    fn commands_are_carried_out_or_want_memory(rt: HostRuntime) {
        let alloc = rt.alloc();
        let Ok(commands) = commands(
            alloc,
            &[Start, Append(1, 3), Push(5, 6), Append(2, 4), Finish],
        ) else {
            return;
        };
        match build(alloc, commands) {
            Ok(built) => assert!(rt; is(alloc, &built, "p5..6 [0..2]1..4 of 2, [[0..2]]")),
            Err(error) => assert!(rt; error == BuildError::Memory),
        }
    }
}
