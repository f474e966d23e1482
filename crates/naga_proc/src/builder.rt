//! Builds an arena of expressions and a block from a list of commands.
ghost use Rattle.std.specs.Prelude.{◌≡◌, ◌≤◌, ◌++◌, ◌∷◌, [], length, filter, None, Some, IsSomeAnd, IfSome, IfOk, IfErr, OnOk, option_to_list};
ghost use Rattle.naga_ir.specs.Block.{pairs};
ghost use Rattle.naga_proc.specs.Building.Emission.{is_filled, emission};
ghost use Rattle.naga_proc.specs.Building.{appended, emitted, listed, IsInTurn, Refused};

use crate::emitter::{Emitter, emit};
use naga_arena::{Arena, ArenaError, Range, Span};
use naga_ir::{Block, Expression, Statement};
use std::alloc::{AllocError, Global};

/// A command of [`build`].
#[derive(Debug, Drop)]
pub enum BuildCommand {
    /// Starts the emitter, which must not be running.
    Start,
    /// Appends an expression to the arena.
    Append(Expression, Span),
    /// Stops the emitter, which must be running, and appends the statement that it returns, if any, to the block.
    Finish,
    /// Appends a statement to the block.
    Push(Statement, Span),
}

/// The result of [`build`].
#[must_use]
#[derive(Debug, Drop)]
pub struct Built {
    /// The expressions that were appended.
    pub expressions: Arena<Expression>,
    /// The statements that were pushed, and those that the emitter returned.
    pub block: Block,
    /// The ranges that the emitter's statements emit.
    pub emitted: Vec<Range<Expression>>,
}

/// The error returned by [`build`].
#[derive(Clone, Copy, Debug, PartialEq, Eq)]
pub enum BuildError {
    /// The command at this position, counted from 0, starts the emitter while it is running.
    AlreadyRunning(usize),
    /// The command at this position, counted from 0, finishes the emitter while it is not running.
    NotRunning(usize),
    /// The arena is full: there is no handle for another expression.
    Full,
    /// An allocation failed.
    Memory,
}

impl From<AllocError> for BuildError {
    ghost use Rattle.naga_proc.specs.declared.builder.BuildError.TheVariants.{Memory};

    ghost from_gives = { λ _ e. e ≡ Memory };

    fn from(_error: AllocError) -> BuildError {
        BuildError::Memory
    }
}

impl From<ArenaError> for BuildError {
    ghost use Rattle.naga_proc.specs.Building.{refusal_of};

    ghost from_gives = { λ error given. given ≡ refusal_of error };

    fn from(error: ArenaError) -> BuildError {
        match error {
            ArenaError::Full => BuildError::Full,
            ArenaError::Memory => BuildError::Memory,
        }
    }
}

/// Runs the commands in order, starting with an empty arena, an empty block and an emitter that is not running.
///
/// Returns `Err` with the position of the first command that is out of turn, unless an earlier command fails because
/// the arena is full or an allocation fails. A command is out of turn if it is a `Start` while the emitter is running,
/// or a `Finish` while it is not.
///
/// If the emitter is still running after the last command, the expressions appended since its start are in the arena,
/// but in no emitted range.
pub fn build(alloc: Global, commands: Vec<BuildCommand>) -> Result<Built, BuildError>
    ensures in_turn { OnOk result (IsInTurn commands.items (length commands.items)) }
    ensures expressions { IfOk result (λ built. built.expressions ≡ appended commands.items) }
    ensures block { IfOk result (λ built. pairs built.block ≡ listed commands.items) }
    ensures emitted { IfOk result (λ built. built.emitted.items ≡ emitted commands.items) }
    ensures refused { IfErr result (Refused commands.items) }
{
    let mut built = Built {
        expressions: Arena::new(alloc),
        block: Block::new(alloc),
        emitted: Vec::new(alloc),
    };
    let mut emitter = Emitter::default();
    'commands: for (position, command) in commands.into_iter().enumerate() {
        match command {
            BuildCommand::Start => {
                if emitter.is_running() {
                    return Err(BuildError::AlreadyRunning(position));
                }
                emitter.start(&built.expressions);
            }
            BuildCommand::Append(expression, span) => {
                built.expressions.append(expression, span)?;
            }
            BuildCommand::Finish => {
                if !emitter.is_running() {
                    return Err(BuildError::NotRunning(position));
                }
                finish(&mut built, &mut emitter)?;
            }
            BuildCommand::Push(statement, span) => {
                built.block.push(statement, span)?;
            }
        }
    }
    Ok(built)
}

/// Stops the emitter. If it returns a statement, appends the statement to the block and its range to `emitted`.
///
/// Preconditions: the emitter is running, and the arena is at least as long as it was when the emitter was started.
fn finish(built: &mut Built, emitter: &mut Emitter) -> Result<(), AllocError>
    requires { IsSomeAnd emitter.old (λ start. start ≤ length built.old.expressions) }
    ensures stopped { emitter.new ≡ None }
    ensures expressions { built.new.expressions ≡ built.old.expressions }
    ensures block { OnOk result (IfSome emitter.old (λ start. pairs built.new.block
        ≡ pairs built.old.block
        ++ option_to_list (emission built.old.expressions (start, length built.old.expressions)))) }
    ensures emitted { OnOk result (IfSome emitter.old (λ start. built.new.emitted.items
        ≡ built.old.emitted.items ++ filter is_filled ((start, length built.old.expressions) ∷ []))) }
{
    let Some(range) = emitter.take_range(&built.expressions) else {
        return Ok(());
    };
    built.emitted.push(range.clone()?)?;
    let (emit, span) = emit(range, &built.expressions);
    built.block.push(emit, span)
}
