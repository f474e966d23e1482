//! Running a block.
ghost use Rattle.std.specs.Prelude.{◌≡◌, ◌≤◌, ◌∷◌, ◌↔◌, ℕ, [], IfOk, IfNone, IfSome, IsOk, IsTrue, false, length, true};
ghost use Rattle.naga_ir.specs.Tree.{is_plain, branch, switch};
ghost use Rattle.naga_ir.specs.View.{cases_of, node_of, tree_of};
ghost use Rattle.naga_runs.specs.Replay.{told};
ghost use Rattle.naga_runs.specs.Replay.Walking.{Walked, WalksBy};
ghost use Rattle.naga_runs.specs.Runs.{Asks, BlockRuns, CasesRun, GoesOn, LoopRuns, Run, StatementRuns, TurnRuns, entered, first_default, from, values};

use crate::run::{Ending, Replay};
use naga_arena::Handle;
use naga_ir::{Block, Control, Expression, Statement, SwitchCase};
use std::alloc::{AllocError, Global};

/// Runs a block with a list of answers, where each loop makes at most `turns` turns each time it is entered.
///
/// The answers are read in order. At a condition and at a loop's `break_if`, 0 means `false` and any other answer means
/// `true`. At a selector, an answer is the position of the case to enter, counted from 0. An answer that is not the
/// position of a case enters the first default case, or no case if there is no default. A run that needs an answer when
/// none is left is cut.
///
/// Nothing is copied: the trace refers to the block's own statements. Memory is allocated only for the trace, so the
/// call cannot fail if the run meets no plain statement.
///
/// Differs from naga: naga has no such function.
pub fn replay<'a>(
    alloc: Global,
    block: &'a Block,
    answers: &[u32],
    turns: u32,
) -> Result<Replay<'a>, AllocError>
    ensures told { IfOk result (λ replay. BlockRuns turns (tree_of block.now) answers.now (told replay)) }
    ensures succeeds { (run : Run)
        → BlockRuns turns (tree_of block.now) answers.now run → run.trace ≡ [] → IsOk result }
{
    let mut walk = Walk {
        trace: Vec::new(alloc),
        answers,
    };
    let stop = walk.run_block(block, turns)?;
    let Walk {
        trace,
        answers: unread,
    } = walk;
    Ok(Replay {
        trace,
        ending: stop.ending,
        used: answers.len() - unread.len(),
        slipped: stop.slipped,
    })
}

/// The way a part of a run ended.
#[derive(Clone, Copy)]
struct Stop {
    ending: Ending,
    slipped: bool,
}

impl Stop {
    fn at(ending: Ending) -> Self
        ensures { result ≡ record { ending = ending; slipped = false } }
    {
        Stop {
            ending,
            slipped: false,
        }
    }

    fn out_of_switch() -> Self
        ensures { result ≡ record { ending = Ending.Normal; slipped = true } }
    {
        Stop {
            ending: Ending::Normal,
            slipped: true,
        }
    }
}

/// A run in progress: the statements that it has met, and the answers that it has not read yet.
#[derive(Drop)]
struct Walk<'a, 'b> {
    trace: Vec<&'a Statement>,
    answers: &'b [u32],
}

impl<'a> Walk<'a, '_> {
    /// Runs the statements of a block in order, until one of them does not end normally.
    #[cycle(walk)]
    fn run_block(&mut self, block: &'a Block, turns: u32) -> Result<Stop, AllocError>
        ensures { WalksBy (BlockRuns turns (tree_of block.now)) self.old self.new result }
    {
        let mut stop = Stop::at(Ending::Normal);
        'statements: for statement in block {
            stop = self.run_statement(statement, turns)?;
            if stop.ending != Ending::Normal {
                return Ok(stop);
            }
        }
        Ok(stop)
    }

    #[cycle(walk)]
    fn run_statement(&mut self, statement: &'a Statement, turns: u32) -> Result<Stop, AllocError>
        ensures { WalksBy (StatementRuns turns (node_of statement.now)) self.old self.new result }
    {
        match statement.control() {
            Control::Plain => self.meet(statement),
            Control::Block(inner) => self.run_block(inner, turns),
            Control::If { accept, reject, .. } => self.run_branch(accept, reject, turns),
            Control::Switch { cases, .. } => self.run_switch(cases, turns),
            Control::Loop {
                body,
                continuing,
                break_if,
            } => self.run_loop(body, continuing, &break_if, turns),
            Control::Break => Ok(Stop::at(Ending::Break)),
            Control::Continue => Ok(Stop::at(Ending::Continue)),
            Control::Return { value } => Ok(Stop::at(Ending::Return(value))),
            Control::Kill => Ok(Stop::at(Ending::Kill)),
        }
    }

    /// Adds a plain statement to the trace. Precondition: the statement is plain.
    fn meet(&mut self, statement: &'a Statement) -> Result<Stop, AllocError>
        requires { IsTrue (is_plain (node_of statement.now)) }
        ensures { (turns : ℕ) → WalksBy (StatementRuns turns (node_of statement.now)) self.old self.new result }
    {
        self.trace.push(statement)?;
        Ok(Stop::at(Ending::Normal))
    }

    /// Runs the branch that the next answer chooses.
    #[cycle(walk)]
    fn run_branch(
        &mut self,
        accept: &'a Block,
        reject: &'a Block,
        turns: u32,
    ) -> Result<Stop, AllocError>
        ensures { (condition : ℕ)
            → let statement = branch condition (tree_of accept.now) (tree_of reject.now)
            in WalksBy (StatementRuns turns statement) self.old self.new result }
    {
        match self.next_answer() {
            None => Ok(Stop::at(Ending::Cut)),
            Some(0) => self.run_block(reject, turns),
            Some(_) => self.run_block(accept, turns),
        }
    }

    /// Runs the cases of a switch, starting with the one that the next answer enters.
    #[cycle(walk)]
    fn run_switch(&mut self, cases: &'a [SwitchCase], turns: u32) -> Result<Stop, AllocError>
        ensures { (selector : ℕ)
            → WalksBy (StatementRuns turns (switch selector (cases_of cases.now))) self.old self.new result }
    {
        match self.next_answer() {
            None => Ok(Stop::at(Ending::Cut)),
            Some(answer) => self.run_cases(entered_cases(cases, answer), turns),
        }
    }

    /// Runs the bodies of these cases, starting with the first one, while they end normally and fall through.
    #[cycle(walk)]
    fn run_cases(&mut self, cases: &'a [SwitchCase], turns: u32) -> Result<Stop, AllocError>
        ensures { WalksBy (CasesRun turns (cases_of cases.now)) self.old self.new result }
    {
        'cases: for case in cases {
            let stop = self.run_block(&case.body, turns)?;
            match stop.ending {
                Ending::Break => return Ok(Stop::out_of_switch()),
                Ending::Normal if case.fall_through => {}
                _ => return Ok(stop),
            }
        }
        Ok(Stop::out_of_switch())
    }

    /// Runs the turns of a loop.
    #[cycle(walk)]
    fn run_loop(
        &mut self,
        body: &'a Block,
        continuing: &'a Block,
        break_if: &Option<Handle<Expression>>,
        turns: u32,
    ) -> Result<Stop, AllocError>
        ensures { WalksBy (LoopRuns turns turns (tree_of body.now) (tree_of continuing.now) break_if.now)
            self.old self.new result }
    {
        'each: for _turn in 0..turns {
            let stop = self.run_turn(body, continuing, break_if, turns)?;
            match stop.ending {
                Ending::Normal => {}
                Ending::Break => return Ok(Stop::at(Ending::Normal)),
                _ => return Ok(stop),
            }
        }
        Ok(Stop::at(Ending::Cut))
    }

    /// Runs one turn of a loop. It ends normally if another turn may follow, and with a break if the loop is left.
    #[cycle(walk)]
    fn run_turn(
        &mut self,
        body: &'a Block,
        continuing: &'a Block,
        break_if: &Option<Handle<Expression>>,
        turns: u32,
    ) -> Result<Stop, AllocError>
        ensures { WalksBy (TurnRuns turns (tree_of body.now) (tree_of continuing.now) break_if.now)
            self.old self.new result }
    {
        let stop = self.run_block(body, turns)?;
        if !goes_on(stop.ending) {
            return Ok(stop);
        }
        let stop = self.run_block(continuing, turns)?;
        if !goes_on(stop.ending) {
            return Ok(stop);
        }
        Ok(self.ask(break_if))
    }

    /// Reads an answer for the break condition of a loop, if there is one. An answer other than 0 breaks.
    fn ask(&mut self, break_if: &Option<Handle<Expression>>) -> Stop
        ensures { Walked (Asks break_if.now) self.old self.new result }
    {
        if break_if.is_none() {
            return Stop::at(Ending::Normal);
        }
        match self.next_answer() {
            None => Stop::at(Ending::Cut),
            Some(0) => Stop::at(Ending::Normal),
            Some(_) => Stop::at(Ending::Break),
        }
    }

    /// Reads and returns the next answer, or returns `None` if none is left.
    fn next_answer(&mut self) -> Option<u32>
        ensures trace { self.new.trace ≡ self.old.trace }
        ensures none { IfNone result ((self.old.answers.now ≡ []) × (self.new.answers.now ≡ [])) }
        ensures some { IfSome result (λ answer. self.old.answers.now ≡ answer ∷ self.new.answers.now) }
    {
        let (answer, unread) = self.answers.split_first()?;
        self.answers = unread;
        Some(*answer)
    }
}

/// Returns whether a turn of a loop goes on after a block with this ending.
fn goes_on(ending: Ending) -> bool
    ensures { IsTrue result ↔ GoesOn ending }
{
    matches!(ending, Ending::Normal | Ending::Continue)
}

/// Returns the cases starting with the one that `answer` enters, or no cases if it enters none.
fn entered_cases(cases: &[SwitchCase], answer: u32) -> &[SwitchCase]
    ensures { cases_of result.now ≡ from (entered (values (cases_of cases.now)) answer) (cases_of cases.now) }
{
    let named = answer as usize;
    if named < cases.len() {
        return &cases[named..];
    }
    &cases[default_position(cases)..]
}

/// Returns the position of the first default case, or the number of cases if there is none.
fn default_position(cases: &[SwitchCase]) -> usize
    ensures position { result ≡ first_default (values (cases_of cases.now)) }
    ensures within { result ≤ length cases.now }
{
    for i in 0..cases.len() {
        if cases[i].value.is_default() {
            return i;
        }
    }
    cases.len()
}
