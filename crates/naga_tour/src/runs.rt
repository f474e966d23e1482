//! Closing the body of `tally` by both rules, and running it before and after.
use anyhow::{Result, bail};
use naga_proc::ir::{Block, Module};
use naga_proc::{Ending, Replay, ensure_block_returns, ensure_block_returns_old, replay};
use std::alloc::Global;

/// Lists of answers with which the body is run. The answers of a list determine, in order, whether the amount is 0,
/// whether the loop is left, and which case is entered.
const ANSWERS: &[&[u32]] = &[&[1], &[0, 1, 0], &[0, 1, 1]];

/// The maximum number of turns that the loop makes.
const TURNS: u32 = 2;

/// Closes the body of the first entry point by the old rule and then by the new one, and shows its runs before and
/// after each.
pub fn close_body(rt: &impl Print, alloc: Global, module: &mut Module) -> Result<()> {
    let Some(entry_point) = module.entry_points.first_mut() else {
        bail!("there is no entry point");
    };
    let body = &mut entry_point.function.body;
    println!(rt;
        "Runs of tally, each with a list of answers: the values of its conditions and its selector"
    )?;
    show_runs(rt, alloc, body)?;
    ensure_block_returns_old(body)?;
    println!(rt;
        "The same runs after ensure_block_returns_old (naga's rule): those that fell off return, except slipped ones"
    )?;
    show_runs(rt, alloc, body)?;
    ensure_block_returns(body)?;
    println!(rt;
        "The same runs after ensure_block_returns: those that slipped out of a switch return, too"
    )?;
    show_runs(rt, alloc, body)
}

/// Shows the run of a block for each list of answers.
fn show_runs(rt: &impl Print, alloc: Global, block: &Block) -> Result<()> {
    for answers in ANSWERS {
        run_with(rt, alloc, block, answers)?;
    }
    Ok(())
}

/// Runs a block with a list of answers, and shows the run.
fn run_with(rt: &impl Print, alloc: Global, block: &Block, answers: &[u32]) -> Result<()> {
    println!(rt; "  Answers {answers:?}:")?;
    let run = replay(alloc, block, answers, TURNS)?;
    show_run(rt, &run)
}

/// Shows a run: the plain statements that it met, in order, and how it ended.
fn show_run(rt: &impl Print, run: &Replay<'_>) -> Result<()> {
    for statement in &run.trace {
        println!(rt; "    {statement:?}")?;
    }
    show_ending(rt, &run.ending, way(run.slipped), run.used)
}

/// Shows how a run ended, and how many answers it used.
fn show_ending(rt: &impl Print, ending: &Ending, way: &str, used: usize) -> Result<()> {
    println!(rt; "    ends: {ending:?}{way}. Answers used: {used}.")?;
    Ok(())
}

/// Returns the text that is added for a run that slipped out of a switch, or an empty text for other runs.
fn way(slipped: bool) -> &'static str {
    if slipped {
        ", slipped out of a switch"
    } else {
        ""
    }
}
