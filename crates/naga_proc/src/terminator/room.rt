//! Reserves space for the returns that a block is to get.
ghost use Rattle.std.specs.Prelude.{◌≡◌, ◌<◌, IfOk, IsOk, OnOk};
ghost use Rattle.naga_ir.specs.Block.{pairs, room};
ghost use Rattle.naga_ir.specs.View.{cases_of, tree_of};
ghost use Rattle.naga_proc.specs.Closing.{follows_switch};
ghost use Rattle.naga_proc.specs.Closing.Room.{CasesHaveRoom, HasRoomAtTails};

use super::rule::{Rule, leaves_open};
use naga_ir::{Block, Statement, SwitchCase};
use std::alloc::AllocError;

/// Reserves space for one push in each tail block that gets a return under `rule` and has no spare capacity. The last
/// block in a statement is visited by the last call, so that a nest in last blocks uses no stack.
///
/// Statements are unchanged, even if an allocation fails; blocks that were visited before that may then have more spare
/// capacity.
#[cycle(room)]
pub fn reserve_in_block(rule: Rule, block: &mut Block) -> Result<(), AllocError>
    ensures unchanged { tree_of block.new ≡ tree_of block.old }
    ensures room { OnOk result (HasRoomAtTails rule block.new) }
    ensures succeeds { HasRoomAtTails rule block.old → IsOk result }
{
    let Some(last) = block.last_mut() else {
        return reserve_return(block);
    };
    if let Statement::Block(inner) = last {
        return reserve_in_block(rule, inner);
    }
    if leaves_open(last) {
        return reserve_return(block);
    }
    match last {
        Statement::If { accept, reject, .. } => {
            reserve_in_block(rule, accept)?;
            reserve_in_block(rule, reject)
        }
        Statement::Switch { cases, .. } => match rule {
            Rule::Old => reserve_in_last_switch(rule, cases),
            Rule::New => {
                let follows = reserve_in_switch(rule, cases)?;
                if follows {
                    reserve_return(block)
                } else {
                    Ok(())
                }
            }
        },
        Statement::Break => Ok(()),
        Statement::Continue => Ok(()),
        Statement::Return { .. } => Ok(()),
        Statement::Kill => Ok(()),
        _ => unreachable!(),
    }
}

/// Reserves space for one push. This is not inlined, so that the way down through nested blocks saves few registers.
#[inline(never)]
fn reserve_return(block: &mut Block) -> Result<(), AllocError>
    ensures unchanged { pairs block.new ≡ pairs block.old }
    ensures room { OnOk result (0 < room block.new) }
    ensures succeeds { 0 < room block.old → IsOk result }
{
    block.reserve(1)
}

/// Reserves that space in the cases of a switch that no return follows. This is not inlined, so that the way down
/// through nested blocks saves few registers.
#[cycle(room)]
#[inline(never)]
fn reserve_in_last_switch(rule: Rule, cases: &mut Vec<SwitchCase>) -> Result<(), AllocError>
    ensures unchanged { cases_of cases.new.items ≡ cases_of cases.old.items }
    ensures room { OnOk result (CasesHaveRoom rule cases.new.items) }
    ensures succeeds { CasesHaveRoom rule cases.old.items → IsOk result }
{
    reserve_in_cases(rule, cases)
}

/// Reserves that space in the cases of a switch that a return may follow. Returns whether it does.
#[cycle(room)]
#[inline(never)]
fn reserve_in_switch(rule: Rule, cases: &mut Vec<SwitchCase>) -> Result<bool, AllocError>
    ensures follows { IfOk result (λ answer. answer ≡ follows_switch rule (cases_of cases.old.items)) }
    ensures unchanged { cases_of cases.new.items ≡ cases_of cases.old.items }
    ensures room { OnOk result (CasesHaveRoom rule cases.new.items) }
    ensures succeeds { CasesHaveRoom rule cases.old.items → IsOk result }
{
    let follows = rule.follows_switch(cases);
    reserve_in_cases(rule, cases)?;
    Ok(follows)
}

/// Reserves that space in the bodies of the cases that do not fall through. The last case is visited by the last call,
/// so that a nest of switches in their last cases uses no stack if no return follows them.
#[cycle(room)]
#[inline(always)]
fn reserve_in_cases(rule: Rule, cases: &mut Vec<SwitchCase>) -> Result<(), AllocError>
    ensures unchanged { cases_of cases.new.items ≡ cases_of cases.old.items }
    ensures room { OnOk result (CasesHaveRoom rule cases.new.items) }
    ensures succeeds { CasesHaveRoom rule cases.old.items → IsOk result }
{
    if cases.is_empty() {
        return Ok(());
    }
    let last = cases.len() - 1;
    for i in 0..last {
        let case = &mut cases[i];
        if !case.fall_through {
            reserve_in_block(rule, &mut case.body)?;
        }
    }
    let end = &mut cases[last];
    if end.fall_through {
        return Ok(());
    }
    reserve_in_block(rule, &mut end.body)
}
