//! Inserting returns at the ends of blocks.
ghost use Rattle.std.specs.Prelude.{◌≡◌, ◌++◌, ◌∷◌, ◌<◌, [], true, None, IsOk, OnOk, OnErr};
ghost use Rattle.naga_arena.specs.Span.{undefined};
ghost use Rattle.naga_ir.specs.Block.{pairs, room};
ghost use Rattle.naga_ir.specs.View.{cases_of, tree_of};
ghost use Rattle.naga_ir.specs.declared.statement.Statement.TheVariants.{Return};
ghost use Rattle.naga_proc.specs.Closing.{Between, CaseTailsAre, Closed, ClosedBy, FullyClosed, GetsReturn, follows, follows_switch, goes_straight_through};
ghost use Rattle.naga_proc.specs.Closing.FallenRuns.{Fallen};
ghost use Rattle.naga_proc.specs.Closing.KeptRuns.{Spared, Turned};
ghost use Rattle.naga_proc.specs.Closing.Room.{CasesHaveRoom, HasRoomAtTails};
ghost use Rattle.naga_runs.specs.RunsFit.{NeverFallsOff};

mod bodies;
mod module;
mod one_walk;
mod room;
mod rule;

pub use module::{close_module, reserve_module_returns};
use naga_arena::Span;
use naga_ir::{Block, Statement, SwitchCase};
use one_walk::{Walk, take_back, walk_block};
use room::reserve_in_block;
pub use rule::Rule;
use rule::leaves_open;
use std::alloc::AllocError;

/// Inserts a return at the end of each tail block that control may fall off.
///
/// The return has no value and the undefined span. Nothing else is changed. Once the returns are inserted, no run of
/// the block falls off its end.
///
/// A block is a tail block of itself. If a tail block ends in a nested block, an `If` or a `Switch`, the blocks of that
/// statement are tail blocks, too, except the bodies of cases that fall through. A tail block gets a return if it is
/// empty, or ends in a `Loop`, in a statement that neither contains blocks nor jumps, or in a `Switch` that has an
/// exit. A switch has an exit if it has no `Default` among its cases, if its last case falls through, or if a `Break`
/// leaves it. The return after such a switch is inserted even if no run reaches it.
///
/// If allocation fails, the statements are unchanged, in nested blocks too; there may only be more spare capacity. If a
/// second call then returns `Ok`, the block is the same as if the first call had returned `Ok`. The call cannot fail if
/// each block that gets a return has spare capacity for one push.
///
/// Differs from naga: naga's function returns nothing, because its blocks allocate implicitly, and it inserts no return
/// after a `Switch`. The function that inserts the same returns here is [`ensure_block_returns_old`].
#[tactic(auto, using(crate::proofs::Closing::FallenLemmas::fallen_runs))]
pub fn ensure_block_returns(block: &mut Block) -> Result<(), AllocError>
    ensures closed { OnOk result (FullyClosed (tree_of block.old) (tree_of block.new)) }
    ensures fallen { OnOk result (Fallen (tree_of block.old) (tree_of block.new)) }
    ensures never { OnOk result (NeverFallsOff (tree_of block.new)) }
    ensures unchanged { OnErr result (tree_of block.new ≡ tree_of block.old) }
    ensures succeeds { HasRoomAtTails Rule.New block.old → IsOk result }
{
    ensure_block_returns_by(block, Rule::New)
}

/// Inserts a return at the end of each open tail block, as naga's `ensure_block_returns` does.
///
/// The return has no value and the undefined span. Nothing else is changed.
///
/// Tail blocks are those of [`ensure_block_returns`], and what is said there about failed allocations applies here,
/// too. A tail block is open if it is empty, or ends in a `Loop` or in a statement that neither contains blocks nor
/// jumps. Nothing is inserted after a `Switch` that ends a block, although a `Break` in it, or a selector that matches
/// no case, leads past it.
#[tactic(auto, using(crate::proofs::Closing::TurnedLemmas::turned_runs, crate::proofs::Closing::BetweenLemmas::between_itself))]
pub fn ensure_block_returns_old(block: &mut Block) -> Result<(), AllocError>
    ensures closed { OnOk result (Closed (tree_of block.old) (tree_of block.new)) }
    ensures turned { OnOk result (Turned (tree_of block.old) (tree_of block.new)) }
    ensures between { OnErr result (Between (tree_of block.old) (tree_of block.new)) }
    ensures spared { OnErr result (Spared (tree_of block.old) (tree_of block.new)) }
    ensures unchanged { OnErr result (tree_of block.new ≡ tree_of block.old) }
    ensures succeeds { HasRoomAtTails Rule.Old block.old → IsOk result }
{
    ensure_block_returns_by(block, Rule::Old)
}

/// Inserts a return at the end of each tail block that gets one under `rule`.
///
/// [`ensure_block_returns`] is this call with [`Rule::New`], and [`ensure_block_returns_old`] is this call with
/// [`Rule::Old`]. The return has no value and the undefined span. Nothing else is changed. Tail blocks are those of
/// [`ensure_block_returns`], and what is said there about failed allocations applies here, too.
///
/// Differs from naga: naga has no such function.
#[cycle(ensure_block_returns_by)]
pub fn ensure_block_returns_by(block: &mut Block, rule: Rule) -> Result<(), AllocError>
    ensures closed { OnOk result (ClosedBy rule (tree_of block.old) (tree_of block.new)) }
    ensures unchanged { OnErr result (tree_of block.new ≡ tree_of block.old) }
    ensures succeeds { HasRoomAtTails rule block.old → IsOk result }
{
    let Some(last) = block.last_mut() else {
        return add_return(block);
    };
    match last {
        Statement::Block(inner) => ensure_block_returns_by(inner, rule),
        Statement::Switch { cases, .. } if rule.goes_straight_through(cases) => {
            ensure_only_case_returns(rule, cases)
        }
        _ => ensure_end_returns(rule, block),
    }
}

/// Inserts the returns of a switch that no return follows and that has one case, which does not fall through.
///
/// Precondition: the switch is of this kind.
#[cycle(ensure_block_returns_by)]
#[inline(always)]
fn ensure_only_case_returns(rule: Rule, cases: &mut Vec<SwitchCase>) -> Result<(), AllocError>
    requires { goes_straight_through rule (cases_of cases.old.items) ≡ true }
    ensures closed { OnOk result (CaseTailsAre (follows rule) GetsReturn (cases_of cases.old.items) (cases_of cases.new.items)) }
    ensures unchanged { OnErr result (cases_of cases.new.items ≡ cases_of cases.old.items) }
    ensures succeeds { CasesHaveRoom rule cases.old.items → IsOk result }
{
    ensure_block_returns_by(&mut cases[0].body, rule)
}

/// Inserts the returns of a block at whose end control flow branches or stops. Until control flow branches, there is at
/// most one push, and nothing else that can fail.
fn ensure_end_returns(rule: Rule, block: &mut Block) -> Result<(), AllocError>
    ensures closed { OnOk result (ClosedBy rule (tree_of block.old) (tree_of block.new)) }
    ensures unchanged { OnErr result (tree_of block.new ≡ tree_of block.old) }
    ensures succeeds { HasRoomAtTails rule block.old → IsOk result }
{
    let Some(last) = block.last() else {
        return add_return(block);
    };
    if leaves_open(last) {
        return add_return(block);
    }
    put_where_ways_part(rule, block)
}

/// Reserves space for one push in each tail block that gets a return under `rule`.
///
/// Statements are unchanged, even if an allocation fails.
///
/// After `Ok`, [`close_block`] with the same rule can be called. [`ensure_block_returns_by`] with the same rule cannot
/// fail then, and neither can the call without a parameter `rule` that uses this rule. So a caller can reserve space in
/// many blocks, and then insert the returns into all of them or, if an allocation fails, into none, as [`close_module`]
/// does. This function cannot fail if the spare capacity is already there.
///
/// Differs from naga: naga has no such function.
pub fn reserve_returns(block: &mut Block, rule: Rule) -> Result<(), AllocError>
    ensures unchanged { tree_of block.new ≡ tree_of block.old }
    ensures room { OnOk result (HasRoomAtTails rule block.new) }
    ensures succeeds { HasRoomAtTails rule block.old → IsOk result }
{
    reserve_in_block(rule, block)
}

/// Inserts the returns in one walk. If an allocation fails, those that were inserted are taken away again. If the walk
/// left returns out, because it passed one that looks like them, it has reserved space, and a second walk inserts them.
#[inline(never)]
fn put_where_ways_part(rule: Rule, block: &mut Block) -> Result<(), AllocError>
    ensures closed { OnOk result (ClosedBy rule (tree_of block.old) (tree_of block.new)) }
    ensures unchanged { OnErr result (tree_of block.new ≡ tree_of block.old) }
    ensures succeeds { HasRoomAtTails rule block.old → IsOk result }
{
    let mut walk = Walk::start();
    walk_block(&mut walk, rule, block);
    if walk.failed {
        take_back(&mut walk.pushed, block);
        return Err(AllocError);
    }
    if walk.owes {
        close_block(block, rule);
    }
    Ok(())
}

/// Inserts a return at the end of each tail block that gets one under `rule`, where the space for them is reserved.
///
/// The returns are those of [`ensure_block_returns_by`]. Nothing is allocated, and the call cannot fail.
///
/// The caller must ensure that each tail block that gets a return has spare capacity for one push, as after
/// [`reserve_returns`] with the same rule.
///
/// Differs from naga: naga has no such function.
// The last block in a statement is closed by the last call, so that a nest in last blocks uses no stack. Whether a block
// ends in a nested block is tested first, which makes that way down short.
#[cycle(terminator)]
pub fn close_block(block: &mut Block, rule: Rule)
    requires { HasRoomAtTails rule block.old }
    ensures { ClosedBy rule (tree_of block.old) (tree_of block.new) }
{
    let Some(last) = block.last_mut() else {
        return push_return(block);
    };
    if let Statement::Block(inner) = last {
        return close_block(inner, rule);
    }
    if leaves_open(last) {
        return push_return(block);
    }
    match last {
        Statement::If { accept, reject, .. } => {
            close_block(accept, rule);
            close_block(reject, rule)
        }
        Statement::Switch { cases, .. } => match rule {
            Rule::Old => close_last_switch(rule, cases),
            Rule::New => {
                if close_switch(rule, cases) {
                    push_return(block)
                }
            }
        },
        Statement::Break => {}
        Statement::Continue => {}
        Statement::Return { .. } => {}
        Statement::Kill => {}
        _ => unreachable!(),
    }
}

/// Closes the cases of a switch that no return follows. This is not inlined, so that the way down through nested blocks
/// saves few registers.
///
/// Precondition: each tail block in these cases that gets a return has spare capacity for one push.
#[cycle(terminator)]
#[inline(never)]
fn close_last_switch(rule: Rule, cases: &mut Vec<SwitchCase>)
    requires { CasesHaveRoom rule cases.old.items }
    ensures { CaseTailsAre (follows rule) GetsReturn (cases_of cases.old.items) (cases_of cases.new.items) }
{
    close_cases(rule, cases)
}

/// Closes the cases of a switch that a return may follow. Returns whether it does.
///
/// Precondition: each tail block in these cases that gets a return has spare capacity for one push.
#[cycle(terminator)]
#[inline(never)]
fn close_switch(rule: Rule, cases: &mut Vec<SwitchCase>) -> bool
    requires { CasesHaveRoom rule cases.old.items }
    ensures follows { result ≡ follows_switch rule (cases_of cases.old.items) }
    ensures closed { CaseTailsAre (follows rule) GetsReturn (cases_of cases.old.items) (cases_of cases.new.items) }
{
    let follows = rule.follows_switch(cases);
    close_cases(rule, cases);
    follows
}

/// Closes the bodies of the cases that do not fall through. The last case is closed by the last call, so that a nest of
/// switches in their last cases uses no stack if no return follows them.
///
/// Precondition: each tail block in these bodies that gets a return has spare capacity for one push.
#[cycle(terminator)]
#[inline(always)]
fn close_cases(rule: Rule, cases: &mut Vec<SwitchCase>)
    requires { CasesHaveRoom rule cases.old.items }
    ensures { CaseTailsAre (follows rule) GetsReturn (cases_of cases.old.items) (cases_of cases.new.items) }
{
    if cases.is_empty() {
        return;
    }
    let last = cases.len() - 1;
    for i in 0..last {
        let case = &mut cases[i];
        if !case.fall_through {
            close_block(&mut case.body, rule);
        }
    }
    let end = &mut cases[last];
    if !end.fall_through {
        close_block(&mut end.body, rule);
    }
}

/// Appends a return to a block. This is not inlined, so that the way down through nested blocks saves few registers.
///
/// Precondition: the block has spare capacity for one push.
#[inline(never)]
fn push_return(block: &mut Block)
    requires { 0 < room block.old }
    ensures { pairs block.new ≡ pairs block.old ++ (Return None, undefined) ∷ [] }
{
    let Ok(()) = block.push(Statement::Return { value: None }, Span::UNDEFINED) else {
        unreachable!()
    };
}

/// Appends a return to a block. This is not inlined, to keep the path down through nested blocks short.
#[inline(never)]
fn add_return(block: &mut Block) -> Result<(), AllocError>
    ensures ok { OnOk result (pairs block.new ≡ pairs block.old ++ (Return None, undefined) ∷ []) }
    ensures err { OnErr result (pairs block.new ≡ pairs block.old) }
    ensures succeeds { 0 < room block.old → IsOk result }
{
    block.push(Statement::Return { value: None }, Span::UNDEFINED)
}
