//! Inserting returns in one walk.
ghost use Rattle.std.specs.Prelude.{◌≡◌, ◌++◌, ◌<◌, ◌≤◌, ℕ, List, false, true};
ghost use Rattle.naga_arena.specs.declared.span.Span.{Span};
ghost use Rattle.naga_ir.specs.Block.{pairs, room};
ghost use Rattle.naga_ir.specs.Tree.{Tree};
ghost use Rattle.naga_ir.specs.View.{cases_of, node_of, tree_of};
ghost use Rattle.naga_ir.specs.declared.statement.Statement.{Statement};
ghost use Rattle.naga_proc.specs.Closing.Walked.{Adds, CasesTakeBack, Omits, Passes, TakesBack, TakesBackInside, TakesBackLast, Visits, VisitsCases, ends_in_return, is_return};

use super::rule::{Rule, leaves_open};
use naga_arena::Span;
use naga_ir::{Block, Statement, SwitchCase};

/// A walk over tail blocks, which inserts their returns as long as these can be taken away again.
///
/// The walk counts the returns that it inserts. In its order they come before each return without a value that was there.
/// From the first of those on, the walk only reserves space, since an inserted return could not be told from that one.
#[derive(Drop)]
pub(crate) struct Walk {
    /// The number of returns inserted.
    pub(crate) pushed: usize,
    /// The number of inserted returns at which space is only reserved.
    pub(crate) limit: usize,
    /// Whether a return was left out.
    pub(crate) owes: bool,
    /// Whether an allocation failed. Then the walk changes nothing more.
    pub(crate) failed: bool,
}

impl Walk {
    /// Starts a walk.
    pub(crate) fn start() -> Self
        ensures pushed { result.pushed ≡ 0 }
        ensures failed { result.failed ≡ false }
    {
        Walk {
            pushed: 0,
            limit: usize::MAX,
            owes: false,
            failed: false,
        }
    }

    /// Visits a block that ends in a return without a value.
    fn pass_return(&mut self)
        ensures { Passes self.old self.new }
    {
        self.limit = self.pushed;
    }

    /// Visits a block that gets a return. This is not inlined, so that the way down through nested blocks saves few
    /// registers.
    #[inline(never)]
    fn add_return(&mut self, block: &mut Block)
        ensures adds { Adds self.old block.old block.new self.new }
        ensures succeeds { 0 < room block.old → self.old.failed ≡ false → self.new.failed ≡ false }
    {
        if self.pushed < self.limit {
            self.push_return(block);
        } else {
            self.reserve_return(block);
        }
    }

    /// Appends a return to a block.
    ///
    /// Precondition: the walk still inserts returns.
    #[inline(always)]
    fn push_return(&mut self, block: &mut Block)
        requires { self.old.pushed < self.old.limit }
        ensures adds { Adds self.old block.old block.new self.new }
        ensures succeeds { 0 < room block.old → self.old.failed ≡ false → self.new.failed ≡ false }
    {
        if block
            .push(Statement::Return { value: None }, Span::UNDEFINED)
            .is_ok()
        {
            self.pushed += 1;
        } else {
            self.fail();
        }
    }

    /// Leaves out a return because an allocation failed.
    #[cold]
    #[inline(never)]
    fn fail(&mut self)
        ensures omits { Omits self.old self.new }
        ensures failed { self.new.failed ≡ true }
    {
        self.limit = self.pushed;
        self.owes = true;
        self.failed = true;
    }

    /// Leaves out a return and reserves space for it, unless an allocation failed before.
    ///
    /// Precondition: the walk no longer inserts returns.
    #[cold]
    #[inline(never)]
    fn reserve_return(&mut self, block: &mut Block)
        requires { self.old.limit ≤ self.old.pushed }
        ensures adds { Adds self.old block.old block.new self.new }
        ensures succeeds { 0 < room block.old → self.old.failed ≡ false → self.new.failed ≡ false }
    {
        self.owes = true;
        if !self.failed {
            self.failed = block.reserve(1).is_err();
        }
    }
}

/// Visits the tail blocks of a block. The last block in a statement is visited by the last call, so that a nest in last
/// blocks uses no stack.
#[cycle(one_walk)]
pub(crate) fn walk_block(walk: &mut Walk, rule: Rule, block: &mut Block)
    ensures { Visits rule walk.old block.old block.new walk.new }
{
    let Some(last) = block.last_mut() else {
        return walk.add_return(block);
    };
    if let Statement::Block(inner) = last {
        return walk_block(walk, rule, inner);
    }
    if leaves_open(last) {
        return walk.add_return(block);
    }
    match last {
        Statement::If { accept, reject, .. } => {
            walk_block(walk, rule, accept);
            walk_block(walk, rule, reject)
        }
        Statement::Switch { cases, .. } => {
            if rule.follows_switch(cases) {
                walk_cases(walk, rule, cases);
                walk.add_return(block)
            } else {
                walk_cases(walk, rule, cases)
            }
        }
        Statement::Return { value } => {
            if value.is_none() {
                walk.pass_return()
            }
        }
        Statement::Break => {}
        Statement::Continue => {}
        Statement::Kill => {}
        _ => unreachable!(),
    }
}

/// Visits the tail blocks in the bodies of the cases that do not fall through. The last case is visited by the last
/// call, so that a nest of switches in their last cases uses no stack if no return follows them.
#[cycle(one_walk)]
#[inline(always)]
fn walk_cases(walk: &mut Walk, rule: Rule, cases: &mut Vec<SwitchCase>)
    ensures { VisitsCases rule walk.old cases.old.items cases.new.items walk.new }
{
    if cases.is_empty() {
        return;
    }
    let last = cases.len() - 1;
    for i in 0..last {
        let case = &mut cases[i];
        if !case.fall_through {
            walk_block(walk, rule, &mut case.body);
        }
    }
    let end = &mut cases[last];
    if !end.fall_through {
        walk_block(walk, rule, &mut end.body);
    }
}

/// Takes away the first `left` returns that a walk inserted, and subtracts the number of those in this block.
#[cycle(take_back)]
pub(crate) fn take_back(left: &mut usize, block: &mut Block)
    ensures { TakesBack left.old (tree_of block.old) (tree_of block.new) left.new }
{
    if *left == 0 {
        return;
    }
    take_back_last(left, block);
    let Some(last) = block.last_mut() else {
        return;
    };
    take_back_inside(left, last)
}

/// Takes away the last statement of a block if it is a return without a value.
///
/// Precondition: a return is to be taken away.
fn take_back_last(left: &mut usize, block: &mut Block)
    requires { 0 < left.old }
    ensures takes { (c : Tree) (rest : ℕ) → TakesBackLast left.new (tree_of block.new) c rest → TakesBack left.old (tree_of block.old) c rest }
    ensures front { (more : List (Statement × Span)) × (pairs block.old ≡ pairs block.new ++ more) }
{
    if ends_in_return(block) {
        *left -= 1;
        let _ = block.pop();
    }
}

/// Returns whether a block ends in a return without a value.
fn ends_in_return(block: &Block) -> bool
    ensures { result ≡ ends_in_return (tree_of block.now) }
{
    match block.last() {
        Some(last) => is_return(last),
        None => false,
    }
}

/// Returns whether a statement is a return without a value.
fn is_return(statement: &Statement) -> bool
    ensures { result ≡ is_return (node_of statement.now) }
{
    match statement {
        Statement::Return { value } => value.is_none(),
        _ => false,
    }
}

/// Takes away returns inside a statement.
#[cycle(take_back)]
fn take_back_inside(left: &mut usize, statement: &mut Statement)
    ensures { TakesBackInside left.old (node_of statement.old) (node_of statement.new) left.new }
{
    if leaves_open(statement) {
        return;
    }
    match statement {
        Statement::Block(inner) => take_back(left, inner),
        Statement::If { accept, reject, .. } => {
            take_back(left, accept);
            take_back(left, reject)
        }
        Statement::Switch { cases, .. } => take_back_in_cases(left, cases),
        Statement::Break => {}
        Statement::Continue => {}
        Statement::Return { .. } => {}
        Statement::Kill => {}
        _ => unreachable!(),
    }
}

/// Takes away returns in the bodies of the cases that do not fall through.
#[cycle(take_back)]
fn take_back_in_cases(left: &mut usize, cases: &mut Vec<SwitchCase>)
    ensures { CasesTakeBack left.old (cases_of cases.old.items) (cases_of cases.new.items) left.new }
{
    for i in 0..cases.len() {
        let case = &mut cases[i];
        if !case.fall_through {
            take_back(left, &mut case.body);
        }
    }
}
