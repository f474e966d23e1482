//! The changes of the expressions of a function, and their new handles.
ghost use Rattle.std.specs.Prelude.{◌≡◌, ◌≤◌, ◌<◌, ◌+◌, ◌*◌, IfErr, IfOk, OnOk, Some, length, slice_get, take};
ghost use Rattle.std.specs.List.{sum_by};
ghost use Rattle.naga_arena.specs.Limits.{max_len};
ghost use Rattle.naga_compact.specs.Renaming.{rename_range};
ghost use Rattle.naga_bounds.specs.Plans.{AreStarts, HasNoRoom};
ghost use Rattle.naga_bounds.specs.Restricted.{front_count, front_len, new_len, new_of, start_of, width};

use crate::change::Change;
use crate::restrict_error::Obstacle;
use naga_arena::{Handle, Range};
use naga_compact::{NewHandles, RenameKey};
use naga_ir::{Constant, Expression, Function, GlobalVariable, Override, Type};
use std::alloc::{AllocError, Global};
use std::marker::Model;

/// What becomes of each expression of a function, and where it is afterwards.
///
/// In contracts, it is the list of the changes.
#[derive(Drop)]
pub(crate) struct Plan {
    changes: Vec<Change>,
    /// For each expression, where what is in its place begins, and then the length of the new arena.
    starts: Vec<u32>,
}

impl Model for Plan {
    ghost use Rattle.std.specs.Prelude.{List};
    ghost use Rattle.naga_bounds.specs.Plans.{AreStarts};
    ghost use Rattle.naga_bounds.specs.declared.change.Change.{Change as TheChange};

    ghost Value = { List TheChange };

    ghost view = { λ plan. plan.changes.items };

    ghost invariant = { λ plan. AreStarts plan.changes.items plan.starts.items };
}

impl Plan {
    /// Creates the plan of some changes. Returns `Err` if the new arena would have too many expressions, or if allocation
    /// fails.
    pub(crate) fn new(alloc: Global, changes: Vec<Change>) -> Result<Self, Obstacle>
        requires { length changes.items ≤ max_len }
        ensures value { IfOk result (λ plan. plan ≡ changes.items) }
        ensures bound { OnOk result (new_len changes.items ≤ max_len) }
        ensures error { IfErr result (HasNoRoom changes.items) }
    {
        let front = front_len(&changes);
        if front + places_len(&changes) > u32::MAX as usize {
            return Err(Obstacle::Full);
        }
        match starts(alloc, &changes, front as u32) {
            Ok(starts) => Ok(Plan { changes, starts }),
            Err(_) => Err(Obstacle::Memory),
        }
    }

    /// Returns the number of expressions of the new arena.
    pub(crate) fn new_len(&self) -> usize
        ensures value { result ≡ new_len self.now }
        ensures bound { result ≤ max_len }
    {
        self.starts[self.changes.len()] as usize
    }

    /// Returns the change of an expression, or that it stays if it is not in the arena.
    pub(crate) fn change(&self, handle: Handle<Expression>) -> Change
        requires { handle < length self.now }
        ensures { slice_get self.now handle ≡ Some result }
    {
        self.changes[handle.index()]
    }

    /// Returns where what is in the place of an expression begins.
    fn start(&self, index: u32) -> u32
        ensures { result ≡ start_of self.now index }
    {
        let position = (index as usize).min(self.changes.len());
        self.starts[position]
    }

    /// Returns the new handle of an expression.
    pub(crate) fn handle(&self, handle: Handle<Expression>) -> Handle<Expression>
        ensures { result ≡ new_of self.now handle }
    {
        let past = self.start(handle.index() as u32 + 1);
        Handle::<Expression>::at(past.saturating_sub(1) as usize)
    }

    /// Returns the range that covers what is in the place of the expressions of a range.
    fn range(&self, range: &Range<Expression>) -> Range<Expression>
        ensures { result ≡ rename_range (start_of self.now) range.now }
    {
        let bounds = range.index_range();
        let first = self.start(bounds.start);
        let past = self.start(bounds.end);
        if first < past {
            let first = Handle::<Expression>::at(first as usize);
            let last = Handle::<Expression>::at((past - 1) as usize);
            Range::<Expression>::new_from_bounds(first, last)
        } else {
            Range::<Expression>::up_to(0)
        }
    }
}

/// The new handles of the expressions of a function. All other handles are unchanged.
impl NewHandles for Plan {
    ghost use Rattle.naga_bounds.specs.Restricted.{moving};

    ghost renaming = { moving };

    fn ty(&self, _: &mut Handle<Type>) {}

    fn constant(&self, _: &mut Handle<Constant>) {}

    fn pipeline_override(&self, _: &mut Handle<Override>) {}

    fn global_variable(&self, _: &mut Handle<GlobalVariable>) {}

    fn global_expression(&self, _: &mut Handle<Expression>) {}

    fn function(&self, _: &mut Handle<Function>) {}

    fn expression(&self, handle: &mut Handle<Expression>) {
        *handle = self.handle(*handle);
    }

    fn expressions(&self, range: &mut Range<Expression>) {
        *range = self.range(range);
    }
}

/// Names keep their expressions. Those of handles that are not in the arena are removed.
impl RenameKey<Handle<Expression>> for Plan {
    ghost use Rattle.std.proofs.Common.{rules};
    ghost use Rattle.std.specs.Prelude.{length, nat_lt};
    ghost use Rattle.naga_bounds.specs.Restricted.{new_of as new_handle};

    ghost keeps_key = { λ plan handle. nat_lt handle (length plan) };

    ghost renamed_key = { new_handle };

    ghost decides = { λ a b. Prim.search rules };

    fn new_key(&self, key: &Handle<Expression>) -> Option<Handle<Expression>> {
        if key.index() < self.changes.len() {
            Some(self.handle(*key))
        } else {
            None
        }
    }
}

/// Returns how many expressions are at the front of the new arena.
#[tactic(auto, using(std::proofs::lemmas::List::Sums::sum_by_more))]
fn front_len(changes: &[Change]) -> usize
    requires { length changes.now ≤ max_len }
    ensures value { result ≡ front_len changes.now }
    ensures bound { result ≤ 3 * max_len }
{
    let mut total = 0;
    'changes: for change in changes {
        total += change.front_count();
    }
    total
}

/// Returns how many expressions are in the places of the old ones.
#[tactic(auto, using(std::proofs::lemmas::List::Sums::sum_by_more))]
fn places_len(changes: &[Change]) -> usize
    requires { length changes.now ≤ max_len }
    ensures value { result ≡ sum_by width changes.now }
    ensures bound { result ≤ 5 * max_len }
{
    let mut total = 0;
    'changes: for change in changes {
        total += change.width();
    }
    total
}

/// Returns, for each expression, where what is in its place begins, and then the length of the new arena. `first` is
/// the number of the expressions at the front. Returns `Err` if allocation fails.
fn starts(alloc: Global, changes: &[Change], first: u32) -> Result<Vec<u32>, AllocError>
    requires first { first ≡ front_len changes.now }
    requires bound { new_len changes.now ≤ max_len }
    requires few { length changes.now ≤ max_len }
    ensures { IfOk result (λ starts. AreStarts changes.now starts.items) }
{
    let mut starts = Vec::with_capacity(alloc, changes.len() + 1)?;
    let mut next = first;
    'changes: for change in changes {
        starts.push_reserved(next);
        next += change.width() as u32;
    }
    starts.push_reserved(next);
    Ok(starts)
}
