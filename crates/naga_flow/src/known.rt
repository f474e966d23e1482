//! The expressions that have been evaluated.
ghost use Rattle.std.specs.Prelude.{◌≡◌, ◌≢◌, ◌<◌, ◌≤◌, ◌↔◌, ◌++◌, ℕ, IfOk, IsTrue, OnOk, [], drop, length, take};
ghost use Rattle.std.specs.List.{Contains};
ghost use Rattle.naga_flow.specs.Tracking.{Learns, is_in_scope, is_known, known_of, none_known, state_at};

use naga_arena::{Arena, Handle};
use naga_ir::Expression;
use std::alloc::{AllocError, Global};
use std::marker::Model;

/// Whether an expression is in scope, and known.
#[derive(Clone, Copy)]
pub(crate) enum State {
    /// It is not in scope.
    Outside,
    /// It is in scope, and has been evaluated for certain.
    Known,
    /// It is in scope, and need not have been evaluated.
    Doubtful,
}

impl State {
    /// Returns whether the expression is in scope.
    fn is_in_scope(self) -> bool
        ensures { result ≡ is_in_scope self }
    {
        match self {
            State::Outside => false,
            State::Known => true,
            State::Doubtful => true,
        }
    }

    /// Returns whether the expression is known.
    fn is_known(self) -> bool
        ensures { result ≡ is_known self }
    {
        match self {
            State::Outside => false,
            State::Known => true,
            State::Doubtful => false,
        }
    }
}

/// The expressions in scope, in the order in which they were evaluated, each of them once, and which of them are known.
#[derive(Drop)]
pub(crate) struct Known {
    /// The state of each expression by its index. An expression that has none is not in scope.
    states: Vec<State>,
    order: Vec<Handle<Expression>>,
}

impl Model for Known {
    ghost use Rattle.std.specs.Prelude.{List};
    ghost use Rattle.naga_flow.specs.Tracking.{Seen, Tracks, seen_by};

    ghost Value = { List Seen };

    ghost view = { λ all. seen_by all.states.items all.order.items };

    ghost invariant = { λ all. Tracks all.states.items all.order.items };
}

impl Known {
    /// Begins with no expressions, with space for those of an arena. Returns `Err` if allocation fails.
    pub(crate) fn new(alloc: Global, expressions: &Arena<Expression>) -> Result<Self, AllocError>
        ensures { IfOk result (λ known. known ≡ []) }
    {
        let mut states = Vec::new(alloc);
        lengthen(&mut states, expressions.len())?;
        let order = Vec::new(alloc);
        Ok(Known { states, order })
    }

    /// Returns the number of expressions in scope.
    pub(crate) fn len(&self) -> usize
        ensures { result ≡ length self.now }
    {
        self.order.len()
    }

    /// Returns whether an expression is known.
    pub(crate) fn contains(&self, handle: Handle<Expression>) -> bool
        ensures { IsTrue result ↔ Contains (known_of self.now) handle }
    {
        state_at(self.states.as_slice(), handle).is_known()
    }

    /// Adds an expression that is evaluated for certain, and returns `true`. Returns `false` if it is in scope already.
    /// Returns `Err` if allocation fails.
    #[inline(always)]
    pub(crate) fn learn(&mut self, handle: Handle<Expression>) -> Result<bool, AllocError>
        ensures { IfOk result (λ is_new. Learns self.old handle is_new self.new) }
    {
        if state_at(self.states.as_slice(), handle).is_in_scope() {
            return Ok(false);
        }
        lengthen(&mut self.states, handle.index() + 1)?;
        self.order.push(handle)?;
        put(&mut self.states, handle, State::Known);
        Ok(true)
    }

    /// Forgets the expressions after the first `len` ones.
    pub(crate) fn forget_from(&mut self, len: usize)
        requires { len ≤ length self.old }
        ensures { self.new ≡ take len self.old }
    {
        'newest: while self.order.len() > len {
            let Some(handle) = self.order.pop() else {
                unreachable!()
            };
            put(&mut self.states, handle, State::Outside);
        }
    }

    /// Keeps the expressions after the first `len` ones in scope, but not known.
    pub(crate) fn doubt_from(&mut self, len: usize)
        requires { len ≤ length self.old }
        ensures { self.new ≡ take len self.old ++ none_known (drop len self.old) }
    {
        let mut index = self.order.len();
        'doubtful: while index > len {
            index -= 1;
            let handle = self.order[index];
            put(&mut self.states, handle, State::Doubtful);
        }
    }
}

/// Returns the state of an expression.
fn state_at(states: &[State], handle: Handle<Expression>) -> State
    ensures { result ≡ state_at states.now handle }
{
    match states.get(handle.index()) {
        Some(state) => *state,
        None => State::Outside,
    }
}

/// Makes this the state of an expression.
///
/// The caller must ensure that the expression has a state.
#[inline(always)]
fn put(states: &mut Vec<State>, handle: Handle<Expression>, state: State)
    requires { handle < length states.old.items }
    ensures here { state_at states.new.items handle ≡ state }
    ensures others { (x : ℕ) → x ≢ handle → state_at states.new.items x ≡ state_at states.old.items x }
{
    states[handle.index()] = state;
}

/// Appends states of expressions that are not in scope until there are at least `len` states. Returns `Err` if allocation
/// fails.
#[inline(always)]
fn lengthen(states: &mut Vec<State>, len: usize) -> Result<(), AllocError>
    ensures same { (x : ℕ) → state_at states.new.items x ≡ state_at states.old.items x }
    ensures len { OnOk result (len ≤ length states.new.items) }
{
    if states.len() >= len {
        return Ok(());
    }
    states.resize(len, State::Outside)
}
