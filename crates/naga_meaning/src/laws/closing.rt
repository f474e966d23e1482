//! Closing and culling keep what a block does.
ghost use Rattle.std.specs.Prelude.{◌≡◌, ℕ, Bool};
ghost use Rattle.naga_ir.specs.Tree.{Tree};
ghost use Rattle.naga_ir.specs.View.{tree_of};
ghost use Rattle.naga_ir.specs.declared.module.Function.{Function};
ghost use Rattle.naga_valid.specs.declared.reference.Reference.{Reference};
ghost use Rattle.naga_compact.specs.Culling.{culled};
ghost use Rattle.naga_proc.specs.Closing.{Closed, FullyClosed};
ghost use Rattle.naga_meaning.specs.Closing.{closed_outcome, fallen, turned, turned_outcome};
ghost use Rattle.naga_meaning.specs.Functions.{Meanings, meaning};
ghost use Rattle.naga_meaning.specs.Machine.{Machine, does};
ghost use Rattle.naga_meaning.specs.Readings.{read_by};
ghost use Rattle.naga_meaning.specs.Values.{Outcome, World};

/// Closing by the new rule keeps what a block does on each machine, except that it returns where it fell off the end.
pub fn closing_keeps_meanings<State>()
    ensures { (machine : Machine State) (old new : Tree) → FullyClosed old new → (turns : ℕ) (state : State)
        → does machine turns new state ≡ fallen (does machine turns old state) }
{}

/// Closing by the old rule keeps what a block does on each machine, except that it returns where it fell off the end,
/// unless it slipped out of a switch there.
pub fn closing_by_the_old_rule_keeps_meanings<State>()
    ensures { (machine : Machine State) (old new : Tree) → Closed old new → (turns : ℕ) (state : State)
        → does machine turns new state ≡ turned (does machine turns old state) }
{}

/// Culling keeps what a block does on each machine.
pub fn culling_keeps_meanings<State>()
    ensures { (machine : Machine State) (turns : ℕ) (block : Tree) (state : State)
        → does machine turns (culled block) state ≡ does machine turns block state }
{}

/// Closing the body of a function by the new rule keeps its meaning, except that it returns where it fell off the end.
pub fn closed_functions_keep_their_meanings<Thing, Value, State>()
    ensures { (old new : Function) → new.expressions ≡ old.expressions → new.local_variables ≡ old.local_variables
        → (look : Reference → Thing) (by : Meanings Thing Value State) (at_use : ℕ → Bool) (turns : ℕ)
        (start : World Value State) → FullyClosed (tree_of old.body) (tree_of new.body)
        → meaning look by turns (read_by at_use new) start
        ≡ closed_outcome (meaning look by turns (read_by at_use old) start) }
{}

/// Closing the body of a function by the old rule keeps its meaning, except that it returns where it fell off the end,
/// unless it slipped out of a switch there.
pub fn functions_closed_by_the_old_rule_keep_their_meanings<Thing, Value, State>()
    ensures { (old new : Function) → new.expressions ≡ old.expressions → new.local_variables ≡ old.local_variables
        → (look : Reference → Thing) (by : Meanings Thing Value State) (at_use : ℕ → Bool) (turns : ℕ)
        (start : World Value State) → Closed (tree_of old.body) (tree_of new.body)
        → meaning look by turns (read_by at_use new) start
        ≡ turned_outcome (meaning look by turns (read_by at_use old) start) }
{}

/// Closing an outcome that is closed by either rule leaves what closing the original outcome leaves.
pub fn closed_outcomes_agree<Value, State>()
    ensures closed { (outcome : Outcome Value State)
        → closed_outcome (closed_outcome outcome) ≡ closed_outcome outcome }
    ensures turned { (outcome : Outcome Value State)
        → closed_outcome (turned_outcome outcome) ≡ closed_outcome outcome }
{}

/// Culling the body of a function keeps its meaning.
pub fn culled_functions_keep_their_meanings<Thing, Value, State>()
    ensures { (old new : Function) → new.expressions ≡ old.expressions → new.local_variables ≡ old.local_variables
        → (look : Reference → Thing) (by : Meanings Thing Value State) (at_use : ℕ → Bool) (turns : ℕ)
        (start : World Value State) → tree_of new.body ≡ culled (tree_of old.body)
        → meaning look by turns (read_by at_use new) start ≡ meaning look by turns (read_by at_use old) start }
{}
