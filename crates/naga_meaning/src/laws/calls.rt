//! Functions that mean the same still do where calls have the meanings of the functions that are called, and closing a
//! function changes no caller.
ghost use Rattle.std.specs.Prelude.{◌≡◌, ℕ, Bool, Option, Some};
ghost use Rattle.naga_ir.specs.View.{tree_of};
ghost use Rattle.naga_ir.specs.declared.module.Function.{Function};
ghost use Rattle.naga_valid.specs.declared.reference.Reference.{Reference};
ghost use Rattle.naga_proc.specs.Closing.{Closed, FullyClosed};
ghost use Rattle.naga_meaning.specs.Calls.{Calls, MeanTheSame, MeanTheSameToCallers, blank, called};
ghost use Rattle.naga_meaning.specs.Closing.{closed_outcome};
ghost use Rattle.naga_meaning.specs.Functions.{Meanings, meaning};
ghost use Rattle.naga_meaning.specs.Readings.{Reading, read_by};

/// A function that means the same also does so if calls have the meanings of the functions that are called, down to any
/// depth. It is enough that those mean the same up to closing, and one that means the same up to closing does so, too.
pub fn calls_keep_meanings<Thing, Value, State>()
    ensures same { (look look' : Reference → Thing) (find find' : Thing → Option Reading)
        (calls : Calls Thing Value State) (by : Meanings Thing Value State) (turns : ℕ)
        → ((thing : Thing) → MeanTheSameToCallers Value State look look' (find thing) (find' thing))
        → (old new : Reading) → MeanTheSame Value State look look' (Some old) (Some new)
        → (depth : ℕ) (start : State × Value)
        → meaning look' (called look' find' calls by turns depth) turns new (blank start)
        ≡ meaning look (called look find calls by turns depth) turns old (blank start) }
    ensures to_callers { (look look' : Reference → Thing) (find find' : Thing → Option Reading)
        (calls : Calls Thing Value State) (by : Meanings Thing Value State) (turns : ℕ)
        → ((thing : Thing) → MeanTheSameToCallers Value State look look' (find thing) (find' thing))
        → (old new : Reading) → MeanTheSameToCallers Value State look look' (Some old) (Some new)
        → (depth : ℕ) (start : State × Value)
        → closed_outcome (meaning look' (called look' find' calls by turns depth) turns new (blank start))
        ≡ closed_outcome (meaning look (called look find calls by turns depth) turns old (blank start)) }
{}

/// Closing a function by either rule changes no caller.
pub fn closing_changes_no_caller<Thing, Value, State>()
    ensures new_rule { (old new : Function) → new.expressions ≡ old.expressions
        → new.local_variables ≡ old.local_variables → (look : Reference → Thing) (at_use : ℕ → Bool)
        → FullyClosed (tree_of old.body) (tree_of new.body)
        → MeanTheSameToCallers Value State look look (Some (read_by at_use old)) (Some (read_by at_use new)) }
    ensures old_rule { (old new : Function) → new.expressions ≡ old.expressions
        → new.local_variables ≡ old.local_variables → (look : Reference → Thing) (at_use : ℕ → Bool)
        → Closed (tree_of old.body) (tree_of new.body)
        → MeanTheSameToCallers Value State look look (Some (read_by at_use old)) (Some (read_by at_use new)) }
{}
