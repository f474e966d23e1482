//! Meanings are runs: what a block does on a machine is one of the runs of naga_runs, or the beginning of one, so what
//! is proved of runs holds of meanings.
ghost use Rattle.std.specs.Prelude.{◌≡◌, ℕ, List, None};
ghost use Rattle.naga_ir.specs.Tree.{Tree};
ghost use Rattle.naga_runs.specs.Runs.{BlockRuns, Run};
ghost use Rattle.naga_flow.specs.Events.{events};
ghost use Rattle.naga_meaning.specs.Adequacy.{IsABeginning, IsARun, NeverStops, after, answers_at, left_after};
ghost use Rattle.naga_meaning.specs.Machine.{Machine, does};
ghost use Rattle.naga_meaning.specs.Values.{Code, Interpretation, Parts, machine};

/// Where no statement ends the run, a block does on a machine what one of its runs does, the one for the answers that
/// the machine gives.
pub fn each_meaning_is_a_run<State>()
    ensures { (machine : Machine State) → NeverStops machine → (turns : ℕ) (block : Tree) (state : State)
        → IsARun machine turns block state (does machine turns block state) }
{}

/// A block does on a machine what a beginning of one of its runs does, the one for the answers that the machine gives:
/// either the whole run, or what happens up to the first statement that ends it.
pub fn each_meaning_is_a_beginning<State>()
    ensures { (machine : Machine State) (turns : ℕ) (block : Tree) (state : State)
        → IsABeginning machine turns block state (does machine turns block state) }
{}

/// A run that reads exactly the answers that the machine gives at its events says what the block does on the machine: it
/// is done up to the first statement that ends it.
pub fn no_other_run_is_begun<State>()
    ensures { (machine : Machine State) (turns : ℕ) (block : Tree) (start : State) (answers : List ℕ) (run : Run)
        → (d : BlockRuns turns block answers run) → answers ≡ answers_at machine (events d) start
        → does machine turns block start ≡ left_after machine (events d) run start }
{}

/// Where no action ends the run, no statement of a body does.
pub fn runs_end_only_by_actions<Shape, Action, Value, State>()
    ensures { (parts : Parts Action) (by : Interpretation Shape Action Value State) (code : Code Shape)
        → ((action : Action) (values : List Value) (state : State) → by.stop action values state ≡ None)
        → NeverStops (machine parts by code) }
{}

/// Where no statement ends the run, a run that reads exactly the answers that the machine gives at its events is what
/// the block does on the machine.
pub fn no_other_run_is_a_meaning<State>()
    ensures { (machine : Machine State) → NeverStops machine
        → (turns : ℕ) (block : Tree) (start : State) (answers : List ℕ) (run : Run)
        → (d : BlockRuns turns block answers run) → answers ≡ answers_at machine (events d) start
        → does machine turns block start
        ≡ record { state = after machine (events d) start; ending = run.ending; slipped = run.slipped } }
{}
