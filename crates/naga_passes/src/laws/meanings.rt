//! What functions compute after passes.
ghost use Rattle.std.specs.Prelude.{◌≡◌, ◌≢◌, ℕ, List, ◌∷◌, ◌++◌, All, Option, Some};
ghost use Rattle.naga_ir.specs.declared.module.Function.{Function};
ghost use Rattle.naga_ir.specs.declared.module.Module.{Module};
ghost use Rattle.naga_json.specs.Module.{module_in_text, module_value};
ghost use Rattle.naga_json_round_trip.specs.Module.{ModuleFits};
ghost use Rattle.naga_valid.specs.Valid.{HandlesAreValid};
ghost use Rattle.naga_valid.specs.declared.reference.Reference.{Reference};
ghost use Rattle.naga_compact.specs.declared.module.renumbering.ModuleRenumbering.{ModuleRenumbering};
ghost use Rattle.naga_meaning.specs.Calls.{Calls, blank, called};
ghost use Rattle.naga_meaning.specs.Closing.{closed_outcome, turned_outcome};
ghost use Rattle.naga_meaning.specs.Functions.{Meanings, meaning};
ghost use Rattle.naga_meaning.specs.Readings.{by_chains};
ghost use Rattle.naga_meaning.specs.Things.{thing_of};
ghost use Rattle.naga_meaning.specs.Values.{Outcome};
ghost use Rattle.naga_passes.specs.After.{After};
ghost use Rattle.naga_passes.specs.Meanings.{ComputesAfterOf, FindsKept, FunctionsComputeAfter, FunctionsComputeAfterOf, KeepsPlacesAfter, RestrictsNothing, found_after, found_before, outcome_after, renumberings_of};
ghost use Rattle.naga_passes.specs.Runs.{InsertsNothing};
ghost use Rattle.naga_passes.specs.Text.{WritesAfter};

use crate::pass::Pass;
use naga_proc::Rule;

/// After passes in any order that do not restrict, each function that is left and each entry point computes what it
/// computed before, except that closing makes it return where it fell off the end. This holds whatever operators and
/// statements do, so also where accesses are out of bounds.
///
/// What restricting keeps is stated by
/// [`restricting_keeps_outcomes`](naga_bounds::laws::restricting_keeps_outcomes).
pub fn passes_keep_meanings<Thing, Value, State>()
    ensures { (passes : List Pass) (old new : Module) → All RestrictsNothing passes → HandlesAreValid old
        → (after : After passes old new)
        → FunctionsComputeAfter Thing Value State passes (renumberings_of passes old new after) old new }
{}

/// So it is where each handle represents what is declared in its module, if global variables, overrides and functions
/// keep their places. Any places can be kept.
pub fn passes_keep_meanings_of_things<Place, Value, State>()
    ensures meanings { (passes : List Pass) (old new : Module) → All RestrictsNothing passes → HandlesAreValid old
        → (after : After passes old new)
        → (place place' : Reference → Place) → KeepsPlacesAfter (renumberings_of passes old new after) place place'
        → FunctionsComputeAfterOf Value State (thing_of old place) (thing_of new place')
        passes (renumberings_of passes old new after) old new }
    ensures places { (passes : List Pass) (old new : Module) → (after : After passes old new)
        → (place : Reference → Place)
        → (place' : Reference → Place) × KeepsPlacesAfter (renumberings_of passes old new after) place place' }
{}

/// What callers see of each function is what they saw before, also where calls have the meanings of the functions that
/// are called, down to any depth, if passes keep these.
pub fn passes_keep_calls<Thing, Value, State>()
    ensures { (passes : List Pass) (renumberings : List ModuleRenumbering) (old new : Module)
        (look look' : Reference → Thing) → FunctionsComputeAfterOf Value State look look' passes renumberings old new
        → (function_of : Thing → Option ℕ) → FindsKept function_of renumberings old
        → (calls : Calls Thing Value State) (by : Meanings Thing Value State) (turns : ℕ) (before after : Function)
        → ComputesAfterOf Value State look look' passes renumberings before after
        → (depth : ℕ) (start : State × Value)
        → closed_outcome (meaning look' (called look' (found_after function_of renumberings new) calls by turns depth)
        turns (by_chains after) (blank start))
        ≡ closed_outcome (meaning look (called look (found_before function_of old) calls by turns depth)
        turns (by_chains before) (blank start)) }
{}

/// [`passes_keep_meanings`] also holds for the module that the text after passes is read as, which has undefined spans,
/// if the module fits.
pub fn text_after_passes_keeps_meanings<Thing, Value, State>()
    ensures { (passes : List Pass) (old read : Module) (text : List ℕ) → All RestrictsNothing passes
        → HandlesAreValid old → (written : WritesAfter passes old text) → ModuleFits written.new
        → module_in_text text ≡ Some (module_value read)
        → FunctionsComputeAfter Thing Value State
        passes (renumberings_of passes old written.new written.after) old read }
{}

/// [`passes_keep_meanings_of_things`] also holds for the module that the text after passes is read as, if the module
/// fits.
pub fn text_after_passes_keeps_meanings_of_things<Place, Value, State>()
    ensures { (passes : List Pass) (old read : Module) (text : List ℕ) → All RestrictsNothing passes
        → HandlesAreValid old → (written : WritesAfter passes old text) → ModuleFits written.new
        → module_in_text text ≡ Some (module_value read)
        → (place place' : Reference → Place)
        → KeepsPlacesAfter (renumberings_of passes old written.new written.after) place place'
        → FunctionsComputeAfterOf Value State (thing_of old place) (thing_of read place')
        passes (renumberings_of passes old written.new written.after) old read }
{}

/// An outcome after passes depends only on which closings are among them. If none is, it is the outcome before. After
/// closing by the new rule, falling off the end is a return without a value, whatever other passes are run before and
/// after. After closing by the old rule alone it is, too, unless the function slipped out of a switch there. Where passes
/// restrict, this is about executions in bounds.
pub fn only_closing_changes_outcomes<Value, State>()
    ensures neither { (passes : List Pass) → All InsertsNothing passes → (outcome : Outcome Value State)
        → outcome_after passes outcome ≡ outcome }
    ensures new_rule { (before after : List Pass) (outcome : Outcome Value State)
        → outcome_after (before ++ Pass.Close Rule.New ∷ after) outcome ≡ closed_outcome outcome }
    ensures old_rule { (before after : List Pass)
        → All (λ pass. pass ≢ Pass.Close Rule.New) before → All (λ pass. pass ≢ Pass.Close Rule.New) after
        → (outcome : Outcome Value State)
        → outcome_after (before ++ Pass.Close Rule.Old ∷ after) outcome ≡ turned_outcome outcome }
{}
