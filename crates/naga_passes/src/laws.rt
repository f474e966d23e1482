//! Laws of passes that are run one after another on a module, and of lists of their names.
ghost use Rattle.std.specs.Prelude.{◌≡◌, ◌≢◌, ℕ, Some, List, [], ◌∷◌, ◌++◌, All, map};
ghost use Rattle.std.specs.List.{Contains, join_with_byte};
ghost use Rattle.std.specs.Str.{trim};
ghost use Rattle.naga_json.specs.Module.{module_in_text, module_value};
ghost use Rattle.naga_json.specs.Unspanned.{unspanned_module};
ghost use Rattle.naga_json_round_trip.specs.Module.{ModuleFits};
ghost use Rattle.naga_proc.specs.Bodies.{HasSameStatements};
ghost use Rattle.naga_compact.specs.Culling.{IsCulled, culled};
ghost use Rattle.naga_ir.specs.Module.{IsEmptyModule};
ghost use Rattle.naga_ir.specs.Tree.{Tree};
ghost use Rattle.naga_proc.specs.Closing.FallenRuns.{Fallen};
ghost use Rattle.naga_proc.specs.Closing.KeptRuns.{Turned};
ghost use Rattle.naga_runs.specs.RunsFit.{NeverFallsOff};
ghost use Rattle.naga_valid.specs.Statements.{references_of_tree};
ghost use Rattle.naga_valid.specs.Valid.{HandlesAreValid};
ghost use Rattle.naga_passes.specs.After.{After, Transforms};
ghost use Rattle.naga_passes.specs.Bodies.{AllBodies, BodiesComeFrom};
ghost use Rattle.naga_passes.specs.Names.{IsUnknown, Lists, comma};
ghost use Rattle.naga_passes.specs.Pass.{name_of};
ghost use Rattle.naga_passes.specs.Runs.{InsertsNothing, KeepsRuns, TransformsBody};
ghost use Rattle.naga_passes.specs.Text.{WritesAfter};
ghost use Rattle.naga_passes.specs.declared.names.TheConstants.{PASS_NAMES};
ghost use Rattle.naga_passes.specs.declared.pass.TheConstants.Pass.{ALL};

pub mod blocks;
pub mod meanings;

use crate::pass::Pass;
use naga_ir::Module;
use naga_proc::Rule;
use naga_valid::Reference;

/// What passes make of a module is what the last of them make of what the first of them make of it.
pub fn passes_can_be_split()
    ensures split { (first last : List Pass) (old new : Module) → After (first ++ last) old new
        → (middle : Module) × After first old middle × After last middle new }
    ensures joined { (first last : List Pass) (old middle new : Module)
        → After first old middle → After last middle new → After (first ++ last) old new }
{}

/// A valid module stays valid, after each pass.
pub fn passes_keep_handles_valid()
    ensures { (passes : List Pass) (old new : Module)
        → After passes old new → HandlesAreValid old → HandlesAreValid new }
{}

/// The text that is written for what passes make of a module is read as that module, with undefined spans, if the module
/// fits.
///
/// [`reads_back`](naga_json_round_trip::reads_back) returns whether a module fits.
pub fn text_after_passes_is_read_as_the_module()
    ensures { (passes : List Pass) (old : Module) (text : List ℕ) (written : WritesAfter passes old text)
        → ModuleFits written.new → module_in_text text ≡ Some (unspanned_module (module_value written.new)) }
{}

/// A module without declarations, which is what compacting leaves if an allocation fails, is valid.
pub fn empty_modules_are_valid()
    ensures { (whole : Module) → IsEmptyModule whole → HandlesAreValid whole }
{}

/// A culled block contains no handles that the block does not contain.
pub fn culling_adds_no_handles()
    ensures { (block : Tree) (handle : Reference)
        → Contains (references_of_tree (culled block)) handle → Contains (references_of_tree block) handle }
{}

/// The body of each function that is left is what the pass makes of the body of a function, and the body of each entry
/// point is what it makes of the body that the entry point had.
pub fn each_pass_transforms_each_body()
    ensures { (pass : Pass) (old new : Module)
        → Transforms pass old new → BodiesComeFrom (TransformsBody pass) old new }
{}

/// Culling, compacting and restricting keep runs, in any order and any number of times: each function that is left has the
/// runs of a function of the module, and each entry point has its own, with new handles.
pub fn culling_and_compacting_keep_runs()
    ensures { (passes : List Pass) (old new : Module)
        → All InsertsNothing passes → After passes old new → BodiesComeFrom KeepsRuns old new }
{}

/// Closing keeps runs, except that they return where they fell off the end of a body. By the old rule, those that
/// slipped out of a switch there do not return.
pub fn closing_returns_where_runs_fell_off()
    ensures new_rule { (old new : Module) → Transforms (Pass.Close Rule.New) old new → BodiesComeFrom Fallen old new }
    ensures old_rule { (old new : Module) → Transforms (Pass.Close Rule.Old) old new → BodiesComeFrom Turned old new }
{}

/// Culling a module that was culled changes nothing. Neither does closing a module that was closed by the same rule.
pub fn culling_and_closing_again_change_nothing()
    ensures culling { (old middle new : Module) → Transforms Pass.Cull old middle
        → Transforms Pass.Cull middle new → HasSameStatements middle new }
    ensures closing { (rule : Rule) (old middle new : Module) → Transforms (Pass.Close rule) old middle
        → Transforms (Pass.Close rule) middle new → HasSameStatements middle new }
{}

/// Culling a module and then closing it results in the same module as closing it and then culling it.
pub fn culling_and_closing_commute()
    ensures { (rule : Rule) (old new other : Module)
        → After (Pass.Cull ∷ Pass.Close rule ∷ []) old new
        → After (Pass.Close rule ∷ Pass.Cull ∷ []) old other
        → HasSameStatements new other }
{}

/// Suppose that a module is culled and then closed by the new rule, or the other way round, and then perhaps culled,
/// compacted and restricted. No statement of a body then follows one that diverges, and no run of a body falls off its
/// end.
pub fn culled_and_closed_bodies_end_where_they_diverge()
    ensures culled_first { (before after : List Pass) (old new : Module)
        → All InsertsNothing after
        → After (before ++ Pass.Cull ∷ Pass.Close Rule.New ∷ after) old new
        → AllBodies (λ body. IsCulled body × NeverFallsOff body) new }
    ensures closed_first { (before after : List Pass) (old new : Module)
        → All InsertsNothing after
        → After (before ++ Pass.Close Rule.New ∷ Pass.Cull ∷ after) old new
        → AllBodies (λ body. IsCulled body × NeverFallsOff body) new }
{}

/// A text that lists passes is parts with commas between them, each the name of its pass, perhaps with white space around
/// it. Such parts, joined by commas, list the passes, and so do the names alone.
pub fn listed_names_are_joined_by_commas()
    ensures joined { (passes : List Pass) (text : List ℕ) → Lists passes text
        → (parts : List (List ℕ)) × (text ≡ join_with_byte comma parts) × (map trim parts ≡ map name_of passes) }
    ensures parts { (passes : List Pass) (part : List ℕ) (others : List (List ℕ))
        → All (All (λ byte. byte ≢ comma)) (part ∷ others) → map trim (part ∷ others) ≡ map name_of passes
        → Lists passes (join_with_byte comma (part ∷ others)) }
    ensures names { (pass : Pass) (others : List Pass)
        → Lists (pass ∷ others) (join_with_byte comma (map name_of (pass ∷ others))) }
{}

/// A text lists one list of passes at most, and none of its names is then unknown. At most one name of a text is the
/// first that is unknown.
pub fn names_are_read_in_one_way()
    ensures one { (first second : List Pass) (text : List ℕ) → Lists first text → Lists second text → second ≡ first }
    ensures known { (passes : List Pass) (text name : List ℕ) → Lists passes text → ¬ (IsUnknown text name) }
    ensures first { (text name other : List ℕ) → IsUnknown text name → IsUnknown text other → other ≡ name }
{}

/// [`PASS_NAMES`](crate::PASS_NAMES) lists all passes.
pub fn the_names_of_all_passes_list_them()
    ensures { Lists ALL PASS_NAMES.now }
{}

/// [`Pass::ALL`](crate::Pass::ALL) has each pass.
pub fn each_pass_is_in_the_list_of_all()
    ensures { (pass : Pass) → Contains ALL pass }
{}
