//! Laws of passes.
ghost use Rattle.std.specs.Prelude.{◌≡◌, ◌↔◌, ◌<◌, ℕ, Bool, List, Some, length, map, slice_get, true};
ghost use Rattle.std.specs.FinSet.{contains};
ghost use Rattle.std.specs.List.{filter};
ghost use Rattle.naga_arena.specs.Range.{handles_of};
ghost use Rattle.naga_arena.specs.declared.span.Span.{Span};
ghost use Rattle.naga_ir.specs.Tree.{Jump, Node, Tree, jump, push};
ghost use Rattle.naga_ir.specs.declared.expression.Expression.{Expression};
ghost use Rattle.naga_ir.specs.declared.module.Constant.{Constant};
ghost use Rattle.naga_ir.specs.declared.module.EntryPoint.{EntryPoint};
ghost use Rattle.naga_ir.specs.declared.module.Function.{Function};
ghost use Rattle.naga_ir.specs.declared.module.GlobalVariable.{GlobalVariable};
ghost use Rattle.naga_ir.specs.declared.module.LocalVariable.{LocalVariable};
ghost use Rattle.naga_ir.specs.declared.module.Override.{Override};
ghost use Rattle.naga_ir.specs.declared.module.SpecialTypes.{SpecialTypes};
ghost use Rattle.naga_ir.specs.declared.statement.Statement.{Statement};
ghost use Rattle.naga_ir.specs.declared.types.«Type».{«Type» as NamedType};
ghost use Rattle.naga_runs.specs.Runs.{BlockRuns, Run};
ghost use Rattle.naga_sets.specs.HandleSet.{BoundedSet};
ghost use Rattle.naga_valid.specs.Declarations.{references_of_constant, references_of_global_variable, references_of_local_variable, references_of_override, references_of_type};
ghost use Rattle.naga_valid.specs.Expressions.{references_of_expression};
ghost use Rattle.naga_valid.specs.Places.{references_in_part, references_of_entry_point, references_of_special_types};
ghost use Rattle.naga_valid.specs.Statements.{references_of_statement, references_of_tree};
ghost use Rattle.naga_compact.specs.Compaction.{IsMember};
ghost use Rattle.naga_valid.specs.declared.place.Part.{Part};
ghost use Rattle.naga_compact.specs.Culling.{IsCulled, IsPrefix, culled};
ghost use Rattle.naga_compact.specs.Functions.{CompactsFunction};
ghost use Rattle.naga_compact.specs.Kept.{kept_elements, new_index, rank};
ghost use Rattle.naga_compact.specs.Mapping.{map_tree};
ghost use Rattle.naga_compact.specs.Mapping.Runs.{MappedRunsFit};
ghost use Rattle.naga_compact.specs.Renaming.{Renaming, rename_range, rename_reference};
ghost use Rattle.naga_compact.specs.Renaming.Declarations.{rename_constant, rename_global_variable, rename_local_variable, rename_override};
ghost use Rattle.naga_compact.specs.derived.Renaming.{rename_expression, rename_statement, rename_type};
ghost use Rattle.naga_compact.specs.Renaming.Functions.{IsRenamedEntryPoint, IsRenamedFunction};
ghost use Rattle.naga_compact.specs.Renaming.Runs.{RenamedRunsFit, rename_run};
ghost use Rattle.naga_compact.specs.Renaming.Blocks.{rename_tree};
ghost use Rattle.naga_compact.specs.Renaming.Types.{rename_special_types};

pub mod modules;

/// Culling a culled block changes nothing, and nothing in it follows a statement that diverges.
pub fn culling_again_changes_nothing()
    ensures again { (block : Tree) → culled (culled block) ≡ culled block }
    ensures nothing_follows { (block : Tree) → IsCulled (culled block) }
{}

/// Culling keeps the front of a block, and of each block inside it that it keeps.
pub fn culling_leaves_a_prefix()
    ensures { (block : Tree) → IsPrefix (culled block) block }
{}

/// Culling changes nothing if and only if no statement follows one that diverges.
pub fn culled_blocks_are_their_own_culling()
    ensures { (block : Tree) → IsCulled block ↔ (culled block ≡ block) }
{}

/// No statement follows a jump in a culled block.
pub fn nothing_follows_a_jump_in_a_culled_block()
    ensures { (front : Tree) (to : Jump) (last : Node) (span span' : Span)
        → ¬ IsCulled (push (push front (jump to) span) last span') }
{}

/// The handles of a part of a module whose handles are renamed are its handles, renamed.
pub fn renaming_renames_each_handle()
    ensures types { (r : Renaming) (ty : NamedType)
        → references_of_type (rename_type r ty) ≡ map (rename_reference r) (references_of_type ty) }
    ensures special_types { (r : Renaming) (types : SpecialTypes)
        → references_of_special_types (rename_special_types r types)
        ≡ map (rename_reference r) (references_of_special_types types) }
    ensures constants { (r : Renaming) (constant : Constant)
        → references_of_constant (rename_constant r constant) ≡ map (rename_reference r) (references_of_constant constant) }
    ensures overrides { (r : Renaming) (declared : Override)
        → references_of_override (rename_override r declared) ≡ map (rename_reference r) (references_of_override declared) }
    ensures global_variables { (r : Renaming) (variable : GlobalVariable)
        → references_of_global_variable (rename_global_variable r variable)
        ≡ map (rename_reference r) (references_of_global_variable variable) }
    ensures local_variables { (r : Renaming) (variable : LocalVariable)
        → references_of_local_variable (rename_local_variable r variable)
        ≡ map (rename_reference r) (references_of_local_variable variable) }
    ensures expressions { (r : Renaming) (expression : Expression)
        → references_of_expression (rename_expression r expression)
        ≡ map (rename_reference r) (references_of_expression expression) }
    ensures statements { (r : Renaming) (statement : Statement)
        → references_of_statement (rename_statement r statement)
        ≡ map (rename_reference r) (references_of_statement statement) }
    ensures blocks { (r : Renaming) (block : Tree)
        → references_of_tree (rename_tree r block) ≡ map (rename_reference r) (references_of_tree block) }
    ensures functions { (r : Renaming) (old new : Function) → ((handle : ℕ) → r.expressions handle ≡ handle)
        → IsRenamedFunction r old new
        → (part : Part) → references_in_part new part ≡ map (rename_reference r) (references_in_part old part) }
    ensures entry_points { (r : Renaming) (old new : EntryPoint) → IsRenamedEntryPoint r old new
        → references_of_entry_point new ≡ map (rename_reference r) (references_of_entry_point old) }
{}

/// Each run of a block, renamed, is a run of the renamed block. The same holds if plain statements and the expressions
/// that control flow depends on are replaced by any functions.
pub fn runs_commute_with_renaming()
    ensures renaming { (r : Renaming) (block : Tree) → RenamedRunsFit r block (rename_tree r block) }
    ensures any { (on_plain : Statement → Statement) (on_expression : ℕ → ℕ) (block : Tree)
        → MappedRunsFit on_plain on_expression block (map_tree on_plain on_expression block) }
{}

/// If each run of a block, renamed, is a run of a second block, then the second block has no other runs.
pub fn renamed_runs_are_all_runs()
    ensures { (r : Renaming) (old new : Tree) → RenamedRunsFit r old new
        → (turns : ℕ) (answers : List ℕ) (run : Run) → BlockRuns turns new answers run
        → (before : Run) × BlockRuns turns old answers before × (run ≡ rename_run r before) }
{}

/// Compacting a compacted function again keeps all of its expressions.
pub fn compacting_again_removes_nothing()
    ensures { (old new last : Function) (kept kept_again : BoundedSet)
        → CompactsFunction old kept new → CompactsFunction new kept_again last
        → (handle : ℕ) → handle < length new.expressions → IsMember kept_again handle }
{}

/// The new indices of kept handles are in the order of the old ones, so that they are distinct.
pub fn new_indices_keep_the_order()
    ensures { (kept : ℕ → Bool) (first second : ℕ) → kept first ≡ true → first < second
        → rank kept first < rank kept second }
{}

/// As many expressions are left as handles are kept, and each kept expression is found at its new index, with its span.
pub fn kept_expressions_are_at_their_new_indices()
    ensures count { (kept : BoundedSet) (arena : List (Expression × Span))
        → length (kept_elements kept arena) ≡ new_index kept (length arena) }
    ensures each { (kept : BoundedSet) (arena : List (Expression × Span)) (handle : ℕ) (entry : Expression × Span)
        → slice_get arena handle ≡ Some entry → contains kept.members handle ≡ true
        → slice_get (kept_elements kept arena) (new_index kept handle) ≡ Some entry }
{}

/// The new range of an `Emit` has the new handles of those of its expressions that are kept, in order.
pub fn ranges_keep_what_is_kept()
    ensures { (kept : ℕ → Bool) (range : ℕ × ℕ)
        → handles_of (rename_range (rank kept) range) ≡ map (rank kept) (filter kept (handles_of range)) }
{}
