//! Dropping expressions that nothing needs and renaming the others keeps meanings, and so does compaction.
ghost use Rattle.std.specs.Prelude.{◌≡◌, ℕ, Bool, true};
ghost use Rattle.std.specs.FinSet.{contains};
ghost use Rattle.naga_ir.specs.Tree.{Tree};
ghost use Rattle.naga_ir.specs.declared.module.Function.{Function};
ghost use Rattle.naga_ir.specs.declared.module.Module.{Module};
ghost use Rattle.naga_ir.specs.declared.statement.Statement.{Statement};
ghost use Rattle.naga_sets.specs.HandleSet.{BoundedSet};
ghost use Rattle.naga_valid.specs.Valid.{HandlesAreValid};
ghost use Rattle.naga_valid.specs.declared.reference.Reference.{Reference};
ghost use Rattle.naga_compact.specs.Functions.{CompactsFunction};
ghost use Rattle.naga_compact.specs.Kept.{new_index};
ghost use Rattle.naga_compact.specs.Mapping.{map_tree};
ghost use Rattle.naga_compact.specs.Module.Compaction.{CompactsModule};
ghost use Rattle.naga_compact.specs.Operands.{OperandsPrecede};
ghost use Rattle.naga_compact.specs.Renaming.Functions.{IsRenamedFunction};
ghost use Rattle.naga_compact.specs.Renaming.Renumbering.{renaming_of};
ghost use Rattle.naga_compact.specs.declared.module.renumbering.ModuleRenumbering.{ModuleRenumbering};
ghost use Rattle.naga_compact.specs.declared.module.roots.KeepUnused.{KeepUnused};
ghost use Rattle.naga_meaning.specs.Functions.{HandlesAreInside, HasNames, LooksAlike, Meanings, meaning};
ghost use Rattle.naga_meaning.specs.Machine.{IsIn};
ghost use Rattle.naga_meaning.specs.Modules.{KeepsMeanings};
ghost use Rattle.naga_flow.specs.Readings.{constant_chains_in};
ghost use Rattle.naga_meaning.specs.Readings.{ReadsAlike, chains_in, read_by};
ghost use Rattle.naga_meaning.specs.Renaming.{IsKept, RenamesCode, RenamesStatement, SameKept};
ghost use Rattle.naga_meaning.specs.Values.{Code, Interpretation, Parts, World, outcome};

/// Where expressions are dropped that nothing needs, and the others renamed, each body keeps its outcome.
pub fn renaming_keeps_outcomes<Shape, Action, Value, State>()
    ensures { (parts parts' : Parts Action) (by : Interpretation Shape Action Value State) (kept : ℕ → Bool) (f : ℕ → ℕ)
        (old new : Code Shape) → RenamesCode kept f old new
        → (on_plain : Statement → Statement) (turns : ℕ) (body : Tree)
        → IsIn (λ what. RenamesStatement kept f parts parts' what (on_plain what)) (IsKept kept f) body
        → (a b : World Value State) → SameKept kept f a b
        → outcome parts' by new turns (map_tree on_plain f body) b ≡ outcome parts by old turns body a }
{}

/// Renaming the elements of the module to which a function refers keeps its meaning, if the new handles represent
/// what the old ones represented.
pub fn renaming_keeps_meanings<Thing, Value, State>()
    ensures { (renumbering : ModuleRenumbering) (old new : Function)
        → IsRenamedFunction (renaming_of renumbering) old new → OperandsPrecede old.expressions
        → (names : Reference → Bool) → HasNames (λ name. names name ≡ true) old
        → (look look' : Reference → Thing)
        → LooksAlike (λ name. names name ≡ true) (renaming_of renumbering) look look'
        → (at_use : ℕ → Bool) (by : Meanings Thing Value State) (turns : ℕ) (start : World Value State)
        → meaning look' by turns (read_by at_use new) start ≡ meaning look by turns (read_by at_use old) start }
{}

/// Compacting a function keeps its meaning, whatever operators and statements do, whatever handles of types,
/// constants, functions and so on represent, and whichever of its expressions are evaluated where they are used.
pub fn compacting_keeps_meanings<Thing, Value, State>()
    ensures { (old new : Function) (kept : BoundedSet) → CompactsFunction old kept new → HandlesAreInside old
        → (at_use at_use' : ℕ → Bool) → ReadsAlike (contains kept.members) (new_index kept) at_use at_use'
        → (look : Reference → Thing) (by : Meanings Thing Value State) (turns : ℕ) (a b : World Value State)
        → SameKept (contains kept.members) (new_index kept) a b
        → meaning look by turns (read_by at_use' new) b ≡ meaning look by turns (read_by at_use old) a }
{}

/// Both readings that are defined read an expression that compaction keeps as they read it before: by access chains,
/// and by chosen accesses by constant indices, if the same accesses are chosen.
pub fn compacting_keeps_readings()
    ensures chains { (old new : Function) (kept : BoundedSet) → CompactsFunction old kept new
        → ReadsAlike (contains kept.members) (new_index kept) (chains_in old.expressions) (chains_in new.expressions) }
    ensures constant_chains { (old new : Function) (kept : BoundedSet) → CompactsFunction old kept new
        → OperandsPrecede old.expressions
        → (chosen chosen' : ℕ → Bool) → ReadsAlike (contains kept.members) (new_index kept) chosen chosen'
        → ReadsAlike (contains kept.members) (new_index kept)
        (constant_chains_in chosen old.expressions) (constant_chains_in chosen' new.expressions) }
{}

/// Compacting a module keeps the meaning of each function that remains, and of each entry point, by both readings that
/// are defined, and by any other that reads them alike.
pub fn compacting_a_module_keeps_meanings<Thing, Value, State>()
    ensures { (old : Module) (keep_unused : KeepUnused) (kept : ModuleRenumbering) (new : Module) → HandlesAreValid old
        → CompactsModule old keep_unused kept new → KeepsMeanings Thing Value State old kept new }
{}
