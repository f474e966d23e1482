//! Compacting functions and modules keeps types.
ghost use Rattle.std.specs.Prelude.{◌≡◌, [], ℕ, List, None, Option, slice_get};
ghost use Rattle.naga_arena.specs.Arena.{value_at, values};
ghost use Rattle.naga_ir.specs.declared.module.Function.{Function};
ghost use Rattle.naga_ir.specs.declared.module.Module.{Module};
ghost use Rattle.naga_sets.specs.HandleSet.{BoundedSet};
ghost use Rattle.naga_valid.specs.Valid.{HandlesAreValid};
ghost use Rattle.naga_compact.specs.Compaction.{IsMember};
ghost use Rattle.naga_compact.specs.Functions.{CompactsFunction};
ghost use Rattle.naga_compact.specs.Kept.{new_index};
ghost use Rattle.naga_compact.specs.Module.Compaction.{CompactsModule};
ghost use Rattle.naga_compact.specs.Operands.{OperandsPrecede};
ghost use Rattle.naga_compact.specs.declared.module.renumbering.ModuleRenumbering.{ModuleRenumbering};
ghost use Rattle.naga_compact.specs.declared.module.roots.KeepUnused.{KeepUnused};
ghost use Rattle.naga_typifier.specs.Typing.{typing};
ghost use Rattle.naga_typifier.specs.declared.resolution.TypeResolution.{TypeResolution as Resolved};
ghost use Rattle.naga_typing.specs.Functions.{HasTypes};
ghost use Rattle.naga_typifier.specs.Context.{context_in};
ghost use Rattle.naga_typing.specs.Modules.{KeepsAllTypes};
ghost use Rattle.naga_typing.specs.TypedModules.{FunctionIsTyped, ModuleIsTyped};

/// Each expression that a function keeps when it is compacted has its type, and the function has the same context in
/// its module. If a typifier finds the types of all expressions before, it does so after.
pub fn compacting_a_function_keeps_types()
    ensures context { (whole : Module) (old new : Function) (kept : BoundedSet) → CompactsFunction old kept new
        → context_in whole new ≡ context_in whole old }
    ensures types { (whole : Module) (old new : Function) (kept : BoundedSet) → CompactsFunction old kept new
        → OperandsPrecede old.expressions
        → (types after : ℕ → Option Resolved) → HasTypes whole old types → HasTypes whole new after
        → (handle : ℕ) → IsMember kept handle → after (new_index kept handle) ≡ types handle }
    ensures typing { (whole : Module) (old new : Function) (kept : BoundedSet) → CompactsFunction old kept new
        → OperandsPrecede old.expressions
        → (found : List Resolved) → typing (context_in whole old) [] (values old.expressions) ≡ (found, None)
        → (left : List Resolved) × (typing (context_in whole new) [] (values new.expressions) ≡ (left, None))
        × ((handle : ℕ) → IsMember kept handle → slice_get left (new_index kept handle) ≡ slice_get found handle) }
{}

/// Compacting a module keeps the types of the expressions of each function that remains, and of each entry point, with
/// the new handles of types.
pub fn compacting_a_module_keeps_types()
    ensures { (old : Module) (keep_unused : KeepUnused) (kept : ModuleRenumbering) (new : Module) → HandlesAreValid old
        → CompactsModule old keep_unused kept new → KeepsAllTypes old kept new }
{}

/// Compacting a function keeps that it is typed.
pub fn compacting_keeps_typed_functions()
    ensures { (whole : Module) (old new : Function) (kept : BoundedSet) → CompactsFunction old kept new
        → OperandsPrecede old.expressions → FunctionIsTyped whole old → FunctionIsTyped whole new }
{}

/// Compacting a module keeps that it is typed.
pub fn compacting_keeps_typed_modules()
    ensures { (old : Module) (keep_unused : KeepUnused) (kept : ModuleRenumbering) (new : Module) → HandlesAreValid old
        → CompactsModule old keep_unused kept new → ModuleIsTyped old → ModuleIsTyped new }
{}
