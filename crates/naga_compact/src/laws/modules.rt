//! Laws of the elements of a module that are used, and of modules that are compacted.
ghost use Rattle.std.specs.Prelude.{◌≡◌, Bool, map, option_to_list, true};
ghost use Rattle.std.specs.List.{AllZip, Contains};
ghost use Rattle.naga_arena.specs.Arena.{values};
ghost use Rattle.naga_ir.specs.declared.module.Constant.{Constant};
ghost use Rattle.naga_ir.specs.declared.module.EntryPoint.{EntryPoint};
ghost use Rattle.naga_ir.specs.declared.module.Function.{Function};
ghost use Rattle.naga_ir.specs.declared.module.GlobalVariable.{GlobalVariable};
ghost use Rattle.naga_ir.specs.declared.module.Override.{Override};
ghost use Rattle.naga_ir.specs.declared.types.«Type».{«Type» as NamedType};
ghost use Rattle.naga_compact.specs.Kept.{kept_elements};
ghost use Rattle.naga_compact.specs.Module.Compaction.{CompactsFunctions, CompactsModule, RemovesElements, kept_handles};
ghost use Rattle.naga_compact.specs.Module.References.{IsElement};
ghost use Rattle.naga_compact.specs.Module.Used.{AreUsed, RefersTo, is_member, roots};
ghost use Rattle.naga_valid.specs.Valid.{HandlesAreValid};

use crate::module::{KeepUnused, ModuleRenumbering, UsedHandles};
use naga_ir::Module;
use naga_valid::Reference;

/// Each root that is in the module is used, and so is each element of the module to which a used one refers.
pub fn used_elements_refer_to_used_ones()
    ensures root { (whole : Module) (keep_unused : KeepUnused) (used : UsedHandles) (element : Reference)
        → AreUsed whole keep_unused used
        → Contains (roots whole keep_unused) element
        → IsElement whole element
        → is_member used element ≡ true }
    ensures reference { (whole : Module) (keep_unused : KeepUnused) (used : UsedHandles) (element other : Reference)
        → AreUsed whole keep_unused used
        → is_member used element ≡ true
        → RefersTo whole element other
        → IsElement whole other
        → is_member used other ≡ true }
{}

/// There are no smaller sets with this property: each test that all roots pass, and each handle to which one that
/// passes refers, is passed by all used elements.
pub fn used_elements_are_the_fewest()
    ensures { (whole : Module) (keep_unused : KeepUnused) (used : UsedHandles) (passes : Reference → Bool)
        → AreUsed whole keep_unused used
        → ((root : Reference) → Contains (roots whole keep_unused) root → passes root ≡ true)
        → ((element other : Reference) → passes element ≡ true → RefersTo whole element other → passes other ≡ true)
        → (element : Reference) → is_member used element ≡ true → passes element ≡ true }
{}

/// A valid module stays valid if each of its functions is compacted by itself.
pub fn compacting_functions_keeps_handles_valid()
    ensures { (old new : Module) → CompactsFunctions old new → HandlesAreValid old → HandlesAreValid new }
{}

/// If the elements of a module that are not used are removed, all handles are still valid.
pub fn removing_unused_elements_keeps_handles_valid()
    ensures { (whole new : Module) (keep_unused : KeepUnused) (kept : ModuleRenumbering)
        → AreUsed whole keep_unused (kept_handles kept)
        → RemovesElements kept whole new
        → HandlesAreValid whole
        → HandlesAreValid new }
{}

/// Compacting a module keeps the names of all elements that are kept, in order, those of the entry points, and the
/// comments on the module and on entry points.
pub fn compacting_keeps_names_and_comments()
    ensures types { (old new : Module) (keep_unused : KeepUnused) (kept : ModuleRenumbering)
        → CompactsModule old keep_unused kept new
        → map (λ (ty : NamedType). ty.name) (values new.types)
        ≡ map (λ (ty : NamedType). ty.name) (values (kept_elements kept.types old.types)) }
    ensures constants { (old new : Module) (keep_unused : KeepUnused) (kept : ModuleRenumbering)
        → CompactsModule old keep_unused kept new
        → map (λ (declared : Constant). declared.name) (values new.constants)
        ≡ map (λ (declared : Constant). declared.name) (values (kept_elements kept.constants old.constants)) }
    ensures overrides { (old new : Module) (keep_unused : KeepUnused) (kept : ModuleRenumbering)
        → CompactsModule old keep_unused kept new
        → map (λ (declared : Override). declared.name) (values new.overrides)
        ≡ map (λ (declared : Override). declared.name) (values (kept_elements kept.overrides old.overrides)) }
    ensures variables { (old new : Module) (keep_unused : KeepUnused) (kept : ModuleRenumbering)
        → CompactsModule old keep_unused kept new
        → map (λ (declared : GlobalVariable). declared.name) (values new.global_variables)
        ≡ map (λ (declared : GlobalVariable). declared.name) (values (kept_elements kept.global_variables old.global_variables)) }
    ensures functions { (old new : Module) (keep_unused : KeepUnused) (kept : ModuleRenumbering)
        → CompactsModule old keep_unused kept new
        → map (λ (declared : Function). declared.name) (values new.functions)
        ≡ map (λ (declared : Function). declared.name) (values (kept_elements kept.functions old.functions)) }
    ensures entry_points { (old new : Module) (keep_unused : KeepUnused) (kept : ModuleRenumbering)
        → CompactsModule old keep_unused kept new
        → map (λ (entry : EntryPoint). entry.name) new.entry_points.items
        ≡ map (λ (entry : EntryPoint). entry.name) old.entry_points.items }
    ensures comments { (old new : Module) (keep_unused : KeepUnused) (kept : ModuleRenumbering)
        → CompactsModule old keep_unused kept new
        → AllZip (λ before after. (after.value.«module» ≡ before.value.«module»)
        × (after.value.entry_points ≡ before.value.entry_points))
        (option_to_list old.doc_comments) (option_to_list new.doc_comments) }
{}
