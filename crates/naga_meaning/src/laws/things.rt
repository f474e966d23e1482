//! What handles represent.
ghost use Rattle.std.specs.Prelude.{◌≡◌, ◌↔◌, ℕ, Option, Some};
ghost use Rattle.std.specs.declared.alloc.Global.{Global};
ghost use Rattle.std.specs.declared.string.String.{String};
ghost use Rattle.naga_arena.specs.Arena.{value_at};
ghost use Rattle.naga_ir.specs.declared.module.GlobalVariable.{GlobalVariable};
ghost use Rattle.naga_ir.specs.declared.module.Module.{Module};
ghost use Rattle.naga_ir.specs.declared.types.«Type».{«Type» as NamedType};
ghost use Rattle.naga_valid.specs.Valid.{HandlesAreValid};
ghost use Rattle.naga_valid.specs.declared.reference.Reference.{Reference};
ghost use Rattle.naga_valid.specs.declared.reference.Reference.TheVariants as reference;
ghost use Rattle.naga_compact.specs.Module.Compaction.{CompactsModule};
ghost use Rattle.naga_compact.specs.declared.module.renumbering.ModuleRenumbering.{ModuleRenumbering};
ghost use Rattle.naga_compact.specs.declared.module.roots.KeepUnused.{KeepUnused};
ghost use Rattle.naga_meaning.specs.KeptThings.{KeepsMeaningsOf, KeepsPlaces, KeepsThings};
ghost use Rattle.naga_meaning.specs.ThingExamples.{with_types, with_variables};
ghost use Rattle.naga_meaning.specs.Things.{HasSameParts, IsWholeFrom, function_place, placed, thing_of};

/// In a module whose handles are valid, what a handle represents is finite: from some depth on, nothing is left to be
/// unfolded.
pub fn things_are_finite<Place>()
    ensures { (whole : Module) (place : Reference → Place) → HandlesAreValid whole → (name : Reference)
        → (depth : ℕ) × IsWholeFrom (thing_of whole place name) depth }
{}

/// Two handles represent the same if and only if the same is declared of both elements, at the same place, and the
/// handles in both represent the same.
pub fn things_are_alike_by_their_parts<Place>()
    ensures { (whole : Module) (place : Reference → Place) (a b : Reference)
        → (thing_of whole place a ≡ thing_of whole place b) ↔ HasSameParts whole place a b }
{}

/// Types with equal contents represent the same, whatever their handles and their names are.
pub fn equal_types_are_one_thing<Place>()
    ensures { (whole : Module) (place : Reference → Place) (a b : ℕ) (first second : NamedType)
        → value_at whole.types a ≡ Some first → value_at whole.types b ≡ Some second → first.inner ≡ second.inner
        → thing_of whole place (reference.«Type» a) ≡ thing_of whole place (reference.«Type» b) }
{}

/// Two global variables, overrides or functions with different places are two things, even if they are equal. At one
/// place equal variables are one thing.
pub fn different_places_are_two_things<Place>()
    ensures different { (whole : Module) (place : Reference → Place) (a b : Reference)
        → thing_of whole place a ≡ thing_of whole place b → placed place a ≡ placed place b }
    ensures one { (whole : Module) (place : Reference → Place) (a b : ℕ)
        → value_at whole.global_variables a ≡ value_at whole.global_variables b
        → place (reference.GlobalVariable a) ≡ place (reference.GlobalVariable b)
        → thing_of whole place (reference.GlobalVariable a) ≡ thing_of whole place (reference.GlobalVariable b) }
{}

/// A function is found by its place.
pub fn functions_are_found<Place>()
    ensures { (whole : Module) (place : Reference → Place) (handle : ℕ)
        → function_place (thing_of whole place (reference.Function handle)) ≡ Some (place (reference.Function handle)) }
{}

/// Two equal types at different handles, and pointers to them, represent the same; pointers to different types do not.
/// Two equal global variables are two things.
pub fn things_are_computed<Place>()
    ensures types { (whole : Module) (place : Reference → Place) (name other : Option (String Global))
        → thing_of (with_types whole name other) place (reference.«Type» 0)
        ≡ thing_of (with_types whole name other) place (reference.«Type» 1) }
    ensures pointers { (whole : Module) (place : Reference → Place) (name other : Option (String Global))
        → thing_of (with_types whole name other) place (reference.«Type» 3)
        ≡ thing_of (with_types whole name other) place (reference.«Type» 4) }
    ensures different { (whole : Module) (place : Reference → Place) (name other : Option (String Global))
        → ¬ (thing_of (with_types whole name other) place (reference.«Type» 3)
        ≡ thing_of (with_types whole name other) place (reference.«Type» 5)) }
    ensures variables { (whole : Module) (variable : GlobalVariable)
        → ¬ (thing_of (with_variables whole variable) (λ name. name) (reference.GlobalVariable 0)
        ≡ thing_of (with_variables whole variable) (λ name. name) (reference.GlobalVariable 1)) }
{}

/// Whatever places the global variables, overrides and functions of a module have, those that are kept can keep them.
pub fn places_are_carried_along<Place>()
    ensures { (old : Module) (keep_unused : KeepUnused) (kept : ModuleRenumbering) (new : Module)
        → CompactsModule old keep_unused kept new → (place : Reference → Place)
        → (place' : Reference → Place) × KeepsPlaces kept place place' }
{}

/// A module and its compacted one agree on what handles represent that are kept, if global variables, overrides and
/// functions that are kept keep their places.
pub fn compacting_keeps_things<Place>()
    ensures { (old : Module) (keep_unused : KeepUnused) (kept : ModuleRenumbering) (new : Module) → HandlesAreValid old
        → CompactsModule old keep_unused kept new → (place place' : Reference → Place) → KeepsPlaces kept place place'
        → KeepsThings kept (thing_of old place) (thing_of new place') }
{}

/// Compacting a module keeps the meaning of each function that remains, and of each entry point, where each handle
/// represents what is declared in its module.
pub fn compacting_keeps_meanings_of_things<Place, Value, State>()
    ensures { (old : Module) (keep_unused : KeepUnused) (kept : ModuleRenumbering) (new : Module) → HandlesAreValid old
        → CompactsModule old keep_unused kept new → (place place' : Reference → Place) → KeepsPlaces kept place place'
        → KeepsMeaningsOf Value State (thing_of old place) (thing_of new place') old kept new }
{}
