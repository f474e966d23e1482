//! The laws on one module, in which `main` stores an index and calls `pick`, which returns the element of a buffer
//! with this index. Of these, `pick` does not fit and `main` does. And an access that is a swizzle.
ghost use Rattle.std.specs.Prelude.{◌≡◌, ℕ, Some, false, true};
ghost use Rattle.naga_ir.specs.View.{tree_of};
ghost use Rattle.naga_kinds.specs.declared.operator.SwizzleComponent.TheVariants.{Y, Z};
ghost use Rattle.naga_valid.specs.Valid.{HandlesAreValid};
ghost use Rattle.naga_bounds.specs.Examples.{Makings, MainStaysInBounds, main, main_computes, module_with_vectors, new_module, old_module, pick, start_to, stays_in_bounds, swizzling};
ghost use Rattle.naga_bounds.specs.Fits.{misfit};
ghost use Rattle.naga_bounds.specs.Model.{Memory, Value, unsigned};
ghost use Rattle.naga_bounds.specs.ModuleOutcomes.{AllInitialValuesFit};
ghost use Rattle.naga_bounds.specs.Modules.{AccessesFitIn, typed_in};
ghost use Rattle.naga_bounds.specs.RestrictedModules.{RestrictsModule};
ghost use Rattle.naga_bounds.specs.declared.cause.Cause.TheVariants.{Index, Part};

/// The new module is the old one with its accesses clamped, so `main` computes the same in both, from each start from
/// which it was in bounds with its calls: `restricted_modules`, where all premises hold.
pub fn outcomes_of_a_module()
    ensures valid { (of : Makings) → HandlesAreValid (old_module of) }
    ensures restricted { (of : Makings) → RestrictsModule (old_module of) (new_module of) }
    ensures initial_values { (of : Makings) → AllInitialValuesFit (old_module of) }
    ensures same { (of : Makings) (depth : ℕ) (start : Memory × Value) → MainStaysInBounds of (old_module of) depth start
        → main_computes of (new_module of) depth start ≡ main_computes of (old_module of) depth start }
{}

/// With seven elements, `main` is in bounds and returns the same in both modules. With three, it is out of bounds in
/// the old module alone.
pub fn accesses_of_a_module()
    ensures misfit { (of : Makings) → misfit (typed_in (old_module of) (pick of)) 2 ≡ Some (Index 1) }
    ensures fits { (of : Makings) → AccessesFitIn (old_module of) (main of) }
    ensures long { (of : Makings) → MainStaysInBounds of (old_module of) 1 (start_to 6) }
    ensures long_old { (of : Makings) → (main_computes of (old_module of) 1 (start_to 6)).returned ≡ Some (unsigned 105) }
    ensures long_new { (of : Makings) → (main_computes of (new_module of) 1 (start_to 6)).returned ≡ Some (unsigned 105) }
    ensures short { (of : Makings) → ¬ MainStaysInBounds of (old_module of) 1 (start_to 2) }
    ensures short_new { (of : Makings) → MainStaysInBounds of (new_module of) 1 (start_to 2) }
    ensures short_old { (of : Makings) → (main_computes of (old_module of) 1 (start_to 2)).returned ≡ Some (unsigned 0) }
    ensures clamped { (of : Makings) → (main_computes of (new_module of) 1 (start_to 2)).returned ≡ Some (unsigned 102) }
{}

/// A swizzle of a vector of two is out of bounds if it has the third component, and in bounds if it has the second
/// one.
pub fn swizzles_are_watched()
    ensures misfit { (of : Makings)
        → misfit (typed_in (module_with_vectors of) (swizzling of Z)) 1 ≡ Some (Part 2) }
    ensures past { (of : Makings)
        → stays_in_bounds (typed_in (module_with_vectors of) (swizzling of Z)) (tree_of (swizzling of Z).body) ≡ false }
    ensures inside { (of : Makings)
        → stays_in_bounds (typed_in (module_with_vectors of) (swizzling of Y)) (tree_of (swizzling of Y).body) ≡ true }
{}
