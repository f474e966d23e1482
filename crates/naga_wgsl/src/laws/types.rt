//! Types and their texts.
ghost use Rattle.std.specs.Prelude.{◌≡◌, ℕ, List, Ok};
ghost use Rattle.naga_kinds.specs.declared.scalar.Scalar.{Scalar};
ghost use Rattle.naga_wgsl.specs.Types.{scalar_text};

/// Two scalar types have different names, unless they are equal.
pub fn names_of_scalars_differ()
    ensures { (one other : Scalar) (text : List ℕ) → scalar_text one ≡ Ok text → scalar_text other ≡ Ok text → one ≡ other }
{}
