//! Literals and their texts.
ghost use Rattle.std.specs.Prelude.{◌≡◌, ℕ, List, Ok};
ghost use Rattle.naga_ir.specs.declared.literal.Literal.{Literal};
ghost use Rattle.naga_wgsl.specs.Literals.{IsInRange, text_of_literal};

/// Two literals have different texts, unless they are equal.
pub fn texts_of_literals_differ()
    ensures { (one other : Literal) (text : List ℕ) → IsInRange one → IsInRange other
        → text_of_literal one ≡ Ok text → text_of_literal other ≡ Ok text → one ≡ other }
{}
