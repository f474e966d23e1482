//! Laws about the global variables in which pointers originate.
ghost use Rattle.std.specs.Prelude.{◌≡◌, ℕ, List, Option};
ghost use Rattle.naga_arena.specs.declared.span.Span.{Span};
ghost use Rattle.naga_ir.specs.Chain.{OriginatesIn};

use crate::expression::Expression;

/// A pointer originates in only one global variable, or in none.
pub fn pointer_has_one_origin()
    ensures { (expressions : List (Expression × Span)) (pointer : ℕ) (global other : Option ℕ)
        → OriginatesIn expressions pointer global
        → OriginatesIn expressions pointer other
        → global ≡ other }
{}
