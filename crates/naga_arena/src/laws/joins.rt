//! Laws of joining spans, including spans whose start is greater than their end.
ghost use Rattle.std.specs.Prelude.{◌≡◌, List, IsTrue};
ghost use Rattle.std.specs.List.Sorted.{IsPermutation};
ghost use Rattle.naga_arena.specs.Span.{undefined, is_defined, join, total};
ghost use Rattle.naga_arena.specs.declared.span.Span.{Span};

/// The join of three spans does not depend on which two are joined first.
pub fn join_is_associative()
    ensures { (r s t : Span) → join (join r s) t ≡ join r (join s t) }
{}

/// The join of two spans does not depend on their order.
pub fn join_is_commutative()
    ensures { (s t : Span) → join s t ≡ join t s }
{}

/// A span joined with itself is that span.
pub fn join_is_idempotent()
    ensures { (s : Span) → join s s ≡ s }
{}

/// Joining with `UNDEFINED`, on either side, changes nothing.
pub fn undefined_is_identity()
    ensures left { (s : Span) → join undefined s ≡ s }
    ensures right { (s : Span) → join s undefined ≡ s }
{}

/// The join of two defined spans is defined.
pub fn join_is_defined()
    ensures { (s t : Span) → IsTrue (is_defined s) → IsTrue (is_defined t)
        → IsTrue (is_defined (join s t)) }
{}

/// The total of a list of spans does not depend on their order.
pub fn total_is_of_any_order()
    ensures { (spans others : List Span) → IsPermutation spans others → total spans ≡ total others }
{}
