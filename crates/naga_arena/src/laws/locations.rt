//! Laws of source locations, and of the lines that they are in.
ghost use Rattle.std.specs.Prelude.{◌≡◌, ◌≢◌, ◌+◌, ◌-◌, ◌<◌, ◌≤◌, ℕ, List, Some, slice_get};
ghost use Rattle.naga_arena.specs.Location.{BeginsLine, IsLocation};
ghost use Rattle.naga_arena.specs.declared.span.SourceLocation.{SourceLocation};
ghost use Rattle.naga_arena.specs.declared.span.Span.{Span};

/// A location's line begins `line_position - 1` bytes before its offset.
pub fn location_tells_line_start()
    ensures { (text : List ℕ) (span : Span) (place : SourceLocation) → IsLocation text span place
        → BeginsLine text (place.offset + 1 - place.line_position) }
{}

/// There is no newline between the start of a location's line and its offset.
pub fn location_has_no_newline_in_line()
    ensures { (text : List ℕ) (span : Span) (place : SourceLocation) → IsLocation text span place
        → (i : ℕ) → place.offset + 1 - place.line_position ≤ i → i < place.offset
        → slice_get text i ≢ Some 10 }
{}

/// A span has at most one location in a source text.
pub fn span_has_one_location()
    ensures { (text : List ℕ) (span : Span) (place other : SourceLocation)
        → IsLocation text span place → IsLocation text span other → place ≡ other }
{}
