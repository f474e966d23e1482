//! Laws of the notation, and of the errors for texts that are rejected.
ghost use Rattle.std.specs.Prelude.{◌≡◌, ◌≢◌, ◌↔◌, ℕ, List, [], ◌∷◌, ◌++◌, Some, IsSome, IsTrue};
ghost use Rattle.naga_ir.specs.Tree.{Tree};
ghost use Rattle.naga_notation.specs.Limits.{greatest_depth, most_bytes};
ghost use Rattle.naga_notation.specs.Outline.{Outline, outline_text, drawn, Notation};
ghost use Rattle.naga_notation.specs.Reading.{Reached, read};
ghost use Rattle.naga_notation.specs.Refusal.{Begins, Refused};
ghost use Rattle.naga_notation.specs.Reading.Unfinished.{follows, ending};
ghost use Rattle.naga_notation.specs.declared.error.ShapeError.{ShapeError};

use crate::limits::{DEPTH_LIMIT, LENGTH_LIMIT};

/// The limits have the values that contracts name.
pub fn limits_have_their_values()
    ensures length { LENGTH_LIMIT ≡ most_bytes }
    ensures depth { DEPTH_LIMIT ≡ greatest_depth }
{}

/// Each text is the notation of at most one block.
pub fn text_has_one_block()
    ensures { (text : List ℕ) (b c : Tree) → Notation text b → Notation text c → b ≡ c }
{}

/// Each block has at most one notation. A block that is drawn from an outline has one.
pub fn block_has_one_text()
    ensures at_most_one { (block : Tree) (text other : List ℕ) →
        Notation text block → Notation other block → text ≡ other }
    ensures drawn_has_one { (outline : Outline) → Notation (outline_text outline) (drawn outline) }
{}

/// A text can be continued to a notation if and only if it can be read to its end.
pub fn text_begins_where_read()
    ensures { (text : List ℕ) → Begins text ↔ IsSome (read text) }
{}

/// The unfinished blocks and statements determine which bytes may follow a text.
pub fn unfinished_says_what_follows()
    ensures { (text : List ℕ) (reached : Reached) (byte : ℕ) →
        read text ≡ Some reached → (Begins (text ++ byte ∷ []) ↔ IsTrue (follows reached byte)) }
{}

/// The unfinished blocks and statements determine an ending that completes a text to a notation.
pub fn unfinished_says_an_ending()
    ensures { (text : List ℕ) (reached : Reached) →
        read text ≡ Some reached → (block : Tree) × Notation (text ++ ending reached) block }
{}

/// A text has at most one error, apart from a failed allocation.
pub fn text_has_one_refusal()
    ensures { (text : List ℕ) (error other : ShapeError) →
        Refused text error → Refused text other → error ≢ ShapeError.Memory → other ≢ ShapeError.Memory →
        error ≡ other }
{}
