//! Laws of the notation, of its errors, and of answers.
ghost use Rattle.std.specs.Prelude.{◌≡◌, ◌≢◌, ◌↔◌, ℕ, List, [], ◌∷◌, ◌++◌};
ghost use Rattle.naga_ir.specs.Tree.{Tree};
ghost use Rattle.naga_proc.specs.Closing.{ClosedBy};
ghost use Rattle.naga_proc.specs.declared.terminator.rule.Rule.{Rule};
ghost use Rattle.naga_notation.specs.Outline.{Notation};
ghost use Rattle.naga_notation.specs.Refusal.{Refused};
ghost use Rattle.naga_proc.specs.Reshape.{Reshapes};
ghost use Rattle.naga_notation.specs.declared.error.ShapeError.{ShapeError};

pub use naga_notation::laws::{
    block_has_one_text, limits_have_their_values, text_begins_where_read, text_has_one_block,
    text_has_one_refusal, unfinished_says_an_ending, unfinished_says_what_follows,
};

/// If a block has a text, its closing by each rule has one, too.
pub fn closing_has_text()
    ensures { (rule : Rule) (text : List ℕ) (b c : Tree)
        → Notation text b → ClosedBy rule b c → (answer : List ℕ) × Notation answer c }
{}

/// A text has at most one answer by each rule.
pub fn text_has_one_answer()
    ensures { (rule : Rule) (text answer other : List ℕ)
        → Reshapes rule text answer → Reshapes rule text other → answer ≡ other }
{}

/// For a text that has an answer, by either rule, `Memory` is the only possible error.
pub fn answered_text_is_not_refused()
    ensures { (rule : Rule) (text answer : List ℕ) (error : ShapeError)
        → Reshapes rule text answer → Refused text error → error ≡ ShapeError.Memory }
{}
