//! Laws of texts.
ghost use Rattle.std.specs.Prelude.{◌≡◌, ℕ, List, encode_utf8_all, false, true};
ghost use Rattle.std.specs.List.{list_all};
ghost use Rattle.std.specs.Str.{all_scalars};
ghost use Rattle.naga_text.specs.Escapes.{escaped, is_direction, is_plain, visible};
ghost use Rattle.naga_text.specs.Module.{module_text, module_text_compared};
ghost use Rattle.naga_text.specs.Readable.{IsPlain, IsReadable};

use naga_ir::Module;

/// A module that is compared with itself has the same text as one that is not compared: nothing is marked.
pub fn nothing_is_marked_without_a_change()
    ensures { (whole : Module) → module_text_compared whole whole ≡ module_text whole }
{}

/// A mark that turns the direction of the text is among the characters that are escaped.
#[tactic(auto, using(crate::proofs::IsPlainLemmas::direction_is_escaped))]
pub fn marks_of_direction_are_escaped()
    ensures { (c : ℕ) → is_direction c ≡ true → is_plain c ≡ false }
{}

/// An escaped name contains only characters that show themselves, so no newline either.
pub fn escaped_name_is_plain()
    ensures { (name : List ℕ) → IsPlain (escaped name) }
{}

/// A message in which the other characters are escaped contains only characters that show themselves.
pub fn visible_message_is_plain()
    ensures { (message : List ℕ) → IsPlain (visible message) }
{}

/// A message of such characters is unchanged.
pub fn plain_message_is_unchanged()
    ensures { (characters : List ℕ) → all_scalars characters ≡ true → list_all is_plain characters ≡ true
        → visible (encode_utf8_all characters) ≡ encode_utf8_all characters }
{}

/// The text of a module is readable, whatever the names in it and in an old module are.
pub fn text_of_a_module_is_readable()
    ensures { (old new : Module) → IsReadable (module_text new) × IsReadable (module_text_compared old new) }
{}
