//! What a language reserves.
ghost use Rattle.std.specs.Prelude.{◌≡◌};
ghost use Rattle.std.specs.List.{list_any};
ghost use Rattle.std.specs.Str.{str_eq_ignore_ascii_case};
ghost use Rattle.naga_namer.specs.Names.{is_reserved};
ghost use Rattle.naga_namer.specs.Reserved.{reserved_by};
ghost use Rattle.naga_namer.specs.Words.{texts};

use crate::words::contains_word;

/// The words that names of a language must not be, and what they must not begin with.
#[derive(Clone, Copy, Debug, Drop)]
pub struct ReservedNames<'a> {
    /// Words with a meaning in the grammar, or set aside for one.
    pub keywords: &'a [&'a str],
    /// What the language declares itself.
    pub builtins: &'a [&'a str],
    /// Words that names must not be in any case of their letters.
    pub case_insensitive: &'a [&'a str],
    /// What names must not begin with.
    pub prefixes: &'a [&'a str],
}

impl ReservedNames<'_> {
    /// Returns whether a text is one of the words.
    pub fn contains(&self, text: &str) -> bool
        ensures { result ≡ is_reserved (reserved_by self.now) text.now }
    {
        contains_word(self.keywords, text)
            || contains_word(self.builtins, text)
            || contains_ignoring_case(self.case_insensitive, text)
    }
}

/// Returns whether a text is one of the words, whatever the case of its letters.
pub(crate) fn contains_ignoring_case(words: &[&str], text: &str) -> bool
    ensures { result ≡ list_any (λ word. str_eq_ignore_ascii_case word text.now) (texts words.now) }
{
    for word in words {
        if equals_ignoring_case(word, text) {
            return true;
        }
    }
    false
}

/// Returns whether two texts are the same but for the case of ASCII letters.
fn equals_ignoring_case(word: &str, text: &str) -> bool
    ensures { result ≡ str_eq_ignore_ascii_case word.now text.now }
{
    word.eq_ignore_ascii_case(text)
}
