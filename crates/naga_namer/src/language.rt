//! What a language reserves, as a namer holds it.
ghost use Rattle.std.specs.Prelude.{◌≡◌};
ghost use Rattle.naga_namer.specs.Languages.{reserved_in};
ghost use Rattle.naga_namer.specs.Names.{is_reserved};
ghost use Rattle.naga_namer.specs.Reserved.{reserved_by};

use crate::reserved::{ReservedNames, contains_ignoring_case};
use crate::words::WordList;

/// What a language reserves. Of its words it is known whether they are in ascending order.
#[derive(Clone, Copy, Drop)]
pub(crate) struct Language<'a> {
    keywords: WordList<'a>,
    builtins: WordList<'a>,
    case_insensitive: &'a [&'a str],
    pub(crate) prefixes: &'a [&'a str],
}

impl<'a> Language<'a> {
    /// Creates the language that reserves these words.
    pub(crate) fn new(reserved: ReservedNames<'a>) -> Self
        ensures { reserved_in result ≡ reserved_by reserved.entry }
    {
        Language {
            keywords: WordList::new(reserved.keywords),
            builtins: WordList::new(reserved.builtins),
            case_insensitive: reserved.case_insensitive,
            prefixes: reserved.prefixes,
        }
    }

    /// Returns whether a text is one of the words.
    pub(crate) fn reserves(&self, text: &str) -> bool
        ensures { result ≡ is_reserved (reserved_in self.now) text.now }
    {
        self.keywords.contains(text)
            || self.builtins.contains(text)
            || contains_ignoring_case(self.case_insensitive, text)
    }
}
