//! Lists of words that are searched many times.
ghost use Rattle.std.specs.Prelude.{◌≡◌, IsTrue, true, false};
ghost use Rattle.std.specs.Cmp.Lexicographic.{slice_cmp};
ghost use Rattle.std.specs.List.{list_any};
ghost use Rattle.std.specs.List.Sorted.{IsPartitionPoint};
ghost use Rattle.std.specs.Ordering.{is_lt, nat_cmp};
ghost use Rattle.std.specs.Str.{bytes_eq};
ghost use Rattle.naga_namer.specs.Words.{Ascend, texts};

/// Words, of which it is known whether they are in ascending order.
#[derive(Clone, Copy, Drop)]
pub(crate) struct WordList<'a> {
    pub(crate) words: &'a [&'a str],
    is_sorted: bool,
    ghost sorted: { IsTrue is_sorted → Ascend words.now },
}

impl<'a> WordList<'a> {
    /// Creates a list of words, and compares each with the next one.
    #[tactic(auto, using(crate::proofs::SearchLemmas::ascends))]
    pub(crate) fn new(words: &'a [&'a str]) -> Self
        ensures { result.words.now ≡ words.now }
    {
        WordList {
            words,
            is_sorted: words.is_sorted(),
        }
    }

    /// Returns whether a text is one of the words. Words in ascending order are searched by halves.
    pub(crate) fn contains(&self, text: &str) -> bool
        ensures { result ≡ list_any (λ word. bytes_eq word text.now) (texts self.now.words.now) }
    {
        if self.is_sorted {
            return contains_sorted(self.words, text);
        }
        contains_word(self.words, text)
    }
}

/// Returns whether a text is one of the words.
pub(crate) fn contains_word(words: &[&str], text: &str) -> bool
    ensures { result ≡ list_any (λ word. bytes_eq word text.now) (texts words.now) }
{
    for word in words {
        if *word == text {
            return true;
        }
    }
    false
}

/// Returns whether a text is one of the words, which are in ascending order.
fn contains_sorted(words: &[&str], text: &str) -> bool
    requires { Ascend words.now }
    ensures { result ≡ list_any (λ word. bytes_eq word text.now) (texts words.now) }
{
    let index = first_not_before(words, text);
    index < words.len() && words[index] == text
}

/// Returns the index of the first word that does not come before a text, or the number of words if there is none. The
/// words are in ascending order.
fn first_not_before(words: &[&str], text: &str) -> usize
    requires { Ascend words.now }
    ensures { IsPartitionPoint (λ word. is_lt (slice_cmp nat_cmp word.now text.now) ≡ true)
        (λ word. is_lt (slice_cmp nat_cmp word.now text.now) ≡ false) words.now result }
{
    let mut low = 0;
    let mut high = words.len();
    'halves: while low < high {
        let middle = low + (high - low) / 2;
        if precedes(words[middle], text) {
            low = middle + 1;
        } else {
            high = middle;
        }
    }
    low
}

/// Returns whether a word comes before a text, by their bytes.
#[inline]
fn precedes(word: &str, text: &str) -> bool
    ensures { result ≡ is_lt (slice_cmp nat_cmp word.now text.now) }
{
    word.cmp(text).is_lt()
}
