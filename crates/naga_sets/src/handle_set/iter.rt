//! The iterator over the members of a handle set.
ghost use Rattle.std.specs.Prelude.{◌≡◌, ◌<◌, ◌≤◌, ◌∷◌, length};
ghost use Rattle.std.specs.Iterator.{YieldsFirst, item_count};
ghost use Rattle.std.specs.List.{All};
ghost use Rattle.naga_sets.specs.Words.{bits_from, words_for};
ghost use Rattle.naga_arena.specs.Limits.{max_len};

use super::words::WORD_BITS;
use naga_arena::{Handle, KindName};
use std::iter::FusedIterator;
use std::marker::{Model, PhantomData};

/// An iterator over the members of a handle set, in ascending order of their indices.
///
/// In contracts, it is the list of the remaining members.
#[derive(Drop)]
pub struct HandleSetIter<'a, T> {
    // The current word, without the bits of the members that were already yielded.
    word: u64,
    // The index that the lowest bit of `word` represents.
    first: usize,
    rest: &'a [u64],
    as_keys: PhantomData<T>,
}

impl<'a, T> Model for HandleSetIter<'a, T> {
    ghost use Rattle.std.specs.Prelude.{ℕ, List, ◌∷◌, length, ◌+◌, ◌*◌, ◌<◌, ◌≤◌};
    ghost use Rattle.std.specs.List.{All};
    ghost use Rattle.naga_arena.specs.Limits.{max_len};
    ghost use Rattle.naga_sets.specs.Words.{bits_from, words_for};

    ghost Value = { List ℕ };

    ghost view = { λ it. bits_from it.first (it.word ∷ it.rest.now) };

    ghost invariant = { λ it. All (λ index. index < max_len) (bits_from it.first (it.word ∷ it.rest.now))
        × (it.first + 64 * length it.rest.now ≤ max_len + 1) };
}

impl<'a, T> HandleSetIter<'a, T> {
    pub(super) fn new(words: &'a [u64]) -> Self
        requires few { length words.now ≤ words_for max_len }
        requires below { All (λ index. index < max_len) (bits_from 0 words.now) }
        ensures { result ≡ bits_from 0 words.now }
    {
        let (word, rest) = first_word(words);
        HandleSetIter {
            word,
            first: 0,
            rest,
            as_keys: PhantomData,
        }
    }
}

/// Returns the first word and the remaining words. The first word is 0 if there are no words.
fn first_word(words: &[u64]) -> (u64, &[u64])
    requires { All (λ index. index < max_len) (bits_from 0 words.now) }
    ensures same { bits_from 0 (result.0 ∷ result.1.now) ≡ bits_from 0 words.now }
    ensures below { All (λ index. index < max_len) (bits_from 0 (result.0 ∷ result.1.now)) }
    ensures len { length result.1.now ≤ length words.now }
{
    match words.split_first() {
        Some((word, rest)) => (*word, rest),
        None => (0, words),
    }
}

impl<'a, T: KindName> Iterator for HandleSetIter<'a, T> {
    type Item = Handle<T>;

    ghost next_gives = { YieldsFirst (λ rest. rest) };

    ghost remaining = { item_count (λ rest. rest) };

    fn next(&mut self) -> Option<Handle<T>> {
        'words: while self.word == 0 {
            let (word, rest) = self.rest.split_first()?;
            self.word = *word;
            self.rest = rest;
            self.first += WORD_BITS;
        }
        let index = self.first + self.word.trailing_zeros() as usize;
        self.word &= self.word - 1;
        Some(Handle::<T>::at(index))
    }
}

impl<'a, T: KindName> FusedIterator for HandleSetIter<'a, T> {}
