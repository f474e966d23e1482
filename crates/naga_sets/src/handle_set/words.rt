//! The 64-bit words in which a handle set is stored. A number is in the set if its bit is set.
ghost use Rattle.std.specs.Prelude.{◌≡◌, ◌<◌, ◌≤◌, ◌+◌, ◌/◌, ◌==◌, ◌↔◌, [], max, not, IsTrue, IsOk, OnOk, OnErr, IfOk, IfSome, IfNone, length, vec_len, vec_capacity};
ghost use Rattle.std.specs.FinSet as set;
ghost use Rattle.std.specs.List.{list_all};
ghost use Rattle.naga_sets.specs.HandleSet.{numbers_below, IsGreatest};
ghost use Rattle.naga_sets.specs.Words.{has_bit, bit_set, words_for};
ghost use Rattle.naga_arena.specs.Limits.{max_len};

use std::alloc::AllocError;

/// The number of bits in a word.
pub(super) const WORD_BITS: usize = 64;

/// Returns the number of words that contain all bits below a bound.
///
/// Precondition: `bound` is at most `u32::MAX`.
pub(super) fn words_for(bound: usize) -> usize
    requires { bound ≤ max_len }
    ensures { result ≡ words_for bound }
{
    bound.div_ceil(WORD_BITS)
}

/// Returns whether a bit is set. No bit past the last word is set.
pub(super) fn has_bit(words: &[u64], number: usize) -> bool
    ensures { result ≡ has_bit words.now number }
{
    match words.get(number / WORD_BITS) {
        Some(word) => *word >> (number % WORD_BITS) & 1 == 1,
        None => false,
    }
}

/// Returns whether no bit is set.
pub(super) fn has_no_bits(words: &[u64]) -> bool
    ensures { IsTrue result ↔ (bit_set words.now ≡ set.empty) }
{
    are_zero(words)
}

/// Returns whether all words are 0.
fn are_zero(words: &[u64]) -> bool
    ensures { result ≡ list_all (λ word. word == 0) words.now }
{
    words.iter().all(|word| *word == 0)
}

/// Sets a bit, and returns whether it was clear.
///
/// Words without bits are appended if the word of the bit is missing. Returns `Err` if allocation fails. The words are
/// then unchanged.
///
/// Precondition: `number` is below `u32::MAX`.
pub(super) fn set_bit(words: &mut Vec<u64>, number: usize) -> Result<bool, AllocError>
    requires { number < max_len }
    ensures is_new { IfOk result (λ is_new. is_new ≡ not (set.contains (bit_set words.old.items) number)) }
    ensures inserted { OnOk result (bit_set words.new.items ≡ set.insert (bit_set words.old.items) number) }
    ensures len { OnOk result (length words.new.items ≡ max (length words.old.items) (number / WORD_BITS + 1)) }
    ensures fits { OnOk result (number / WORD_BITS < vec_capacity words.new) }
    ensures capacity { vec_capacity words.old ≤ vec_capacity words.new }
    ensures unchanged { OnErr result (words.new.items ≡ words.old.items) }
    ensures room { number / WORD_BITS < vec_capacity words.old → IsOk result }
{
    let position = number / WORD_BITS;
    extend_to(words, position + 1)?;
    let bit = 1 << (number % WORD_BITS);
    let is_new = words[position] & bit == 0;
    words[position] |= bit;
    Ok(is_new)
}

/// Appends words without bits until there are at least `len` words.
///
/// Returns `Err` if allocation fails. The words are then unchanged.
///
/// If bits are set in ascending order, each call needs at most one more word, for which there usually is spare
/// capacity.
fn extend_to(words: &mut Vec<u64>, len: usize) -> Result<(), AllocError>
    ensures same { bit_set words.new.items ≡ bit_set words.old.items }
    ensures len { OnOk result (length words.new.items ≡ max (length words.old.items) len) }
    ensures unchanged { OnErr result (words.new.items ≡ words.old.items) }
    ensures capacity { vec_capacity words.old ≤ vec_capacity words.new }
    ensures room { len ≤ vec_capacity words.old → IsOk result }
{
    if len <= words.len() {
        return Ok(());
    }
    if len - words.len() == 1 && words.len() < words.capacity() {
        words.push_reserved(0);
        return Ok(());
    }
    lengthen(words, len)
}

/// Appends words without bits until there are `len` words. This is a separate function, so that it costs nothing for
/// bits that do not need it.
///
/// Precondition: there are fewer than `len` words.
#[cold]
#[inline(never)]
fn lengthen(words: &mut Vec<u64>, len: usize) -> Result<(), AllocError>
    requires { length words.old.items < len }
    ensures same { bit_set words.new.items ≡ bit_set words.old.items }
    ensures len { OnOk result (length words.new.items ≡ len) }
    ensures unchanged { OnErr result (words.new.items ≡ words.old.items) }
    ensures capacity { vec_capacity words.old ≤ vec_capacity words.new }
    ensures room { len ≤ vec_capacity words.old → IsOk result }
{
    words.resize(len, 0)
}

/// Clears a bit, and returns whether it was set.
pub(super) fn clear_bit(words: &mut Vec<u64>, number: usize) -> bool
    ensures was_set { result ≡ set.contains (bit_set words.old.items) number }
    ensures removed { bit_set words.new.items ≡ set.remove (bit_set words.old.items) number }
    ensures len { length words.new.items ≡ length words.old.items }
    ensures capacity { vec_capacity words.new ≡ vec_capacity words.old }
{
    let position = number / WORD_BITS;
    if position >= words.len() {
        return false;
    }
    let bit = 1 << (number % WORD_BITS);
    let was_set = words[position] & bit != 0;
    words[position] &= !bit;
    was_set
}

/// Sets all bits below a bound, and clears all others, without allocating.
///
/// Preconditions: `bound` is at most `u32::MAX`, and the capacity suffices for all words below the bound.
pub(super) fn set_bits_below(words: &mut Vec<u64>, bound: usize)
    requires small { bound ≤ max_len }
    requires room { words_for bound ≤ vec_capacity words.old }
    ensures full { bit_set words.new.items ≡ numbers_below bound }
    ensures len { length words.new.items ≡ words_for bound }
    ensures capacity { vec_capacity words.old ≤ vec_capacity words.new }
{
    words.clear();
    words.resize(bound / WORD_BITS, u64::MAX).unwrap();
    let left = bound % WORD_BITS;
    if left > 0 {
        words.push((1 << left) - 1).unwrap();
    }
}

/// Removes all words, and reserves space for all words that a bound requires.
///
/// Returns `Err` if allocation fails. The words are then unchanged.
///
/// Precondition: `bound` is at most `u32::MAX`.
pub(super) fn clear_for(words: &mut Vec<u64>, bound: usize) -> Result<(), AllocError>
    requires { bound ≤ max_len }
    ensures cleared { OnOk result (words.new.items ≡ []) }
    ensures unchanged { OnErr result (words.new.items ≡ words.old.items) }
    ensures fits { OnOk result (words_for bound ≤ vec_capacity words.new) }
    ensures capacity { vec_capacity words.old ≤ vec_capacity words.new }
    ensures room { words_for bound ≤ vec_capacity words.old → IsOk result }
{
    let missing = words_for(bound).saturating_sub(words.len());
    words.reserve(missing)?;
    words.clear();
    Ok(())
}

/// Returns the greatest number whose bit is set, or `None` if no bit is set.
///
/// Words without bits at the end are removed. The capacity is unchanged.
///
/// Precondition: there are no more words than a set with the bound `u32::MAX` needs.
pub(super) fn last_bit(words: &mut Vec<u64>) -> Option<usize>
    requires { length words.old.items ≤ words_for max_len }
    ensures greatest { IfSome result (IsGreatest (bit_set words.old.items)) }
    ensures none { IfNone result (bit_set words.old.items ≡ set.empty) }
    ensures same { bit_set words.new.items ≡ bit_set words.old.items }
    ensures len { length words.new.items ≤ length words.old.items }
    ensures capacity { vec_capacity words.new ≡ vec_capacity words.old }
{
    'words: while !words.is_empty() {
        let last = words.len() - 1;
        let word = words[last];
        if word != 0 {
            let bit = 63 - word.leading_zeros() as usize;
            return Some(last * WORD_BITS + bit);
        }
        words.pop();
    }
    None
}
