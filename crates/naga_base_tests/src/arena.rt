//! Tests of each call on small values: what it must return, and what it must do if allocations fail.

mod arenas;
mod errors_with_spans;
mod handles;
mod ranges;
mod refusals;
mod spans;
mod unique_arenas;

use naga_arena::{Arena, ArenaIter, Handle, Span, SpanProvider};
use std::alloc::{AllocError, Global};
use std::fmt;

/// An element of an arena: a byte, and the start and the end of its span.
type Letter = (u8, u32, u32);

/// The letters a, b and c, each with its span.
const LETTERS: &[Letter] = &[(b'a', 1, 2), (b'b', 3, 4), (b'c', 5, 6)];

/// Appends the three letters to an arena that was emptied and has no capacity, and returns whether every append
/// succeeded.
fn fills(arena: &mut Arena<u8>) -> bool {
    arena.take();
    arena.append(b'a', Span::new(1, 2)).is_ok()
        && arena.append(b'b', Span::new(3, 4)).is_ok()
        && arena.append(b'c', Span::new(5, 6)).is_ok()
}

/// Returns whether the arena has exactly these letters, in this order.
fn holds(arena: &Arena<u8>, letters: &[Letter]) -> bool {
    are_letters(arena, arena.iter(), letters)
}

/// Returns whether the elements of the arena are these letters, each with its span.
fn are_letters<A: SpanProvider<u8>>(
    arena: &A,
    mut elements: ArenaIter<'_, u8>,
    letters: &[Letter],
) -> bool {
    for (letter, start, end) in letters {
        let Some((handle, value)) = elements.next() else {
            return false;
        };
        if *value != *letter || arena.get_span(handle) != Span::new(*start, *end) {
            return false;
        }
    }
    elements.next().is_none()
}

/// Returns whether a drain yielded this letter with its span, at this index.
fn drained(
    item: Option<(Handle<u8>, u8, Span)>,
    index: usize,
    (letter, start, end): Letter,
) -> bool {
    match item {
        Some((handle, value, span)) => {
            handle.index() == index && value == letter && span == Span::new(start, end)
        }
        None => false,
    }
}

/// Returns whether there is a handle, and it has this index.
fn is_at(given: Option<Handle<u8>>, index: usize) -> bool {
    match given {
        Some(handle) => handle.index() == index,
        None => false,
    }
}

/// Returns whether a letter is b.
fn is_b(letter: &u8) -> bool {
    *letter == b'b'
}

/// Returns whether two letters are equal.
fn are_equal(letter: &u8, other: &u8) -> bool {
    *letter == *other
}

/// Returns whether a value is displayed as this text.
fn says<T: fmt::Display>(alloc: Global, value: &T, text: &str) -> bool {
    match value.to_string(alloc) {
        Ok(written) => written.as_str() == text,
        Err(AllocError) => false,
    }
}

/// Returns whether a value has this debug text.
fn is_shown<T: fmt::Debug>(alloc: Global, value: &T, text: &str) -> bool {
    match format!(in alloc; "{value:?}") {
        Ok(written) => written.as_str() == text,
        Err(AllocError) => false,
    }
}
