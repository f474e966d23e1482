//! Tests of each method on small values: its results, and its behaviour if allocation fails.
ghost use Rattle.std.specs.Prelude.{◌≡◌};

mod refusals;
mod sets;
mod vectors;

use naga_arena::{Arena, Handle, Span};
use naga_sets::HandleSet;
use std::alloc::{AllocError, Global};
use std::fmt;

/// Returns the handle of the byte with this index.
fn handle(index: u16) -> Handle<u8>
    ensures { result ≡ index }
{
    Handle::<u8>::at(usize::from(index))
}

/// Creates an arena of `len` bytes, or returns `None` if allocation fails.
fn arena_of(alloc: Global, len: u8) -> Option<Arena<u8>> {
    let mut arena = Arena::new(alloc);
    for value in 0..len {
        if arena.append(value, Span::UNDEFINED).is_err() {
            return None;
        }
    }
    Some(arena)
}

/// Creates a set for an arena of `len` bytes, or returns `None` if allocation fails.
fn set_for(alloc: Global, len: u8) -> Option<HandleSet<u8>> {
    let arena = arena_of(alloc, len)?;
    HandleSet::<u8>::for_arena(alloc, &arena).ok()
}

/// Returns whether these are the members, in ascending order, and the handles that could be members are those below
/// this bound.
fn is_set(handles: &HandleSet<u8>, members: &[u16], bound: u32) -> bool {
    let mut walk = handles.iter();
    for index in members {
        if walk.next() != Some(handle(*index)) {
            return false;
        }
    }
    walk.next().is_none() && handles.all_possible().index_range() == (0..bound)
}

/// Returns whether a set or a vector is formatted as this text.
fn is_shown<T: fmt::Debug>(alloc: Global, value: &T, text: &str) -> bool {
    match format!(in alloc; "{value:?}") {
        Ok(shown) => shown.as_str() == text,
        Err(AllocError) => false,
    }
}
