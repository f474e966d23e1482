//! Tests of the methods of blocks, of chains of expressions, of what a module looks up, of clones of whole modules, and of
//! each other call, also when allocations fail.
mod blocks;
mod calls;
mod chains;
mod constants;
mod everything;
mod literals;
mod mesh_outputs;
mod modules;
mod queries;
mod refusals;

use naga_arena::{Arena, Handle, KindName, Span};
use std::alloc::{AllocError, Global};
use std::fmt::Debug;

/// Returns the handle with this index.
fn at<T: KindName>(index: u8) -> Handle<T> {
    Handle::<T>::at(usize::from(index))
}

/// Appends an element to an arena, and returns whether this succeeded.
fn put<T: KindName + Drop>(arena: &mut Arena<T>, value: T) -> bool {
    arena.append(value, Span::new(1, 2)).is_ok()
}

/// Returns the debug text of a value.
fn shown<T: Debug>(alloc: Global, value: &T) -> Result<String, AllocError> {
    format!(in alloc; "{value:?}")
}

/// Returns whether two values have the same debug text, or `None` if an allocation fails.
fn are_shown_alike<T: Debug>(alloc: Global, first: &T, second: &T) -> Option<bool> {
    let Ok(first) = shown(alloc, first) else {
        return None;
    };
    match shown(alloc, second) {
        Ok(second) => Some(first.as_str() == second.as_str()),
        Err(AllocError) => None,
    }
}
