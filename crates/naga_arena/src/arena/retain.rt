//! The loop of [`Arena::retain_mut`].
ghost use Rattle.std.specs.Prelude.{◌≡◌, ◌≤◌, [], length, vec_capacity};
ghost use Rattle.std.specs.List.{enumerate_from, zip};
ghost use Rattle.naga_arena.specs.Arena.{max_len, Retains};

use crate::arena::Arena;
use crate::arena::handle::{Handle, KindName};
use crate::span::Span;

/// Calls `predicate` with each entry, in order, and returns an arena of the values that it returns, each with the span
/// of its entry.
///
/// The returned values are collected in `kept`, and their spans are moved to the front of `spans`.
///
/// Preconditions: `predicate` can be called any number of times with any arguments; `values` and `spans` have the same
/// length, at most `u32::MAX`; `kept` is empty and has capacity for all values.
pub(super) fn retain_entries<T: KindName + Drop, P: FnMut(Handle<T>, T) -> Option<T>>(
    values: Vec<T>,
    mut spans: Vec<Span>,
    mut predicate: P,
    mut kept: Vec<T>,
) -> Arena<T>
    requires callable { P.IsAlwaysCallable predicate }
    requires aligned { length spans.items ≡ length values.items }
    requires fits { length values.items ≤ max_len }
    requires nothing { kept.items ≡ [] }
    requires room { length values.items ≤ vec_capacity kept }
    ensures { Retains P.step predicate (enumerate_from 0 (zip values.items spans.items)) result }
{
    let mut rest = values.into_iter();
    let mut index = 0;
    'each: while let Some(value) = rest.next() {
        let handle = Handle::<T>::at(index);
        let span = spans[index];
        index += 1;
        if let Some(value) = predicate(handle, value) {
            spans[kept.len()] = span;
            kept.push_reserved(value);
        }
    }
    spans.truncate(kept.len());
    Arena {
        data: kept,
        span_info: spans,
    }
}
