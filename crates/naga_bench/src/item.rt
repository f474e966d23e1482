//! The elements of the arenas that are timed.
ghost use Rattle.std.specs.Prelude.{codes};

use crate::fault::Fault;
use naga_arena::{Arena, Handle, KindName, Span};
use std::alloc::Global;

/// An element of 8 bytes.
#[derive(Clone, Copy, PartialEq, Eq, Hash)]
pub struct Item {
    pub key: u64,
}

impl KindName for Item {
    type Kind = u8;

    const NAME: &'static str = "Item";

    ghost name = { codes "Item" };

    fn kind_name() -> &'static str {
        Self::NAME
    }
}

/// Returns the element of a number. Different numbers have different elements, in no apparent order.
pub fn item_of(number: u32) -> Item {
    Item {
        key: (number as u64).wrapping_mul(0x9E37_79B9_7F4A_7C15),
    }
}

/// Returns the span of the element of a number.
pub fn span(number: u32) -> Span {
    Span::new(number, number.saturating_add(4))
}

/// Creates an arena of the elements of all numbers below `size`.
pub fn filled(alloc: Global, size: u32) -> Result<Arena<Item>, Fault> {
    let mut arena = Arena::new(alloc);
    append(&mut arena, size)?;
    Ok(arena)
}

/// Appends the elements of all numbers below `size`.
pub fn append(arena: &mut Arena<Item>, size: u32) -> Result<u64, Fault> {
    for number in 0..size {
        arena.append(item_of(number), span(number))?;
    }
    Ok(0)
}

/// Returns a checksum with one more number added. It also depends on the order of the numbers.
pub fn mixed(sum: u64, number: u64) -> u64 {
    sum.wrapping_mul(31).wrapping_add(number)
}

/// Returns a checksum of an arena's elements and their spans, in the order of their handles.
pub fn sum_of(arena: &Arena<Item>) -> u64 {
    let mut sum = 0;
    for i in 0..arena.len() {
        if let Some(handle) = Handle::<Item>::from_usize(i) {
            sum = mixed(sum, arena[handle].key);
            sum = mixed(sum, arena.get_span(handle).start as u64);
        }
    }
    sum
}
