//! Workloads on arenas, and on ranges of their handles.
use crate::fault::Fault;
use crate::item::{Item, append, filled, item_of, mixed, span, sum_of};
use crate::sample::{Sample, now, since};
use naga_arena::{Arena, Handle, Range, TryClone};

/// The operation that is timed on an arena.
#[derive(Clone, Copy)]
pub enum ArenaWork {
    Append,
    Index,
    Iterate,
    FetchOrAppend,
    RetainMut,
    Drain,
    Clone,
    IterateRange,
}

impl ArenaWork {
    /// Returns the name of the workload.
    pub fn name(self) -> &'static str {
        match self {
            ArenaWork::Append => "arena_append",
            ArenaWork::Index => "arena_index",
            ArenaWork::Iterate => "arena_iterate",
            ArenaWork::FetchOrAppend => "arena_fetch_or_append",
            ArenaWork::RetainMut => "arena_retain_mut",
            ArenaWork::Drain => "arena_drain",
            ArenaWork::Clone => "arena_clone",
            ArenaWork::IterateRange => "range_iterate",
        }
    }

    /// Returns the number of elements that the arena has before the operation.
    fn size_before(self, size: u32) -> u32 {
        match self {
            ArenaWork::Append | ArenaWork::FetchOrAppend => 0,
            _ => size,
        }
    }

    /// Runs the timed operation.
    fn run(self, arena: &mut Arena<Item>, size: u32) -> Result<u64, Fault> {
        match self {
            ArenaWork::Append => append(arena, size),
            ArenaWork::Index => Ok(index(arena)),
            ArenaWork::Iterate => Ok(iterate(arena)),
            ArenaWork::FetchOrAppend => fetch_or_append(arena, size),
            ArenaWork::RetainMut => retain_mut(arena),
            ArenaWork::Drain => Ok(drain(arena)),
            ArenaWork::Clone => replace_by_clone(arena),
            ArenaWork::IterateRange => Ok(iterate_range(size)),
        }
    }
}

/// Times an operation on an arena.
pub fn on_arena(rt: &HostRuntime, size: u32, work: ArenaWork) -> Result<Sample, Fault> {
    let mut arena = filled(rt.alloc(), work.size_before(size))?;
    let start = now(rt);
    let given = work.run(&mut arena, size);
    let time = since(rt, start);
    Sample::of(size, given, sum_of(&arena), time)
}

/// Reads each element by its handle.
fn index(arena: &Arena<Item>) -> u64 {
    let mut sum = 0;
    for i in 0..arena.len() {
        let handle = Handle::<Item>::from_usize(i).unwrap();
        sum = mixed(sum, arena[handle].key);
    }
    sum
}

/// Iterates over the elements with their handles.
fn iterate(arena: &Arena<Item>) -> u64 {
    let mut sum: u64 = 0;
    for (handle, item) in arena.iter() {
        sum = sum.wrapping_add(item.key ^ handle.index() as u64);
    }
    sum
}

/// Fetches `size` values, of which only 64 are different, and appends those that are missing.
fn fetch_or_append(arena: &mut Arena<Item>, size: u32) -> Result<u64, Fault> {
    let mut sum = 0;
    for number in 0..size {
        let handle = arena.fetch_or_append(item_of(number % 64), span(number))?;
        sum = mixed(sum, handle.index() as u64);
    }
    Ok(sum)
}

/// Keeps every other element.
fn retain_mut(arena: &mut Arena<Item>) -> Result<u64, Fault> {
    arena.retain_mut(|_, item| if item.key % 2 == 0 { Some(item) } else { None })?;
    Ok(0)
}

/// Drains all elements.
fn drain(arena: &mut Arena<Item>) -> u64 {
    let mut sum: u64 = 0;
    for (handle, item, span) in arena.drain() {
        sum = sum.wrapping_add(item.key ^ handle.index() as u64 ^ span.end as u64);
    }
    sum
}

/// Replaces an arena with its clone.
fn replace_by_clone(arena: &mut Arena<Item>) -> Result<u64, Fault> {
    *arena = TryClone::clone(&*arena)?;
    Ok(0)
}

/// Iterates over the handles of a range.
fn iterate_range(size: u32) -> u64 {
    let mut sum = 0;
    for handle in Range::<Item>::up_to(size) {
        sum = mixed(sum, handle.index() as u64);
    }
    sum
}
