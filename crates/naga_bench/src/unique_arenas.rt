//! Workloads on unique arenas.
use crate::fault::Fault;
use crate::item::{Item, item_of, mixed, span};
use crate::sample::{Sample, now, since};
use naga_arena::UniqueArena;

/// The operation that is timed on a unique arena.
#[derive(Clone, Copy)]
pub enum UniqueArenaWork {
    Insert,
    Get,
}

impl UniqueArenaWork {
    /// Returns the name of the workload.
    pub fn name(self) -> &'static str {
        match self {
            UniqueArenaWork::Insert => "unique_arena_insert",
            UniqueArenaWork::Get => "unique_arena_get",
        }
    }
}

/// Inserts half as many values as `size`, each twice.
fn insert(arena: &mut UniqueArena<Item>, size: u32) -> Result<u64, Fault> {
    for number in 0..size {
        arena.insert(item_of(number / 2), span(number))?;
    }
    Ok(0)
}

/// Looks up `size` values, half of which are in the arena.
fn get(arena: &UniqueArena<Item>, size: u32) -> u64 {
    let mut sum = 0;
    for number in 0..size {
        if let Some(handle) = arena.get(&item_of(number)) {
            sum = mixed(sum, handle.index() as u64);
        }
    }
    sum
}

/// Returns a checksum of the values and their handles.
fn sum_of(arena: &UniqueArena<Item>) -> u64 {
    let mut sum = 0;
    for (handle, item) in arena.iter() {
        sum = mixed(sum, item.key ^ handle.index() as u64);
    }
    sum
}

/// Times an operation on a unique arena.
pub fn on_unique_arena(
    rt: &HostRuntime,
    size: u32,
    work: UniqueArenaWork,
) -> Result<Sample, Fault> {
    match work {
        UniqueArenaWork::Insert => on_inserts(rt, size),
        UniqueArenaWork::Get => on_gets(rt, size),
    }
}

/// Times inserting values.
fn on_inserts(rt: &HostRuntime, size: u32) -> Result<Sample, Fault> {
    let mut arena = UniqueArena::new(rt.alloc());
    let start = now(rt);
    let given = insert(&mut arena, size);
    let time = since(rt, start);
    Sample::of(size, given, sum_of(&arena), time)
}

/// Times looking up values.
fn on_gets(rt: &HostRuntime, size: u32) -> Result<Sample, Fault> {
    let mut arena = UniqueArena::new(rt.alloc());
    let inserted = insert(&mut arena, size);
    let start = now(rt);
    let sum = get(&arena, size);
    let time = since(rt, start);
    Sample::of(size, inserted, sum, time)
}
