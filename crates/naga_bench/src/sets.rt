//! Workloads on sets of handles, in which either every tenth handle or every handle is a member.
use crate::fault::Fault;
use crate::item::{Item, mixed};
use crate::sample::{Sample, now, since};
use naga_arena::Range;
use naga_sets::HandleSet;

/// The handles that are members.
#[derive(Clone, Copy)]
pub enum Filling {
    Tenth,
    Full,
}

/// The operation that is timed on a set.
#[derive(Clone, Copy)]
pub enum SetWork {
    Insert,
    Contains,
    Remove,
    Iterate,
    Pop,
}

impl SetWork {
    /// Returns the name of the workload.
    pub fn name(self, filling: Filling) -> &'static str {
        match (self, filling) {
            (SetWork::Insert, Filling::Tenth) => "handle_set_insert_tenth",
            (SetWork::Insert, Filling::Full) => "handle_set_insert_full",
            (SetWork::Contains, Filling::Tenth) => "handle_set_contains_tenth",
            (SetWork::Contains, Filling::Full) => "handle_set_contains_full",
            (SetWork::Remove, Filling::Tenth) => "handle_set_remove_tenth",
            (SetWork::Remove, Filling::Full) => "handle_set_remove_full",
            (SetWork::Iterate, Filling::Tenth) => "handle_set_iterate_tenth",
            (SetWork::Iterate, Filling::Full) => "handle_set_iterate_full",
            (SetWork::Pop, Filling::Tenth) => "handle_set_pop_tenth",
            (SetWork::Pop, Filling::Full) => "handle_set_pop_full",
        }
    }

    /// Runs the timed operation, on an empty set for `Insert` and on a set that has its members otherwise.
    fn run(self, handles: &mut HandleSet<Item>, size: u32, filling: Filling) -> Result<u64, Fault> {
        match self {
            SetWork::Insert => insert(handles, size, filling),
            SetWork::Contains => Ok(contains(handles, size)),
            SetWork::Remove => Ok(remove(handles, size)),
            SetWork::Iterate => Ok(iterate(handles)),
            SetWork::Pop => Ok(pop(handles, size)),
        }
    }
}

/// Times an operation on a set of handles below `size`.
pub fn on_set(
    rt: &HostRuntime,
    size: u32,
    work: SetWork,
    filling: Filling,
) -> Result<Sample, Fault> {
    let mut handles = HandleSet::new(rt.alloc());
    let set_up = insert(&mut handles, size, filling);
    if let SetWork::Insert = work {
        handles.clear();
    }
    let start = now(rt);
    let given = work.run(&mut handles, size, filling);
    let time = since(rt, start);
    let sum = mixed(set_up.unwrap_or(0), iterate(&handles));
    Sample::of(size, given, sum, time)
}

/// Inserts those handles below `size` that `filling` selects.
fn insert(handles: &mut HandleSet<Item>, size: u32, filling: Filling) -> Result<u64, Fault> {
    match filling {
        Filling::Tenth => insert_tenth(handles, size),
        Filling::Full => insert_each(handles, size),
    }
}

/// Visits each handle below `size`, and inserts every tenth.
fn insert_tenth(handles: &mut HandleSet<Item>, size: u32) -> Result<u64, Fault> {
    let mut sum = 0;
    for handle in Range::<Item>::up_to(size) {
        if handle.index() % 10 == 0 {
            sum = mixed(sum, handles.insert(handle)? as u64);
        }
    }
    Ok(sum)
}

/// Inserts each handle below `size`.
fn insert_each(handles: &mut HandleSet<Item>, size: u32) -> Result<u64, Fault> {
    let mut sum = 0;
    for handle in Range::<Item>::up_to(size) {
        sum = mixed(sum, handles.insert(handle)? as u64);
    }
    Ok(sum)
}

/// Tests for each handle below `size` whether it is a member.
fn contains(handles: &HandleSet<Item>, size: u32) -> u64 {
    let mut sum = 0;
    for handle in Range::<Item>::up_to(size) {
        sum = mixed(sum, handles.contains(handle) as u64);
    }
    sum
}

/// Removes each handle below `size`, whether it is a member or not.
fn remove(handles: &mut HandleSet<Item>, size: u32) -> u64 {
    let mut sum = 0;
    for handle in Range::<Item>::up_to(size) {
        sum = mixed(sum, handles.remove(handle) as u64);
    }
    sum
}

/// Iterates over the members.
fn iterate(handles: &HandleSet<Item>) -> u64 {
    let mut sum = 0;
    for handle in handles.iter() {
        sum = mixed(sum, handle.index() as u64);
    }
    sum
}

/// Pops members, the greatest first, until there are none.
fn pop(handles: &mut HandleSet<Item>, size: u32) -> u64 {
    let mut sum = 0;
    for _ in 0..size {
        if let Some(handle) = handles.pop() {
            sum = mixed(sum, handle.index() as u64);
        }
    }
    sum
}
