//! Tests of the arenas, the sets and vectors of handles, the kinds and the IR. They are in a separate crate, so that the
//! libraries are proved only once.
//!
//! What a library says of a module or of a kind is in tables, in `tests/rows/tables`. Here is one test of each call, and
//! what no table can show: spans, handles that are not in their arenas, values without a JSON, and allocations that fail.
#![tactic(auto)]

#[cfg(test)]
mod arena;
#[cfg(test)]
mod ir;
#[cfg(test)]
mod kinds;
#[cfg(test)]
mod sets;
