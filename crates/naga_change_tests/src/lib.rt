//! Tests of `naga_compact` and `naga_proc`. They are in a crate of their own, so that the libraries are proved only
//! once. `tests/rows/tables` has the rows that show more.
#![tactic(auto)]

#[cfg(test)]
mod compact;
#[cfg(test)]
mod proc;
