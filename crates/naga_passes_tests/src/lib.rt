//! Tests of `naga_passes`. They are in a crate of their own, so that the library is proved only once.
#![tactic(auto)]

#[cfg(test)]
mod passes;
