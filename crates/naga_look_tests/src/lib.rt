//! Tests of `naga_text`, `naga_wgsl` and `naga_look`. They are in a crate of their own, so that the libraries are proved only once.
#![tactic(auto)]

#[cfg(test)]
mod compared;
#[cfg(test)]
mod look;
#[cfg(test)]
mod text;
#[cfg(test)]
mod wgsl;
