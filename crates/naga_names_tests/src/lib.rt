//! Tests of names and of layouts of types. They are in a crate of their own, so that the libraries are proved only once.
#![tactic(auto)]

#[cfg(test)]
mod layouter;
#[cfg(test)]
mod namer;
