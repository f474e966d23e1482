//! Tests of types of expressions, of types of operands, and of accesses in bounds. They are in a crate of their own, so
//! that the libraries are proved only once. Most rows are tables of the program naga_rows.
#![tactic(auto)]

#[cfg(test)]
mod bounds;
#[cfg(test)]
mod modules;
#[cfg(test)]
mod typifier;
#[cfg(test)]
mod typing;
