//! Tests of the rules for handles and for bodies, of the runs of bodies, and of the notation for them. They are in a
//! crate of their own, so that the libraries are proved only once. `tests/rows/tables` has the rows that show more.
#![tactic(auto)]

#[cfg(test)]
mod flow;
#[cfg(test)]
mod notation;
#[cfg(test)]
mod runs;
#[cfg(test)]
mod valid;
