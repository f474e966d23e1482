//! Tests of naga's JSON, as it is read, written and explained. They are in a separate crate, so that the libraries are
//! proved only once. What is read and written for each text is in the tables of `tests/rows/tables/naga_json`.
#![tactic(auto)]

#[cfg(test)]
mod doubling;
#[cfg(test)]
mod explain;
#[cfg(test)]
mod fault;
#[cfg(test)]
mod numbers;
#[cfg(test)]
mod read;
#[cfg(test)]
mod round_trip;
#[cfg(test)]
mod schema;
#[cfg(test)]
mod write;
