//! Sets of handles, and vectors indexed by handles.
//!
//! Contracts see a set as a bound and a finite set of numbers below it. No clause shows how it is stored, which is as
//! the bits of 64-bit words.
//!
//! Only tested: debug texts, and that a vector that is created with a capacity allocates nothing more for that many
//! values.
#![tactic(auto)]

mod handle_set;
mod handle_vec;
pub mod laws;

pub use handle_set::{HandleSet, HandleSetIter};
pub use handle_vec::{HandleVec, HandleVecIter};
