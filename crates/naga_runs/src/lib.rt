//! Runs of blocks of the shader IR: what a block does, given the answers for its conditions and selectors.
//!
//! A run is given by answers in place of the values of conditions and selectors. It says which statements control
//! reaches for these answers, and not whether the shader ever comes to them.
//!
//! Not claimed: that an expression has the value that an answer stands for; how much a replay allocates for its trace.
#![tactic(auto)]

mod exits;
pub mod laws;
mod run;
mod walk;

pub use exits::{has_default, has_exit, last_falls};
pub use run::{Ending, Replay};
pub use walk::replay;
