//! Readers and writers with the number of their failed calls, and, for a writer, whether it is flushed.
//!
//! Only tested: that `Counted` forwards a flush.
#![tactic(auto)]

mod counted;

pub use counted::Counted;
